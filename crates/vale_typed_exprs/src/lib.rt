//! Expressions of the typed tree over their typed parts, each by its row of the rules of types (docs/LANGUAGE.md, "Types").
#![tactic(auto)]

mod calls;
mod chained;
mod exprs;
mod places;

pub use calls::call;
pub use chained::{field, index, method, operand};
pub use exprs::{array, chain, form, iso, number, paren, quote, steps, truth, unary};
pub use places::{name, set};
