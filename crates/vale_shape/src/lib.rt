//! Whether a code is as it must be before its instructions are looked at one by one: its kinds, implementations and functions,
//! their types, and the numbers of instructions, each inside its table (docs/FORMATS.md, "Certificates", rule 1).
#![tactic(auto)]

mod first;
mod funcs;
mod implementations;
mod lawful;
mod numbers;
mod shape;
mod types;

pub use first::{facts_of, shape_fault};
pub use implementations::Implementations;
pub use lawful::kind_of;
pub use types::{is_copy, is_frozen, is_owned, is_void, same_type};
