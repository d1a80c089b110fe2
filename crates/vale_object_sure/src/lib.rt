//! Lowered code has no instruction that no step follows, where its program keeps the rules of types and of ownership.
#![tactic(auto)]

mod laws;

pub use laws::{lowered_bodies_are_sure, owned_code_breaks_no_rule};
