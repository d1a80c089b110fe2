//! The facts that certify a function's lowered code, from the typed tree.
#![tactic(auto)]

mod function;
mod walk;

pub use function::function_facts;
