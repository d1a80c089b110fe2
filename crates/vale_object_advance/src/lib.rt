//! The innermost function of a run with objects goes on.
#![tactic(auto)]

mod stretch;

pub use stretch::run_on;
