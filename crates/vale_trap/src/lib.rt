//! The text that is told of a trap.
#![tactic(auto)]

mod trap;

pub use trap::report;
