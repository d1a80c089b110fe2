//! Stretches of steps within one function, in a run with objects.
#![tactic(auto)]

mod once;
mod stretch;

pub use stretch::go;
