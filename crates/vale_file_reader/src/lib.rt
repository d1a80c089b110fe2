//! Reading the parts of a code file: each function gives what its format's `read` gives.
#![tactic(auto)]

mod content;
mod funcs;
mod instrs;
mod kinds;
mod types;

pub use content::read_content;
