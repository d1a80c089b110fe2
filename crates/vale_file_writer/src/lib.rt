//! Writing the parts of a code file: each function appends what its format's `write` gives.
#![tactic(auto)]

mod content;
mod funcs;
mod instrs;
mod kinds;

pub use content::write_content;
