//! The text of a code with its facts: a line for each function, for each label and for each instruction
//! (docs/FORMATS.md, "Listings").
#![tactic(auto)]

mod instrs;
mod lines;

pub use lines::list;
