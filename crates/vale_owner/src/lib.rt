//! The phase of ownership: which locals are whole at each place of a program, and the rules of ownership that it keeps
//! (docs/LANGUAGE.md, "Ownership").
#![tactic(auto)]

mod moves;
mod ownership;
mod walk;

pub use ownership::{OwnFault, own};
