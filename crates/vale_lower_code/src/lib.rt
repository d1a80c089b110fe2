//! The code that turns the typed tree of a program into instructions, in one walk over each body.
#![tactic(auto)]

mod code;
mod function;
mod walk;

pub use code::lower_code;
