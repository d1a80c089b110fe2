//! Formats of files: how the values of a type stand in bytes, stated once for each kind of field and composed, with one law
//! for all of them; and numbers in base 128.
#![tactic(auto)]

mod fault;
mod numbers;

pub use fault::{Fault, Reason};
pub use numbers::{read_choice, read_number, read_word, write_number, write_word};
