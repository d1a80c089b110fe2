//! The code of a program with owners has the program's kinds and destructors, where the program's declarations and types keep their rules.
#![tactic(auto)]

mod laws;

pub use laws::kinds_are_those_of_the_program;
