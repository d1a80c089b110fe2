//! What the words of the command line ask for (docs/LANGUAGE.md, "The command line").
#![tactic(auto)]

mod job;
mod numbers;
mod options;
mod words;

pub use job::{Job, Options, Schedule, WordFault};
pub use words::read_words;
