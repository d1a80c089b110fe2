//! A program's canonical text, from its tokens.
#![tactic(auto)]

mod formatter;

pub use formatter::format;
