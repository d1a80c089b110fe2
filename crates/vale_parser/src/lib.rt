//! From the tokens of a program to its tree, by descent with one token in hand.
#![tactic(auto)]

mod items;
mod parser;

pub use parser::{ParseFault, parse};
