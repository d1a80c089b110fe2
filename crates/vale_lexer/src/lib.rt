//! From a program's bytes to its tokens.
#![tactic(auto)]

mod bytes;
mod lexer;
mod numbers;
mod pieces;
mod quotes;
mod signs;
mod words;

pub use lexer::{LexFault, lex};
