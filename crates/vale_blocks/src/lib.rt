//! From the tokens of a block to its tree, by descent with one token in hand: statements, forms and expressions.
#![tactic(auto)]

mod forms;
mod level;
mod nesting;
mod operands;
mod operators;
mod statements;

pub use nesting::block;
