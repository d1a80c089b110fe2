//! The canonical text of a program's tree.
#![tactic(auto)]

mod bytes;
mod exprs;
mod items;
mod operators;
mod pieces;
mod types;

pub use items::print;
