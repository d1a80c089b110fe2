//! The kinds of a program's objects and their numbers.
#![tactic(auto)]

mod arrays;
mod items;
mod kinds;
mod named;

pub use items::kinds_of;
pub use kinds::Kinds;
