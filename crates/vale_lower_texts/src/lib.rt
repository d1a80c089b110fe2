//! The texts of the code of a program with owners: the quotes of its bodies, in order.
#![tactic(auto)]

mod quotes;

pub use quotes::add_block;
