//! Which codes with facts have a spelling in a code file: those that lie in the tables of the format. The functions here read
//! each part and do nothing else.
#![tactic(auto)]

mod funcs;
mod kinds;
mod numbers;
mod operands;

pub use funcs::code_fits;
