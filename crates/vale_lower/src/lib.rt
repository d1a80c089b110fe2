//! From the typed tree of a sound program to its code and the facts that certify it.
#![tactic(auto)]

mod facts;
mod lowering;

pub use facts::lower_facts;
pub use lowering::lower;
