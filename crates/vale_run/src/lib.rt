//! The top call: all that the program `valec` does, over the objects that it is handed.
#![tactic(auto)]

mod answer;
mod codes;
mod laws;
mod plain;
mod running;
mod top;

pub use top::valec;
pub use vale_deliver::Status;
