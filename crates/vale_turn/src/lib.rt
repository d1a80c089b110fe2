//! What an instruction does within a function's cells, and stretches of such steps: no test of what a register holds, no value
//! between an instruction and its register.
#![tactic(auto)]

mod compare;
mod obey;
mod stop;
mod stretch;

pub use compare::{matched, ordered};
pub use stop::Stop;
pub use stretch::{function_of, go, instr_at, once};
