//! Instructions on numbers and truths, jumps and ticks, within a function whose registers may lead to objects.
#![tactic(auto)]

mod jumps;
mod numbers;

pub use jumps::obey_jump;
pub use numbers::obey_number;
