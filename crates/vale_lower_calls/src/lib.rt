//! What is emitted of a call and of an array with owners, once their values stand in registers.
#![tactic(auto)]

mod built_ins;
mod calls;
mod written;

pub use calls::{Call, put_callee, put_made};
pub use written::{gives_of_result, gives_of_written};
