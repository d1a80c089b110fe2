//! What is under way in a run with objects: functions, and destructions with what the dead objects held. It is a stack that lies
//! on the heap, so a destruction of a long list takes no more of the system's stack than one of a short list.
#![tactic(auto)]

mod frame;
mod stack;

pub use frame::{Active, Frame, Leftover};
pub use stack::Stack;
