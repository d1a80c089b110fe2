//! What is known of the locals at a place of a body: which of them are whole, after which branches, and the first fault of
//! ownership so far.
#![tactic(auto)]

mod branches;
mod flow_state;
mod locals;

pub use branches::{Branches, may_skip};
pub use flow_state::FlowState;
pub use locals::{Local, are_alike, place_of};
