//! Lists of calls of a heap, by the names of the objects: what the heap answers is what a map of names that never return answers.
#![tactic(auto)]

mod call;
mod session;

pub use call::{Call, Named, Reply, Values};
pub use session::Session;
