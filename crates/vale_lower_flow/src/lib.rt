//! What was emitted of a body so far, and which owners are gone there: the locals in scope, code that grows at its end, and the shapes of code that no run comes to.
#![tactic(auto)]

mod closing;
mod flow;
mod gives;
mod gone;
mod scope;

pub use closing::{Closing, Closings};
pub use flow::{Flow, Mark, Side, above};
pub use gives::Gives;
pub use gone::Gone;
pub use scope::{Local, Scope, find, same_gone};
