//! How functions are entered and left in a run with objects.
#![tactic(auto)]

mod control;
mod leave;

pub use control::{Came, Control};
pub use leave::rejoin;
