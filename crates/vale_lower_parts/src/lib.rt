//! What each part of a body with owners makes of what was emitted before it, by what its own parts make; and what is begun before a part and ended after it.
#![tactic(auto)]

mod branch;
mod frame;
mod named;

pub use branch::{Base, Branch, base_of_local, end_branches};
pub use frame::Frame;
pub use named::{declared, is_frozen, is_text, unmoved_name, view_of, waiting};
