//! What the program answers, and its way to the outside: a file, bytes for `out` and `err`, and a status.
#![tactic(auto)]

mod answer;
mod delivery;

pub use answer::{Answer, NewFile};
pub use delivery::{Status, deliver, send};
