//! What names are called, sets of names, and which names reach an isolate.
#![tactic(auto)]

mod mentions;
mod names;
mod reach;
mod spread;
mod texts;
mod written;

pub use names::Names;
pub use reach::iso_names;
pub use texts::is_called;
pub use written::{base_of, has_iso};
