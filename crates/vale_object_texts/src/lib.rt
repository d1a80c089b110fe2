//! Instructions that make texts, read them or print, within a function whose registers may lead to objects.
#![tactic(auto)]

mod landing;
mod prints;
mod readings;
mod texts;

pub use prints::obey_print;
pub use readings::obey_reading;
pub use texts::{obey_quote, obey_text};
