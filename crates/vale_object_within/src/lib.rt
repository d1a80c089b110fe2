//! Instructions that go on within their function, in a run with objects.
#![tactic(auto)]

mod still;
mod texts;
mod within;

pub use within::obey_within;
