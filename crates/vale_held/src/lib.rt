//! Values that are held while others are made.
#![tactic(auto)]

mod held;

pub use held::Held;
