//! Values that are copied from register to register, within a function whose registers may lead to objects.
#![tactic(auto)]

mod copies;

pub use copies::obey_copy;
