//! A program's names and items, ready for look-ups by name.
#![tactic(auto)]

mod impls;
mod index;
mod lookup;
mod places;
mod table;
mod texts;

pub use table::Table;
pub use texts::built_in_named;
