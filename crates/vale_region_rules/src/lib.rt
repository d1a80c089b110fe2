//! Which rule of freezes a node breaks, by what its parts have (docs/LANGUAGE.md, "Freezes and isolates").
//!
//! Each `.._fault` answers the lowest code whose rule is broken, or none.
#![tactic(auto)]

mod calls;
mod heads;
mod index;
mod nodes;
mod places;
mod signatures;
mod types;

pub use calls::{array_fault, call_fault, method_fault};
pub use heads::{entry, param_fault, result_fault};
pub use nodes::{is_value_under, name_fault, pure_fault, return_fault, return_nothing_fault};
pub use places::set_fault;
pub use signatures::Signatures;
