//! Which rule of types a node breaks, by what its parts have, and what a node gives (docs/LANGUAGE.md, "Types").
//!
//! Each `.._fault` answers the lowest code whose rule is broken, or none.
#![tactic(auto)]

mod calls;
mod forms;
mod names;
mod operators;
mod statements;
mod steps;

pub use calls::{Called, array_fault, called_by, called_fault, called_gives, callee};
pub use forms::{
    bounds_fault, branch_fault, condition_fault, consumed_fault, iso_fault, parallel_gives,
    void_fault,
};
pub use names::{declare_fault, name_fault, new_name_fault};
pub use operators::{link_fault, link_gives, unary_fault, unary_gives};
pub use statements::{
    destructure_fault, function_fault, return_nothing_fault, return_value_fault, set_fault,
    set_gives,
};
pub use steps::{
    element_gives, field_fault, field_gives, index_fault, is_settable, method_fault, method_gives,
};
