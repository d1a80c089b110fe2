//! Types, how parts of a program are seen, and the locals in scope (docs/LANGUAGE.md, "Types").
#![tactic(auto)]

mod parts;
mod scope;
mod seen;
mod signature;
mod taking;
mod ty;
mod views;

pub use parts::{
    block_type, chain_seen, link_seen, may_be_set, seen_of, step_seen, steps_seen, type_in,
    types_in,
};
pub use scope::{Local, Scope, is_moved, is_outer, is_visible, local_of, local_seen};
pub use seen::{
    a_value, as_frozen, as_shared, copy_seen, copy_view, is_frozen, is_loose, part_seen,
    seen_object, value_view, view_here,
};
pub use signature::{field_types, method_takes, needs_frozen, param_types};
pub use taking::takes;
pub use ty::{copy_found, object_of, result_of, type_of};
pub use views::{deeper, index_view, name_in};
