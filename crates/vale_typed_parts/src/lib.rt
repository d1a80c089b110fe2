//! What typed nodes are made from: the names that are declared, lists whose walk is under way, forms with the types of their
//! values, and copies of heads.
#![tactic(auto)]

mod copies;
mod lists;
mod names;
mod valued;

pub use copies::{copy_fields, copy_head, copy_heads};
pub use lists::{TypedLinks, TypedSteps, TypedStmts, room_for};
pub use names::{element_of, is_used, is_value_under, new_name, new_names};
pub use valued::{Inside, Valued};
