//! What is emitted of single nodes with owners, once their parts are: plain values, fields and elements and what they start from, and locals that are named, set and dropped.
#![tactic(auto)]

mod locals;
mod places;
mod values;

pub use locals::{drop_scope, drop_value, put_exchange, put_hand, put_lent, put_moved, put_store};
pub use places::{
    Origin, is_there, origin_of, put_element, put_field, put_stuck, swap_element, swap_field,
};
pub use values::{
    put_number, put_operator, put_quote, put_thaw, put_truth, put_unary, registers_from,
};
