//! The registers of functions under way: cells that are read with no test and written in place, and the texts that they hold.
#![tactic(auto)]

mod cell;
mod passing;
mod row;

pub use cell::{Cell, Shape, int_at, is_text, set_int, set_text, set_truth, shape_at, truth_at};
pub use passing::{fill, hand, pass, reserve};
pub use row::Row;
