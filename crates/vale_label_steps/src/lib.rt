//! The labels of single nodes and jumps, and what is known of the registers at a label.
#![tactic(auto)]

mod frame;
mod known;
mod labels;
mod slots;
mod steps;

pub use frame::Frame;
pub use labels::Labels;
pub use slots::{Local, Slots, Standing};
pub use steps::{
    begin_count, begin_loop, end_count, end_loop, end_side, put_held, put_return, put_set,
    put_unary,
};
