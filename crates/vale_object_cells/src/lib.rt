//! Registers that hold places of objects beside numbers, truths and texts: they are read with no test and written in place.
#![tactic(auto)]

mod carry;
mod register;

pub use carry::{keep, lend, receive};
pub use register::{
    Register, Shape, empty, int_at, move_to, place_at, set_int, set_iso, set_own, set_reference,
    set_text, set_truth, shape_at, truth_at, upcast_to,
};
