//! A heap of objects in pages of slots. An object has a place: a frame, a slot of the frame's page, and the slot's generation
//! while the object lives. No other object ever has that place. The heap has regions, one inside the other, and isolates.
#![tactic(auto)]

mod body;
mod heap;
mod lists;
mod seat;

pub use body::{Body, Cell, Cells, Place};
pub use heap::{Heap, NoPage};
pub use seat::{Home, Seat};
