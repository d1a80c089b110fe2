//! What single instructions do to registers and a heap of objects. Each follows a step of the state, whatever names the places
//! have.
#![tactic(auto)]

mod arrays;
mod births;
mod drops;
mod effect;
mod fields;
mod references;

pub use arrays::{count, element, exchange, pop, push};
pub use births::{make, open};
pub use drops::{end, kind_at, next_owned};
pub use effect::{Effect, Want};
pub use fields::{load, swap};
pub use references::{borrow, transfer, widen};
