//! How objects are destroyed in a run with objects: a destructor is entered, or the object dies, and what it held is destroyed
//! value by value.
#![tactic(auto)]

mod begin;
mod drops;

pub use drops::{destroy, drop_next};
