//! The machine that runs certified code on numbers, truths and texts: a run is a stretch of steps within a function, and then a
//! step that enters or leaves one, or makes or prints a text. There are no objects yet, and so no arrays: `main` takes nothing.
#![tactic(auto)]

mod aside;
mod calls;
mod machine;
mod print;
mod runs;
mod start;
mod step;
mod stretch;
mod texts;
mod trap;
mod turn;

pub use machine::Machine;
pub use runs::{Finished, run, run_certified};
pub use start::Input;
pub use turn::{End, Turn};
