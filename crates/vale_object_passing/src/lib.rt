//! Values that go from registers to registers of other functions, with their texts: arguments by the types of parameters, and
//! results.
#![tactic(auto)]

mod arguments;
mod results;
mod room;

pub use arguments::{blank, pass};
pub use results::hand;
pub use room::{fill, reserve};
