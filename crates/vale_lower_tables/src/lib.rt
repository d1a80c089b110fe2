//! What the code of a body with owners is looked up in: the fields and kinds of a program, its texts and its functions.
#![tactic(auto)]

mod around;
mod fields;
mod functions;

pub use around::{Around, Tables};
pub use fields::{Fields, Listed};
pub use functions::{Callee, Functions};
