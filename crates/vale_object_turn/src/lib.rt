//! What an instruction on objects does within its function: its registers, the heap and the place go on as the code's meaning
//! says, whatever names the places have.
#![tactic(auto)]

mod births;
mod destroy;
mod obey;

pub use births::{obey_make, obey_open};
pub use destroy::{Onset, begin};
pub use obey::{obey_change, obey_look, obey_reference};
