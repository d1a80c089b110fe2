//! Code files: the one spelling of a code with its facts, and what the bytes of a file spell.
#![tactic(auto)]

mod fault;
mod reading;
mod writing;

pub use fault::FileFault;
pub use reading::read_code;
pub use writing::write_code;
