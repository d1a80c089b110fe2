//! The code of programs with functions, loops, numbers and texts. For now it stands in `specs/` as definitions; the code has
//! the law that holds of them.
#![tactic(auto)]

mod laws;

pub use laws::lowered_code_does_what_is_meant;
