//! The facts that certify the code of a program, as definitions in `specs/`, and the laws that hold of them. The call that makes
//! them is `lower_facts` of vale_lower.
#![tactic(auto)]

mod laws;

pub use laws::{lowered_code_is_certified, well_typed_code_does_what_is_meant};
