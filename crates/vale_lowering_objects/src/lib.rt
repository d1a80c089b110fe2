//! The code of programs with owners, as definitions: the locals in scope and which owners are gone (`Scopes`), the code of each part and what is gone after it (`Lowered`), the code of the whole (`Code`), and what a code owes a program (`Program`, `Destruction`); the law that this code does what the program means. It is to take the place of vale_lowering, which has no owners.
#![tactic(auto)]

mod laws;

pub use laws::lowered_code_with_owners_does_what_is_meant;
