//! The phase of types: what type each part of a program has, and the rules that types keep (docs/LANGUAGE.md, "Types").
#![tactic(auto)]

mod check;
mod typing;

pub use typing::{TypeFault, type_all};
