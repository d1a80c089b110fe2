//! The phase of isolates: what a program opens, and what its parallel loops give (docs/LANGUAGE.md, "Freezes and isolates").
#![tactic(auto)]

mod isolation;
mod rules;
mod walk;

pub use isolation::{IsoFault, isolates};
