//! The phase of freezes: the rules of `pure`, `iso` and parallel blocks and of pure functions that a program keeps
//! (docs/LANGUAGE.md, "Freezes and isolates").
#![tactic(auto)]

mod framing;
mod walk;

pub use framing::{RegionFault, regions};
