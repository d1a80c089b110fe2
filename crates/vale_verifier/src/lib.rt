//! Whether facts certify a code, and the first rule that they break (docs/FORMATS.md, "Certificates"); codes that are
//! certified: with the facts of such a code it is known never to go wrong.
#![tactic(auto)]

mod arguments;
mod cells;
mod first;
mod judge;
mod known;
mod labels;
mod objects;
mod rules;
mod verified;
mod verifier;
mod walk;

pub use first::{certified, first_fault};
pub use verified::Verified;
pub use verifier::{VerifyFault, verify};
