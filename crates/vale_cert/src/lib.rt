//! The certificate of a code: facts on what the registers of its functions hold at labels, with which a code is known
//! never to go wrong.
//!
//! For now these instructions are certified: those on numbers, truths and texts, on owners, structs, arrays and references,
//! `jump`, `unless`, `tick`, the calls of plain functions and of methods that aren't pure, `ret` and `retvoid`. Every other
//! instruction breaks rule 2.
#![tactic(auto)]

mod facts;
mod fault;
mod laws;
mod rules;

pub use facts::{Facts, FuncFacts, Label, RegFact};
pub use fault::Fault;
pub use laws::certified_code_never_goes_wrong;
pub use rules::Kept;
