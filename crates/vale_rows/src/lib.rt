//! The tests of whole calls of `valec`: tables of texts, words and runs with what is expected of them, over the kinds in
//! memory; and those of the verifier, which an edit of certificates proves again.
#![tactic(auto)]

#[cfg(test)]
mod calls;
#[cfg(test)]
mod code_tests;
#[cfg(test)]
mod front_tests;
#[cfg(test)]
mod program_tests;
#[cfg(test)]
mod run_tests;
#[cfg(test)]
mod verifier_tests;
