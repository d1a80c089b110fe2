//! The tests of single steps on a program's way: tables of texts and words with what one call gives of each.
#![tactic(auto)]

#[cfg(test)]
mod declare_tests;
#[cfg(test)]
mod format_tests;
#[cfg(test)]
mod lexer_tests;
#[cfg(test)]
mod parser_tests;
#[cfg(test)]
mod ports_tests;
#[cfg(test)]
mod reading;
#[cfg(test)]
mod refusal_tests;
pub mod texts;
#[cfg(test)]
mod trap_tests;
#[cfg(test)]
mod words_tests;
