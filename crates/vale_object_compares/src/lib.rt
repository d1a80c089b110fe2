//! Comparisons of numbers, truths and texts, within a function whose registers may lead to objects.
#![tactic(auto)]

mod compares;

pub use compares::obey_compare;
