//! The tests of pages, tables, the heap and lists of its calls, over a heap with the table that lends to it.
#![tactic(auto)]

mod call_lists;
#[cfg(test)]
mod calls_tests;
#[cfg(test)]
mod heap_tests;
#[cfg(test)]
mod lent_heap;
#[cfg(test)]
mod table_tests;
#[cfg(test)]
mod team;
mod worker;
