//! Laws of reading, proved apart from the code that reads: what is read is in the grammar, what is in the grammar is read, and
//! what more levels change.
#![tactic(auto)]
