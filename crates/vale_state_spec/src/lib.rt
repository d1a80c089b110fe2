//! What a run has beside its control, as definitions: heaps of names that never return, every single step on the state of a
//! run, and what a whole run gives.
#![tactic(auto)]
