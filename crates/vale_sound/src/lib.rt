//! What the phases that refuse promise to those that compile: the types of a program that is accepted fit, and so
//! its code does what it means.
#![tactic(auto)]

mod laws;

pub use laws::{
    accepted_programs_run, well_formed_programs_are_well_typed, well_formed_programs_run,
};
