//! The region invariant of certified code.
#![tactic(auto)]

mod laws;

pub use laws::certified_code_keeps_regions;
