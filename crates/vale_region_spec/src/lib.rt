//! Which programs keep the rules of freezes and of isolates, as definitions over the typed tree, and what both walks over it are
//! made of (docs/LANGUAGE.md, "Freezes and isolates").
#![tactic(auto)]

mod around;
mod found;
mod laws;

pub use around::Around;
pub use found::{earlier, found_at, verdict};
pub use laws::loops_give;
