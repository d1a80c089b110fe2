//! What is looked for in a part before it is lowered: whether it sets or moves a local, and whether a run may come behind it.
#![tactic(auto)]

mod changes;
mod comes;

pub use changes::step_changes;
pub use comes::expr_comes;
