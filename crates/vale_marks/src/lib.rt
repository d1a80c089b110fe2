//! Which kinds of a code lead to an isolate: by any way, or by arrays alone. Both take time in proportion to the code, but for
//! a logarithm (docs/FORMATS.md, "Certificates", rule 1).
#![tactic(auto)]

mod edges;
mod marks;
mod way;
mod ways;

pub use edges::Edge;
pub use marks::{array_marks, iso_marks};
pub use way::Way;
pub use ways::is_marked;
