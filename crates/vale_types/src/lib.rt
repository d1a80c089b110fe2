//! What a program declares: its structs, interfaces, implementations and functions, and the rules that its names and types
//! keep.
#![tactic(auto)]

mod before;
mod body;
mod collect;
mod heads;
mod items;
mod known;
mod program;
mod special;
mod texts;
mod types;

pub use program::{DeclFault, declare, has_no_interface};
pub use special::is_drop;
pub use vale_syntax::{Declared, Decls, Implemented};
