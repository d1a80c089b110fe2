//! Blocks, forms and statements of the typed tree over their typed parts, each by its row of the rules of types
//! (docs/LANGUAGE.md, "Types").
#![tactic(auto)]

mod forms;
mod parallel;
mod stmts;

pub use forms::{block, branch, consumed, else_if, pure, void_block};
pub use parallel::{parallel_each, parallel_range};
pub use stmts::{
    declare, destructure, express, foreach, form_stmt, return_nothing, return_value, while_loop,
};
