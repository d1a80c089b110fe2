//! The typed tree of a program, with builders of its nodes: what the phases after typing read (docs/LANGUAGE.md, "Types").
#![tactic(auto)]

mod build;
mod returned;
mod seen;
mod sound;
mod tree;
mod ty;

pub use returned::{block_returns, expr_returns, stmt_returns};
pub use seen::{Seen, View};
pub use sound::Sound;
pub use tree::{Block, Callee, Core, ElseIf, Expr, Form, Function, Item, Link, Node, Step, Stmt};
pub use ty::Ty;
