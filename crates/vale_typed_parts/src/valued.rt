use sqlite_items::{Boxed, Items};
use vale_core::{Expr, Form, Stmt, Ty};

/// A form, and the type of its value.
#[derive(Drop)]
pub struct Valued {
    pub ty: Ty,
    pub form: Form,
}

/// What stands in a block.
#[derive(Drop)]
pub struct Inside {
    pub stmts: Items<Stmt>,
    pub last: Option<Boxed<Expr>>,
}
