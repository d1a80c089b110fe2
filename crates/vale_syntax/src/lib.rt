//! What a program's text is: its tokens and its tree, with the definitions of how a text is cut into tokens and of how
//! tokens spell a tree.
#![tactic(auto)]

mod build;
mod built_in;
mod decls;
mod fault;
mod position;
mod token;
mod tree;

pub use built_in::BuiltIn;
pub use decls::{Declared, Decls, Implemented};
pub use fault::Fault;
pub use position::Position;
pub use token::{Sign, Token, TokenKind, TokenList, Tokens, Word};
pub use tree::{
    BinaryOp, Block, ElseIf, Expr, FieldDecl, Form, Function, Head, Item, Link, NameAt, Param,
    Step, Stmt, Tree, TypeExpr, UnaryOp,
};
