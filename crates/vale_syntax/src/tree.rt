//! The tree of a program, with a node type for each production of the grammar (docs/LANGUAGE.md, "Grammar").
//!
//! Each node has its spot: an operator, a step, a call, an item, a head, a parameter, a field, a declaration and a name
//! as docs/LANGUAGE.md, "Spots" says, and every other node that of its first token. A name that is no node of its own,
//! as a loop's, has its spot beside it.

use sqlite_items::{Boxed, Items};
use vale_base::{Name, Spot, Text};

/// A whole program. Each name in it is an index of `names`, where no text stands twice.
#[derive(Drop)]
pub struct Tree {
    pub names: Items<Text>,
    pub items: Items<Item>,
}

/// A name, and where it stands.
#[derive(Clone, Copy, Debug, PartialEq, Eq)]
pub struct NameAt {
    pub name: Name,
    pub at: Spot,
}

/// A struct, an interface, an implementation or a function.
#[derive(Drop)]
pub enum Item {
    /// A struct and its fields.
    Struct(NameAt, Items<FieldDecl>),
    /// An interface and the heads of its methods.
    Interface(NameAt, Items<Head>),
    /// The spot of `impl`, the interface, the struct and the methods.
    Impl(Spot, NameAt, NameAt, Items<Function>),
    Function(Function),
}

/// A field of a struct. It may be set where `!` stands after its name.
#[derive(Drop)]
pub struct FieldDecl {
    pub name: NameAt,
    pub may_be_set: bool,
    pub ty: TypeExpr,
}

/// A function or a method, whose spots are those of its head.
#[derive(Drop)]
pub struct Function {
    pub head: Head,
    pub body: Block,
}

/// What stands before a function's body. Without a result it gives nothing.
#[derive(Drop)]
pub struct Head {
    pub is_pure: bool,
    pub name: NameAt,
    pub params: Items<Param>,
    pub result: Option<TypeExpr>,
}

/// A parameter.
#[derive(Drop)]
pub struct Param {
    pub name: NameAt,
    pub ty: TypeExpr,
}

/// A type as it is written.
#[derive(Drop)]
pub enum TypeExpr {
    Int(Spot),
    Bool(Spot),
    Str(Spot),
    /// A struct or an interface.
    Named(NameAt),
    /// `[]T`.
    Array(Spot, Boxed<TypeExpr>),
    /// `&X`.
    Ref(Spot, Boxed<TypeExpr>),
    /// `&imm X`.
    ImmRef(Spot, Boxed<TypeExpr>),
    /// `iso X`.
    Iso(Spot, Boxed<TypeExpr>),
}

/// Statements between braces, and the expression that is the block's value, where there is one; with the spots of the
/// braces.
#[cycle(ast)]
#[derive(Drop)]
pub struct Block {
    pub at: Spot,
    pub end: Spot,
    pub stmts: Items<Stmt>,
    pub last: Option<Boxed<Expr>>,
}

/// A statement.
#[cycle(ast)]
#[derive(Drop)]
pub enum Stmt {
    /// `x = e;`.
    Declare(NameAt, Expr),
    /// `[x, y] = e;`.
    Destructure(Spot, Items<NameAt>, Expr),
    /// `return;` or `return e;`.
    Return(Spot, Option<Boxed<Expr>>),
    /// `while e { }`.
    While(Spot, Expr, Block),
    /// `foreach i in a..b { }`.
    Foreach(Spot, NameAt, Expr, Expr, Block),
    /// A form with no `;` after it, where the block goes on.
    Form(Form),
    /// `e;`.
    Express(Expr),
}

/// What may stand as a statement without `;`.
#[cycle(ast)]
#[derive(Drop)]
pub enum Form {
    /// `if e { } else if e { } else { }`: the condition, the block, each `else if`, and the block after `else`.
    If(Spot, Expr, Block, Items<ElseIf>, Option<Block>),
    /// `pure { }`.
    Pure(Spot, Block),
    /// `parallel foreach i in a..b { }`.
    ParallelRange(Spot, NameAt, Expr, Expr, Block),
    /// `parallel foreach x in xs { }`.
    ParallelEach(Spot, NameAt, Expr, Block),
}

/// An `else if`, with the spot of its `if`.
#[cycle(ast)]
#[derive(Drop)]
pub struct ElseIf {
    pub at: Spot,
    pub condition: Expr,
    pub block: Block,
}

/// An expression.
#[cycle(ast)]
#[derive(Drop)]
pub enum Expr {
    /// `set p = e`.
    Set(Spot, Boxed<Expr>, Boxed<Expr>),
    /// Operators of one rank, from left to right. There is at least one.
    Chain(Boxed<Expr>, Items<Link>),
    Unary(Spot, UnaryOp, Boxed<Expr>),
    /// Steps, from left to right. There is at least one.
    Steps(Boxed<Expr>, Items<Step>),
    /// A number from 0 to 2^63 - 1.
    Number(Spot, i64),
    Quote(Spot, Text),
    Truth(Spot, bool),
    Name(NameAt),
    /// A call of a function, a struct or a built-in.
    Call(NameAt, Items<Expr>),
    /// `(e)`.
    Paren(Spot, Boxed<Expr>),
    /// `[]T(args)`: the type T of the elements, and the elements.
    Array(Spot, TypeExpr, Items<Expr>),
    /// `iso { }`.
    Iso(Spot, Block),
    Form(Boxed<Form>),
}

/// An operator and the operand after it, with the operator's spot.
#[cycle(ast)]
#[derive(Drop)]
pub struct Link {
    pub at: Spot,
    pub op: BinaryOp,
    pub operand: Expr,
}

/// A step, with the spot of its `.` or `[`.
#[cycle(ast)]
#[derive(Drop)]
pub enum Step {
    /// `.f`.
    Field(Spot, Name),
    /// `.m(args)`.
    Method(Spot, Name, Items<Expr>),
    /// `[e]`.
    Index(Spot, Expr),
}

/// An operator before its operand.
#[derive(Clone, Copy, Debug, PartialEq, Eq)]
pub enum UnaryOp {
    Minus,
    Not,
    Borrow,
    Merge,
}

/// An operator between two operands.
#[derive(Clone, Copy, Debug, PartialEq, Eq)]
pub enum BinaryOp {
    Or,
    And,
    Equal,
    NotEqual,
    Less,
    LessEqual,
    Greater,
    GreaterEqual,
    Add,
    Sub,
    Mul,
    Div,
    Rem,
}
