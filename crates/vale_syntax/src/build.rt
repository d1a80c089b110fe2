//! The nodes of the tree, each with its view. What takes an allocator wants memory for its parts.

ghost use Rattle.std.specs.Prelude.{◌≡◌, map, option_map, IfOk};
ghost use Rattle.vale_syntax.specs.Tree as t;
ghost use Rattle.vale_syntax.specs.View.{exprs_of, links_of, steps_of, elses_of, stmts_of, view_type, view_expr, view_form, view_step, view_stmt, view_block, view_else_if, view_link};

use crate::tree::{
    BinaryOp, Block, ElseIf, Expr, Form, Link, NameAt, Step, Stmt, TypeExpr, UnaryOp,
};
use sqlite_items::{Boxed, Items};
use std::alloc::Global;
use vale_base::{Memory, Name, Spot, Text};

impl TypeExpr {
    #[tactic(auto, using(crate::proofs::ViewLaws::of_int))]
    pub fn int(at: Spot) -> Self
        ensures { view_type result ≡ t.int_type at }
    {
        TypeExpr::Int(at)
    }

    #[tactic(auto, using(crate::proofs::ViewLaws::of_bool))]
    pub fn bool(at: Spot) -> Self
        ensures { view_type result ≡ t.bool_type at }
    {
        TypeExpr::Bool(at)
    }

    #[tactic(auto, using(crate::proofs::ViewLaws::of_str))]
    pub fn str(at: Spot) -> Self
        ensures { view_type result ≡ t.str_type at }
    {
        TypeExpr::Str(at)
    }

    #[tactic(auto, using(crate::proofs::ViewLaws::of_named))]
    pub fn named(name: NameAt) -> Self
        ensures { view_type result ≡ t.named_type name }
    {
        TypeExpr::Named(name)
    }

    /// `[]T`.
    #[tactic(auto, using(crate::proofs::ViewLaws::of_array_type))]
    pub fn array(alloc: Global, at: Spot, element: TypeExpr) -> Result<Self, Memory>
        ensures { IfOk result (λ x. view_type x ≡ t.array_type at (view_type element)) }
    {
        Ok(TypeExpr::Array(at, Boxed::new(alloc, element)?))
    }

    /// `&X`.
    #[tactic(auto, using(crate::proofs::ViewLaws::of_ref))]
    pub fn reference(alloc: Global, at: Spot, to: TypeExpr) -> Result<Self, Memory>
        ensures { IfOk result (λ x. view_type x ≡ t.ref_type at (view_type to)) }
    {
        Ok(TypeExpr::Ref(at, Boxed::new(alloc, to)?))
    }

    /// `&imm X`.
    #[tactic(auto, using(crate::proofs::ViewLaws::of_imm_ref))]
    pub fn imm_reference(alloc: Global, at: Spot, to: TypeExpr) -> Result<Self, Memory>
        ensures { IfOk result (λ x. view_type x ≡ t.imm_ref_type at (view_type to)) }
    {
        Ok(TypeExpr::ImmRef(at, Boxed::new(alloc, to)?))
    }

    /// `iso X`.
    #[tactic(auto, using(crate::proofs::ViewLaws::of_iso_type))]
    pub fn isolate(alloc: Global, at: Spot, root: TypeExpr) -> Result<Self, Memory>
        ensures { IfOk result (λ x. view_type x ≡ t.iso_type at (view_type root)) }
    {
        Ok(TypeExpr::Iso(at, Boxed::new(alloc, root)?))
    }
}

impl Expr {
    /// `set p = e`.
    #[tactic(auto, using(crate::proofs::ViewLaws::of_set))]
    pub fn set(alloc: Global, at: Spot, place: Expr, value: Expr) -> Result<Self, Memory>
        ensures { IfOk result (λ e. view_expr e ≡ t.set at (view_expr place) (view_expr value)) }
    {
        let place = Boxed::new(alloc, place)?;
        let value = Boxed::new(alloc, value)?;
        Ok(Expr::Set(at, place, value))
    }

    #[tactic(auto, using(crate::proofs::ViewLaws::of_chain))]
    pub fn chain(alloc: Global, first: Expr, links: Items<Link>) -> Result<Self, Memory>
        ensures { IfOk result (λ e. view_expr e ≡ t.chain (view_expr first) (links_of (map view_link links))) }
    {
        Ok(Expr::Chain(Boxed::new(alloc, first)?, links))
    }

    #[tactic(auto, using(crate::proofs::ViewLaws::of_unary))]
    pub fn unary(alloc: Global, at: Spot, op: UnaryOp, operand: Expr) -> Result<Self, Memory>
        ensures { IfOk result (λ e. view_expr e ≡ t.unary at op (view_expr operand)) }
    {
        Ok(Expr::Unary(at, op, Boxed::new(alloc, operand)?))
    }

    #[tactic(auto, using(crate::proofs::ViewLaws::of_steps))]
    pub fn steps(alloc: Global, base: Expr, steps: Items<Step>) -> Result<Self, Memory>
        ensures { IfOk result (λ e. view_expr e ≡ t.steps (view_expr base) (steps_of (map view_step steps))) }
    {
        Ok(Expr::Steps(Boxed::new(alloc, base)?, steps))
    }

    #[tactic(auto, using(crate::proofs::ViewLaws::of_number))]
    pub fn number(at: Spot, value: i64) -> Self
        ensures { view_expr result ≡ t.number at value }
    {
        Expr::Number(at, value)
    }

    #[tactic(auto, using(crate::proofs::ViewLaws::of_quote))]
    pub fn quote(at: Spot, text: Text) -> Self
        ensures { view_expr result ≡ t.quote at text }
    {
        Expr::Quote(at, text)
    }

    #[tactic(auto, using(crate::proofs::ViewLaws::of_truth))]
    pub fn truth(at: Spot, value: bool) -> Self
        ensures { view_expr result ≡ t.truth at value }
    {
        Expr::Truth(at, value)
    }

    #[tactic(auto, using(crate::proofs::ViewLaws::of_name))]
    pub fn name(name: NameAt) -> Self
        ensures { view_expr result ≡ t.name name }
    {
        Expr::Name(name)
    }

    #[tactic(auto, using(crate::proofs::ViewLaws::of_call))]
    pub fn call(name: NameAt, args: Items<Expr>) -> Self
        ensures { view_expr result ≡ t.call name (exprs_of (map view_expr args)) }
    {
        Expr::Call(name, args)
    }

    /// `(e)`.
    #[tactic(auto, using(crate::proofs::ViewLaws::of_paren))]
    pub fn paren(alloc: Global, at: Spot, inner: Expr) -> Result<Self, Memory>
        ensures { IfOk result (λ e. view_expr e ≡ t.paren at (view_expr inner)) }
    {
        Ok(Expr::Paren(at, Boxed::new(alloc, inner)?))
    }

    /// `[]T(args)`.
    #[tactic(auto, using(crate::proofs::ViewLaws::of_array))]
    pub fn array(at: Spot, element: TypeExpr, args: Items<Expr>) -> Self
        ensures { view_expr result ≡ t.array at (view_type element) (exprs_of (map view_expr args)) }
    {
        Expr::Array(at, element, args)
    }

    /// `iso { }`.
    #[tactic(auto, using(crate::proofs::ViewLaws::of_iso))]
    pub fn iso(at: Spot, block: Block) -> Self
        ensures { view_expr result ≡ t.iso at (view_block block) }
    {
        Expr::Iso(at, block)
    }

    #[tactic(auto, using(crate::proofs::ViewLaws::of_form))]
    pub fn form(alloc: Global, form: Form) -> Result<Self, Memory>
        ensures { IfOk result (λ e. view_expr e ≡ t.form (view_form form)) }
    {
        Ok(Expr::Form(Boxed::new(alloc, form)?))
    }
}

impl Link {
    #[tactic(auto, using(crate::proofs::ViewLaws::of_link))]
    pub fn new(at: Spot, op: BinaryOp, operand: Expr) -> Self
        ensures { view_link result ≡ t.link at op (view_expr operand) }
    {
        Link { at, op, operand }
    }
}

impl Step {
    /// `.f`.
    #[tactic(auto, using(crate::proofs::ViewLaws::of_field))]
    pub fn field(at: Spot, name: Name) -> Self
        ensures { view_step result ≡ t.field at name }
    {
        Step::Field(at, name)
    }

    /// `.m(args)`.
    #[tactic(auto, using(crate::proofs::ViewLaws::of_method))]
    pub fn method(at: Spot, name: Name, args: Items<Expr>) -> Self
        ensures { view_step result ≡ t.method at name (exprs_of (map view_expr args)) }
    {
        Step::Method(at, name, args)
    }

    /// `[e]`.
    #[tactic(auto, using(crate::proofs::ViewLaws::of_index))]
    pub fn index(at: Spot, index: Expr) -> Self
        ensures { view_step result ≡ t.index at (view_expr index) }
    {
        Step::Index(at, index)
    }
}

impl Form {
    /// `if c { } else if d { } else { }`.
    #[tactic(auto, using(crate::proofs::ViewLaws::of_if))]
    pub fn branch(
        at: Spot,
        condition: Expr,
        block: Block,
        else_ifs: Items<ElseIf>,
        otherwise: Option<Block>,
    ) -> Self
        ensures { view_form result ≡ t.branch at (view_expr condition) (view_block block)
            (elses_of (map view_else_if else_ifs) (option_map view_block otherwise)) }
    {
        Form::If(at, condition, block, else_ifs, otherwise)
    }

    /// `pure { }`.
    #[tactic(auto, using(crate::proofs::ViewLaws::of_pure))]
    pub fn pure(at: Spot, block: Block) -> Self
        ensures { view_form result ≡ t.pure at (view_block block) }
    {
        Form::Pure(at, block)
    }

    /// `parallel foreach i in a..b { }`.
    #[tactic(auto, using(crate::proofs::ViewLaws::of_parallel_range))]
    pub fn parallel_range(at: Spot, name: NameAt, from: Expr, to: Expr, block: Block) -> Self
        ensures { view_form result ≡ t.parallel_range at name (view_expr from) (view_expr to) (view_block block) }
    {
        Form::ParallelRange(at, name, from, to, block)
    }

    /// `parallel foreach x in xs { }`.
    #[tactic(auto, using(crate::proofs::ViewLaws::of_parallel_each))]
    pub fn parallel_each(at: Spot, name: NameAt, over: Expr, block: Block) -> Self
        ensures { view_form result ≡ t.parallel_each at name (view_expr over) (view_block block) }
    {
        Form::ParallelEach(at, name, over, block)
    }
}

impl ElseIf {
    #[tactic(auto, using(crate::proofs::ViewLaws::of_else_if))]
    pub fn new(at: Spot, condition: Expr, block: Block) -> Self
        ensures { view_else_if result ≡ t.else_if at (view_expr condition) (view_block block) }
    {
        ElseIf {
            at,
            condition,
            block,
        }
    }
}

impl Stmt {
    /// `x = e;`.
    #[tactic(auto, using(crate::proofs::ViewLaws::of_declare))]
    pub fn declare(name: NameAt, value: Expr) -> Self
        ensures { view_stmt result ≡ t.declare name (view_expr value) }
    {
        Stmt::Declare(name, value)
    }

    /// `[x, y] = e;`.
    #[tactic(auto, using(crate::proofs::ViewLaws::of_destructure))]
    pub fn destructure(at: Spot, names: Items<NameAt>, value: Expr) -> Self
        ensures { view_stmt result ≡ t.destructure at names (view_expr value) }
    {
        Stmt::Destructure(at, names, value)
    }

    /// `return;`.
    #[tactic(auto, using(crate::proofs::ViewLaws::of_return_nothing))]
    pub fn return_nothing(at: Spot) -> Self
        ensures { view_stmt result ≡ t.return_nothing at }
    {
        Stmt::Return(at, None)
    }

    /// `return e;`.
    #[tactic(auto, using(crate::proofs::ViewLaws::of_return_value))]
    pub fn return_value(alloc: Global, at: Spot, value: Expr) -> Result<Self, Memory>
        ensures { IfOk result (λ m. view_stmt m ≡ t.return_value at (view_expr value)) }
    {
        Ok(Stmt::Return(at, Some(Boxed::new(alloc, value)?)))
    }

    /// `while e { }`.
    #[tactic(auto, using(crate::proofs::ViewLaws::of_while))]
    pub fn while_loop(at: Spot, condition: Expr, block: Block) -> Self
        ensures { view_stmt result ≡ t.while at (view_expr condition) (view_block block) }
    {
        Stmt::While(at, condition, block)
    }

    /// `foreach i in a..b { }`.
    #[tactic(auto, using(crate::proofs::ViewLaws::of_foreach))]
    pub fn foreach(at: Spot, name: NameAt, from: Expr, to: Expr, block: Block) -> Self
        ensures { view_stmt result ≡ t.foreach at name (view_expr from) (view_expr to) (view_block block) }
    {
        Stmt::Foreach(at, name, from, to, block)
    }

    /// A form with no `;` after it.
    #[tactic(auto, using(crate::proofs::ViewLaws::of_form_stmt))]
    pub fn form(form: Form) -> Self
        ensures { view_stmt result ≡ t.form_stmt (view_form form) }
    {
        Stmt::Form(form)
    }

    /// `e;`.
    #[tactic(auto, using(crate::proofs::ViewLaws::of_express))]
    pub fn express(value: Expr) -> Self
        ensures { view_stmt result ≡ t.express (view_expr value) }
    {
        Stmt::Express(value)
    }
}

impl Block {
    #[tactic(auto, using(crate::proofs::ViewLaws::of_block))]
    pub fn new(at: Spot, end: Spot, stmts: Items<Stmt>, last: Option<Boxed<Expr>>) -> Self
        ensures { view_block result ≡ t.block at end (stmts_of (map view_stmt stmts) (option_map view_expr last)) }
    {
        Block {
            at,
            end,
            stmts,
            last,
        }
    }
}
