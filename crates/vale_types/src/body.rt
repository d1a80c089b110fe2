// The bodies of functions: the types that stand in them, and the names that they declare.
ghost use Rattle.std.specs.Prelude.{◌≡◌, map, option_map};
ghost use Rattle.vale_syntax.specs.View.{view_item, view_expr, view_form, view_step, view_stmt, view_block, view_else_if, view_link, exprs_of, links_of, steps_of, elses_of, else_end, stmts_of, last_end};
ghost use Rattle.vale_rules_spec.specs.DeclFaults.{in_expr, in_exprs, in_link, in_links, in_step, in_steps, in_form, in_else_if, in_elses, in_block, in_stmts, in_stmt};
ghost use Rattle.vale_types.specs.Known.{Knows};
ghost use Rattle.vale_types.specs.Walk.{walked};

use crate::known::Known;
use crate::types::check_type;
use sqlite_items::Boxed;
use vale_syntax::{Block, ElseIf, Expr, Fault, Form, Item, Link, Position, Step, Stmt};

// Each call has how many names may still be declared, and gives how many may be afterwards; or it gives the first fault.

#[cycle(walk)]
#[tactic(auto, using(crate::proofs::Rules::walk))]
fn walk_expr(items: &[Item], known: &Known, expr: &Expr, left: usize) -> Result<usize, Fault>
    requires { Knows (map view_item items.now) known.now }
    ensures { result ≡ walked (in_expr (map view_item items.now) (view_expr expr.now)) left }
{
    match expr {
        Expr::Set(_, place, value) => {
            let left = walk_expr(items, known, place.get(), left)?;
            walk_expr(items, known, value.get(), left)
        }
        Expr::Chain(first, links) => {
            let left = walk_expr(items, known, first.get(), left)?;
            walk_links(items, known, links.as_slice(), left)
        }
        Expr::Unary(_, _, operand) => walk_expr(items, known, operand.get(), left),
        Expr::Steps(base, steps) => {
            let left = walk_expr(items, known, base.get(), left)?;
            walk_steps(items, known, steps.as_slice(), left)
        }
        Expr::Number(..) | Expr::Quote(..) | Expr::Truth(..) | Expr::Name(_) => Ok(left),
        Expr::Call(_, args) => walk_exprs(items, known, args.as_slice(), left),
        Expr::Paren(_, inner) => walk_expr(items, known, inner.get(), left),
        Expr::Array(_, element, args) => {
            check_type(items, known, Position::Element, element)?;
            walk_exprs(items, known, args.as_slice(), left)
        }
        Expr::Iso(_, block) => walk_block(items, known, block, left),
        Expr::Form(form) => walk_form(items, known, form.get(), left),
    }
}

#[cycle(walk)]
#[tactic(auto, using(crate::proofs::Rules::walk))]
fn walk_exprs(
    items: &[Item],
    known: &Known,
    exprs: &[Expr],
    mut left: usize,
) -> Result<usize, Fault>
    requires { Knows (map view_item items.now) known.now }
    ensures { result ≡ walked (in_exprs (map view_item items.now) (exprs_of (map view_expr exprs.now))) left }
{
    for expr in exprs {
        left = walk_expr(items, known, expr, left)?;
    }
    Ok(left)
}

#[cycle(walk)]
#[tactic(auto, using(crate::proofs::Rules::walk_steps))]
fn walk_links(
    items: &[Item],
    known: &Known,
    links: &[Link],
    mut left: usize,
) -> Result<usize, Fault>
    requires { Knows (map view_item items.now) known.now }
    ensures { result ≡ walked (in_links (map view_item items.now) (links_of (map view_link links.now))) left }
{
    for link in links {
        left = walk_expr(items, known, &link.operand, left)?;
    }
    Ok(left)
}

#[cycle(walk)]
#[tactic(auto, using(crate::proofs::Rules::walk_steps))]
fn walk_step(items: &[Item], known: &Known, step: &Step, left: usize) -> Result<usize, Fault>
    requires { Knows (map view_item items.now) known.now }
    ensures { result ≡ walked (in_step (map view_item items.now) (view_step step.now)) left }
{
    match step {
        Step::Field(..) => Ok(left),
        Step::Method(_, _, args) => walk_exprs(items, known, args.as_slice(), left),
        Step::Index(_, index) => walk_expr(items, known, index, left),
    }
}

#[cycle(walk)]
#[tactic(auto, using(crate::proofs::Rules::walk_steps))]
fn walk_steps(
    items: &[Item],
    known: &Known,
    steps: &[Step],
    mut left: usize,
) -> Result<usize, Fault>
    requires { Knows (map view_item items.now) known.now }
    ensures { result ≡ walked (in_steps (map view_item items.now) (steps_of (map view_step steps.now))) left }
{
    for step in steps {
        left = walk_step(items, known, step, left)?;
    }
    Ok(left)
}

#[cycle(walk)]
#[tactic(auto, using(crate::proofs::Rules::walk_if))]
fn walk_form(items: &[Item], known: &Known, form: &Form, left: usize) -> Result<usize, Fault>
    requires { Knows (map view_item items.now) known.now }
    ensures { result ≡ walked (in_form (map view_item items.now) (view_form form.now)) left }
{
    match form {
        Form::If(_, condition, block, else_ifs, otherwise) => {
            let left = walk_expr(items, known, condition, left)?;
            let left = walk_block(items, known, block, left)?;
            let left = walk_else_ifs(items, known, else_ifs.as_slice(), left)?;
            walk_else(items, known, otherwise, left)
        }
        Form::Pure(_, block) => walk_block(items, known, block, left),
        Form::ParallelRange(_, _, from, to, block) => {
            let left = walk_expr(items, known, from, left.saturating_sub(1))?;
            let left = walk_expr(items, known, to, left)?;
            walk_block(items, known, block, left)
        }
        Form::ParallelEach(_, _, array, block) => {
            let left = walk_expr(items, known, array, left.saturating_sub(1))?;
            walk_block(items, known, block, left)
        }
    }
}

#[cycle(walk)]
#[tactic(auto, using(crate::proofs::Rules::walk_forms))]
fn walk_else_ifs(
    items: &[Item],
    known: &Known,
    else_ifs: &[ElseIf],
    mut left: usize,
) -> Result<usize, Fault>
    requires { Knows (map view_item items.now) known.now }
    ensures { result ≡ walked (in_elses (map view_item items.now) (elses_of (map view_else_if else_ifs.now) None)) left }
{
    for else_if in else_ifs {
        left = walk_else_if(items, known, else_if, left)?;
    }
    Ok(left)
}

#[cycle(walk)]
#[tactic(auto, using(crate::proofs::Rules::walk_forms))]
fn walk_else(
    items: &[Item],
    known: &Known,
    otherwise: &Option<Block>,
    left: usize,
) -> Result<usize, Fault>
    requires { Knows (map view_item items.now) known.now }
    ensures { result ≡ walked (in_elses (map view_item items.now) (else_end (option_map view_block otherwise.now))) left }
{
    match otherwise {
        Some(block) => walk_block(items, known, block, left),
        None => Ok(left),
    }
}

#[cycle(walk)]
#[tactic(auto, using(crate::proofs::Rules::walk_forms))]
fn walk_else_if(
    items: &[Item],
    known: &Known,
    else_if: &ElseIf,
    left: usize,
) -> Result<usize, Fault>
    requires { Knows (map view_item items.now) known.now }
    ensures { result ≡ walked (in_else_if (map view_item items.now) (view_else_if else_if.now)) left }
{
    let left = walk_expr(items, known, &else_if.condition, left)?;
    walk_block(items, known, &else_if.block, left)
}

#[cycle(walk)]
pub fn walk_block(items: &[Item], known: &Known, block: &Block, left: usize) -> Result<usize, Fault>
    requires { Knows (map view_item items.now) known.now }
    ensures { result ≡ walked (in_block (map view_item items.now) (view_block block.now)) left }
{
    let left = walk_stmts(items, known, block.stmts.as_slice(), left)?;
    walk_last(items, known, &block.last, left)
}

#[cycle(walk)]
#[tactic(auto, using(crate::proofs::Rules::walk_forms))]
fn walk_stmts(
    items: &[Item],
    known: &Known,
    stmts: &[Stmt],
    mut left: usize,
) -> Result<usize, Fault>
    requires { Knows (map view_item items.now) known.now }
    ensures { result ≡ walked (in_stmts (map view_item items.now) (stmts_of (map view_stmt stmts.now) None)) left }
{
    for stmt in stmts {
        left = walk_stmt(items, known, stmt, left)?;
    }
    Ok(left)
}

#[cycle(walk)]
#[tactic(auto, using(crate::proofs::Rules::walk_forms))]
fn walk_last(
    items: &[Item],
    known: &Known,
    last: &Option<Boxed<Expr>>,
    left: usize,
) -> Result<usize, Fault>
    requires { Knows (map view_item items.now) known.now }
    ensures { result ≡ walked (in_stmts (map view_item items.now) (last_end (option_map view_expr last.now))) left }
{
    match last {
        Some(value) => walk_expr(items, known, value.get(), left),
        None => Ok(left),
    }
}

#[cycle(walk)]
#[tactic(auto, using(crate::proofs::Rules::walk_stmts))]
fn walk_stmt(items: &[Item], known: &Known, stmt: &Stmt, left: usize) -> Result<usize, Fault>
    requires { Knows (map view_item items.now) known.now }
    ensures { result ≡ walked (in_stmt (map view_item items.now) (view_stmt stmt.now)) left }
{
    match stmt {
        Stmt::Declare(_, value) => walk_expr(items, known, value, left.saturating_sub(1)),
        Stmt::Destructure(_, names, value) => walk_expr(
            items,
            known,
            value,
            left.saturating_sub(names.len()),
        ),
        Stmt::Return(_, None) => Ok(left),
        Stmt::Return(_, Some(value)) => walk_expr(items, known, value.get(), left),
        Stmt::While(_, condition, block) => {
            let left = walk_expr(items, known, condition, left)?;
            walk_block(items, known, block, left)
        }
        Stmt::Foreach(_, _, from, to, block) => {
            let left = walk_expr(items, known, from, left.saturating_sub(1))?;
            let left = walk_expr(items, known, to, left)?;
            walk_block(items, known, block, left)
        }
        Stmt::Form(form) => walk_form(items, known, form, left),
        Stmt::Express(value) => walk_expr(items, known, value, left),
    }
}
