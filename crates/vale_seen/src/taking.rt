// Whether an expression takes a local away: it names the local as a value, or sets it.
ghost use Rattle.std.specs.Prelude.{◌≡◌, None, map, option_map};
ghost use Rattle.vale_syntax.specs.View.{view_expr, view_form, view_step, view_stmt, view_block, view_else_if, view_link, exprs_of, links_of, steps_of, elses_of, else_end, stmts_of, last_end};
ghost use Rattle.vale_rules_spec.specs.Takes.{is_local, takes, exprs_take, links_take, step_takes, steps_take, form_takes, else_if_takes, elses_take, block_takes, stmts_take, stmt_takes};

use sqlite_items::Boxed;
use vale_base::Name;
use vale_syntax::{Block, ElseIf, Expr, Form, Link, Step, Stmt, UnaryOp};

#[tactic(auto, using(crate::proofs::TakeLaws::exprs))]
fn is_local(local: Name, expr: &Expr) -> bool
    ensures { result ≡ is_local local.0 (view_expr expr.now) }
{
    match expr {
        Expr::Name(name) => name.name.0 == local.0,
        _ => false,
    }
}

/// Whether the expression, used as a value or not, takes the local away.
#[cycle(takes)]
#[tactic(auto, using(crate::proofs::TakeLaws::exprs))]
pub fn takes(local: Name, as_value: bool, expr: &Expr) -> bool
    ensures { result ≡ takes local.0 as_value (view_expr expr.now) }
{
    match expr {
        Expr::Set(_, place, value) => {
            is_local(local, place.get())
                || takes(local, false, place.get())
                || takes(local, true, value.get())
        }
        Expr::Chain(first, links) => {
            let in_links = links_take(local, links.as_slice());
            let in_first = takes(local, true, first.get());
            in_first || in_links
        }
        Expr::Unary(_, UnaryOp::Borrow, operand) => takes(local, false, operand.get()),
        Expr::Unary(_, UnaryOp::Minus, operand) => takes(local, true, operand.get()),
        Expr::Unary(_, UnaryOp::Not, operand) => takes(local, true, operand.get()),
        Expr::Unary(_, UnaryOp::Merge, operand) => takes(local, true, operand.get()),
        Expr::Steps(base, steps) => {
            let in_steps = steps_take(local, steps.as_slice());
            let in_base = takes(local, false, base.get());
            in_base || in_steps
        }
        Expr::Number(..) | Expr::Quote(..) | Expr::Truth(..) => false,
        Expr::Name(name) => as_value && name.name.0 == local.0,
        Expr::Call(_, args) => exprs_take(local, args.as_slice()),
        Expr::Paren(_, inner) => takes(local, true, inner.get()),
        Expr::Array(_, _, args) => exprs_take(local, args.as_slice()),
        Expr::Iso(_, block) => block_takes(local, block),
        Expr::Form(form) => form_takes(local, form.get()),
    }
}

#[cycle(takes)]
fn exprs_take(local: Name, exprs: &[Expr]) -> bool
    ensures { result ≡ exprs_take local.0 (exprs_of (map view_expr exprs.now)) }
{
    for expr in exprs {
        if takes(local, true, expr) {
            return true;
        }
    }
    false
}

#[cycle(takes)]
#[tactic(auto, using(crate::proofs::TakeLaws::link_by_parts))]
fn links_take(local: Name, links: &[Link]) -> bool
    ensures { result ≡ links_take local.0 (links_of (map view_link links.now)) }
{
    for link in links {
        if takes(local, true, &link.operand) {
            return true;
        }
    }
    false
}

#[cycle(takes)]
#[tactic(auto, using(crate::proofs::TakeLaws::steps))]
fn step_takes(local: Name, step: &Step) -> bool
    ensures { result ≡ step_takes local.0 (view_step step.now) }
{
    match step {
        Step::Field(..) => false,
        Step::Method(_, _, args) => exprs_take(local, args.as_slice()),
        Step::Index(_, index) => takes(local, true, index),
    }
}

#[cycle(takes)]
fn steps_take(local: Name, steps: &[Step]) -> bool
    ensures { result ≡ steps_take local.0 (steps_of (map view_step steps.now)) }
{
    for step in steps {
        if step_takes(local, step) {
            return true;
        }
    }
    false
}

#[cycle(takes)]
#[tactic(auto, using(crate::proofs::TakeLaws::forms))]
fn form_takes(local: Name, form: &Form) -> bool
    ensures { result ≡ form_takes local.0 (view_form form.now) }
{
    match form {
        Form::If(_, condition, block, else_ifs, otherwise) => {
            let in_else_ifs = else_ifs_take(local, else_ifs.as_slice());
            let in_condition = takes(local, true, condition);
            let in_block = block_takes(local, block);
            let in_else = else_takes(local, otherwise);
            in_condition || (in_block || (in_else_ifs || in_else))
        }
        Form::Pure(_, block) => block_takes(local, block),
        Form::ParallelRange(_, _, from, to, block) => {
            takes(local, true, from) || takes(local, true, to) || block_takes(local, block)
        }
        Form::ParallelEach(_, _, over, block) => {
            takes(local, true, over) || block_takes(local, block)
        }
    }
}

#[cycle(takes)]
#[tactic(auto, using(crate::proofs::TakeLaws::else_if_by_parts))]
fn else_ifs_take(local: Name, else_ifs: &[ElseIf]) -> bool
    ensures { result ≡ elses_take local.0 (elses_of (map view_else_if else_ifs.now) None) }
{
    for else_if in else_ifs {
        if takes(local, true, &else_if.condition) {
            return true;
        }
        if block_takes(local, &else_if.block) {
            return true;
        }
    }
    false
}

#[cycle(takes)]
fn else_takes(local: Name, otherwise: &Option<Block>) -> bool
    ensures { result ≡ elses_take local.0 (else_end (option_map view_block otherwise.now)) }
{
    match otherwise {
        Some(block) => block_takes(local, block),
        None => false,
    }
}

#[cycle(takes)]
#[tactic(auto, using(crate::proofs::TakeLaws::block_by_parts))]
fn block_takes(local: Name, block: &Block) -> bool
    ensures { result ≡ block_takes local.0 (view_block block.now) }
{
    if stmts_take(local, block.stmts.as_slice()) {
        true
    } else {
        last_takes(local, &block.last)
    }
}

#[cycle(takes)]
fn stmts_take(local: Name, stmts: &[Stmt]) -> bool
    ensures { result ≡ stmts_take local.0 (stmts_of (map view_stmt stmts.now) None) }
{
    for stmt in stmts {
        if stmt_takes(local, stmt) {
            return true;
        }
    }
    false
}

#[cycle(takes)]
fn last_takes(local: Name, last: &Option<Boxed<Expr>>) -> bool
    ensures { result ≡ stmts_take local.0 (last_end (option_map view_expr last.now)) }
{
    match last {
        Some(value) => takes(local, true, value.get()),
        None => false,
    }
}

#[cycle(takes)]
#[tactic(auto, using(crate::proofs::TakeLaws::stmts))]
fn stmt_takes(local: Name, stmt: &Stmt) -> bool
    ensures { result ≡ stmt_takes local.0 (view_stmt stmt.now) }
{
    match stmt {
        Stmt::Declare(_, value) => takes(local, true, value),
        Stmt::Destructure(_, _, value) => takes(local, true, value),
        Stmt::Return(_, None) => false,
        Stmt::Return(_, Some(value)) => takes(local, true, value.get()),
        Stmt::While(_, condition, block) => {
            takes(local, true, condition) || block_takes(local, block)
        }
        Stmt::Foreach(_, _, from, to, block) => {
            takes(local, true, from) || takes(local, true, to) || block_takes(local, block)
        }
        Stmt::Form(form) => form_takes(local, form),
        Stmt::Express(value) => takes(local, true, value),
    }
}
