// Whether a part sets or moves a local.
ghost use Rattle.std.specs.Prelude.{◌≡◌, ◌&&◌, ◌||◌, None, map, option_map};
ghost use Rattle.vale_core.specs.View.{view_expr, view_node, view_form, view_step, view_stmt, view_block, view_else_if, view_link, exprs_of, links_of, steps_of, elses_of, else_end, stmts_of, last_end};
ghost use Rattle.vale_lowering_objects.specs.Changes.{is_local, expr_changes, node_changes, exprs_change, links_change, step_changes, steps_change, form_changes, elses_change, block_changes, stmts_change, stmt_changes};
ghost use Rattle.vale_lower_looks.specs.Parts.{link_changes, else_if_changes};

use sqlite_items::{Boxed, Items};
use vale_base::Name;
use vale_core::{Block, ElseIf, Expr, Form, Link, Node, Step, Stmt};

// Exactly the local.
#[tactic(auto, using(crate::proofs::ChangeLaws::exprs, crate::proofs::ChangeLaws::nodes))]
fn is_local(expr: &Expr, local: Name) -> bool
    ensures { result ≡ is_local local.0 (view_expr expr.now) }
{
    match &expr.node {
        Node::Name { name, .. } => name.name.0 == local.0,
        Node::Set(..)
        | Node::Chain(..)
        | Node::Unary(..)
        | Node::Steps(..)
        | Node::Number(..)
        | Node::Quote(..)
        | Node::Truth(..)
        | Node::Call(..)
        | Node::Paren(..)
        | Node::Array(..)
        | Node::Iso(..)
        | Node::Form(..) => false,
    }
}

#[cycle(changes)]
#[tactic(auto, using(crate::proofs::ChangeLaws::exprs))]
fn expr_changes(expr: &Expr, local: Name) -> bool
    ensures { result ≡ expr_changes local.0 (view_expr expr.now) }
{
    node_changes(&expr.node, local)
}

#[cycle(changes)]
#[tactic(auto, using(crate::proofs::ChangeLaws::nodes))]
fn node_changes(node: &Node, local: Name) -> bool
    ensures { result ≡ node_changes local.0 (view_node node.now) }
{
    match node {
        Node::Set(_, place, value) => {
            let place = place.get();
            is_local(place, local) || expr_changes(place, local) || expr_changes(value.get(), local)
        }
        Node::Chain(first, links) => expr_changes(first.get(), local) || links_change(links, local),
        Node::Unary(_, _, operand) => expr_changes(operand.get(), local),
        Node::Steps(base, steps) => expr_changes(base.get(), local) || steps_change(steps, local),
        Node::Number(..) | Node::Quote(..) | Node::Truth(..) => false,
        Node::Name { name, is_moved, .. } => *is_moved && name.name.0 == local.0,
        Node::Call(_, _, args) => exprs_change(args.as_slice(), local),
        Node::Paren(_, inner) => expr_changes(inner.get(), local),
        Node::Array(_, _, elements) => exprs_change(elements.as_slice(), local),
        Node::Iso(_, block) => block_changes(block, local),
        Node::Form(form) => form_changes(form.get(), local),
    }
}

#[cycle(changes)]
#[tactic(auto, using(crate::proofs::ChangeLaws::lists))]
fn exprs_change(exprs: &[Expr], local: Name) -> bool
    ensures { result ≡ exprs_change local.0 (exprs_of (map view_expr exprs.now)) }
{
    for expr in exprs {
        if expr_changes(expr, local) {
            return true;
        }
    }
    false
}

#[cycle(changes)]
#[tactic(auto, using(crate::proofs::ChangeLaws::links))]
fn link_changes(link: &Link, local: Name) -> bool
    ensures { result ≡ link_changes local.0 (view_link link.now) }
{
    expr_changes(&link.operand, local)
}

#[cycle(changes)]
#[tactic(auto, using(crate::proofs::ChangeLaws::lists))]
fn links_change(links: &Items<Link>, local: Name) -> bool
    ensures { result ≡ links_change local.0 (links_of (map view_link links.now)) }
{
    let slice = links.as_slice();
    for link in slice {
        if link_changes(link, local) {
            return true;
        }
    }
    false
}

/// Whether the step sets or moves the local.
#[cycle(changes)]
#[tactic(auto, using(crate::proofs::ChangeLaws::steps))]
pub fn step_changes(step: &Step, local: Name) -> bool
    ensures { result ≡ step_changes local.0 (view_step step.now) }
{
    match step {
        Step::Field(..) => false,
        Step::Method(_, _, _, _, args) => exprs_change(args.as_slice(), local),
        Step::Index(_, _, _, index) => expr_changes(index, local),
    }
}

#[cycle(changes)]
#[tactic(auto, using(crate::proofs::ChangeLaws::lists))]
fn steps_change(steps: &Items<Step>, local: Name) -> bool
    ensures { result ≡ steps_change local.0 (steps_of (map view_step steps.now)) }
{
    let slice = steps.as_slice();
    for step in slice {
        if step_changes(step, local) {
            return true;
        }
    }
    false
}

// One of the parts of an `if` does.
fn branch_changes(condition: bool, block: bool, else_ifs: bool, otherwise: bool) -> bool
    ensures { result ≡ (condition || block || else_ifs || otherwise) }
{
    condition || block || else_ifs || otherwise
}

#[cycle(changes)]
#[tactic(auto, using(crate::proofs::ChangeLaws::forms))]
fn form_changes(form: &Form, local: Name) -> bool
    ensures { result ≡ form_changes local.0 (view_form form.now) }
{
    match form {
        Form::If(_, condition, block, else_ifs, otherwise) => {
            branch_changes(
                expr_changes(condition, local),
                block_changes(block, local),
                else_ifs_change(else_ifs, local),
                else_changes(otherwise, local),
            )
        }
        Form::Pure(_, block) => block_changes(block, local),
        Form::ParallelRange(_, _, from, to, block) => {
            expr_changes(from, local) || expr_changes(to, local) || block_changes(block, local)
        }
        Form::ParallelEach(_, _, array, block) => {
            expr_changes(array, local) || block_changes(block, local)
        }
    }
}

#[cycle(changes)]
#[tactic(auto, using(crate::proofs::ChangeLaws::links))]
fn else_if_changes(else_if: &ElseIf, local: Name) -> bool
    ensures { result ≡ else_if_changes local.0 (view_else_if else_if.now) }
{
    expr_changes(&else_if.condition, local) || block_changes(&else_if.block, local)
}

#[cycle(changes)]
#[tactic(auto, using(crate::proofs::ChangeLaws::lists))]
fn else_ifs_change(else_ifs: &Items<ElseIf>, local: Name) -> bool
    ensures { result ≡ elses_change local.0 (elses_of (map view_else_if else_ifs.now) None) }
{
    let slice = else_ifs.as_slice();
    for else_if in slice {
        if else_if_changes(else_if, local) {
            return true;
        }
    }
    false
}

#[cycle(changes)]
fn else_changes(otherwise: &Option<Block>, local: Name) -> bool
    ensures { result ≡ elses_change local.0 (else_end (option_map view_block otherwise.now)) }
{
    match otherwise {
        Some(block) => block_changes(block, local),
        None => false,
    }
}

#[cycle(changes)]
#[tactic(auto, using(crate::proofs::ChangeLaws::blocks))]
fn block_changes(block: &Block, local: Name) -> bool
    ensures { result ≡ block_changes local.0 (view_block block.now) }
{
    stmts_change(block.stmts.as_slice(), local) || last_changes(&block.last, local)
}

#[cycle(changes)]
#[tactic(auto, using(crate::proofs::ChangeLaws::lists))]
fn stmts_change(stmts: &[Stmt], local: Name) -> bool
    ensures { result ≡ stmts_change local.0 (stmts_of (map view_stmt stmts.now) None) }
{
    for stmt in stmts {
        if stmt_changes(stmt, local) {
            return true;
        }
    }
    false
}

#[cycle(changes)]
fn last_changes(last: &Option<Boxed<Expr>>, local: Name) -> bool
    ensures { result ≡ stmts_change local.0 (last_end (option_map view_expr last.now)) }
{
    match last {
        Some(value) => expr_changes(value.get(), local),
        None => false,
    }
}

#[cycle(changes)]
#[tactic(auto, using(crate::proofs::ChangeLaws::stmts))]
fn stmt_changes(stmt: &Stmt, local: Name) -> bool
    ensures { result ≡ stmt_changes local.0 (view_stmt stmt.now) }
{
    match stmt {
        Stmt::Declare(_, _, value) => expr_changes(value, local),
        Stmt::Destructure(_, _, _, value) => expr_changes(value, local),
        Stmt::Return(_, None) => false,
        Stmt::Return(_, Some(value)) => expr_changes(value.get(), local),
        Stmt::While(_, condition, block) => {
            expr_changes(condition, local) || block_changes(block, local)
        }
        Stmt::Foreach(_, _, from, to, block) => {
            expr_changes(from, local) || expr_changes(to, local) || block_changes(block, local)
        }
        Stmt::Form(form) => form_changes(form, local),
        Stmt::Express(value) => expr_changes(value, local),
    }
}
