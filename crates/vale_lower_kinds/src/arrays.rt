// The array types that a body makes.
ghost use Rattle.std.specs.Prelude.{◌≡◌, ◌++◌, None, map, option_map, OnOk};
ghost use Rattle.vale_core.specs.View.{view_expr, view_form, view_stmt, view_block, view_else_if, view_link, view_step, exprs_of, links_of, steps_of, elses_of, else_end, stmts_of, last_end};
ghost use Rattle.vale_model.specs.Kinds.{expr_arrays, exprs_arrays, link_arrays, links_arrays, step_arrays, steps_arrays, form_arrays, else_if_arrays, elses_arrays, block_arrays, stmts_arrays, stmt_arrays};
ghost use Rattle.vale_lower_kinds.specs.Added.{added};
ghost use Rattle.vale_lower_kinds.specs.Held.{kinds_in};

use crate::kinds::Kinds;
use sqlite_items::{Boxed, Items};
use std::alloc::Global;
use vale_base::Memory;
use vale_core::{Block, ElseIf, Expr, Form, Link, Node, Step, Stmt};

#[cycle(arrays)]
#[tactic(auto, using(crate::proofs::ArrayLaws::nodes))]
fn add_expr(alloc: Global, expr: &Expr, kinds: &mut Kinds) -> Result<(), Memory>
    ensures { OnOk result (kinds_in kinds.new ≡ added (kinds_in kinds.old) (expr_arrays (view_expr expr.now))) }
{
    match &expr.node {
        Node::Set(_, place, value) => {
            add_expr(alloc, place.get(), kinds)?;
            add_expr(alloc, value.get(), kinds)
        }
        Node::Chain(first, links) => {
            add_expr(alloc, first.get(), kinds)?;
            add_links(alloc, links, kinds)
        }
        Node::Unary(_, _, operand) => add_expr(alloc, operand.get(), kinds),
        Node::Call(_, _, args) => add_exprs(alloc, args.as_slice(), kinds),
        Node::Paren(_, inner) => add_expr(alloc, inner.get(), kinds),
        Node::Form(form) => {
            add_form(alloc, form.get(), kinds)?;
            kinds.add_arrays_in(alloc, &expr.seen.value)
        }
        Node::Steps(base, steps) => {
            add_expr(alloc, base.get(), kinds)?;
            add_steps(alloc, steps, kinds)
        }
        Node::Array(_, _, elements) => {
            add_exprs(alloc, elements.as_slice(), kinds)?;
            kinds.add_arrays_in(alloc, &expr.seen.value)
        }
        Node::Iso(_, block) => add_block(alloc, block, kinds),
        Node::Number(..) | Node::Quote(..) | Node::Truth(..) | Node::Name { .. } => Ok(()),
    }
}

#[cycle(arrays)]
#[tactic(auto, using(crate::proofs::ArrayLaws::lists))]
fn add_exprs(alloc: Global, exprs: &[Expr], kinds: &mut Kinds) -> Result<(), Memory>
    ensures { OnOk result (kinds_in kinds.new ≡ added (kinds_in kinds.old) (exprs_arrays (exprs_of (map view_expr exprs.now)))) }
{
    for expr in exprs {
        add_expr(alloc, expr, kinds)?;
    }
    Ok(())
}

#[cycle(arrays)]
#[tactic(auto, using(crate::proofs::ArrayLaws::parts))]
fn add_link(alloc: Global, link: &Link, kinds: &mut Kinds) -> Result<(), Memory>
    ensures { OnOk result (kinds_in kinds.new ≡ added (kinds_in kinds.old) (link_arrays (view_link link.now))) }
{
    add_expr(alloc, &link.operand, kinds)
}

#[cycle(arrays)]
#[tactic(auto, using(crate::proofs::ArrayLaws::lists))]
fn add_links(alloc: Global, links: &Items<Link>, kinds: &mut Kinds) -> Result<(), Memory>
    ensures { OnOk result (kinds_in kinds.new ≡ added (kinds_in kinds.old) (links_arrays (links_of (map view_link links.now)))) }
{
    let slice = links.as_slice();
    for link in slice {
        add_link(alloc, link, kinds)?;
    }
    Ok(())
}

#[cycle(arrays)]
#[tactic(auto, using(crate::proofs::ArrayLaws::steps))]
fn add_step(alloc: Global, step: &Step, kinds: &mut Kinds) -> Result<(), Memory>
    ensures { OnOk result (kinds_in kinds.new ≡ added (kinds_in kinds.old) (step_arrays (view_step step.now))) }
{
    match step {
        Step::Field(..) => Ok(()),
        Step::Method(_, _, _, _, args) => add_exprs(alloc, args.as_slice(), kinds),
        Step::Index(_, _, _, index) => add_expr(alloc, index, kinds),
    }
}

#[cycle(arrays)]
#[tactic(auto, using(crate::proofs::ArrayLaws::lists))]
fn add_steps(alloc: Global, steps: &Items<Step>, kinds: &mut Kinds) -> Result<(), Memory>
    ensures { OnOk result (kinds_in kinds.new ≡ added (kinds_in kinds.old) (steps_arrays (steps_of (map view_step steps.now)))) }
{
    let slice = steps.as_slice();
    for step in slice {
        add_step(alloc, step, kinds)?;
    }
    Ok(())
}

#[cycle(arrays)]
#[tactic(auto, using(crate::proofs::ArrayLaws::parts))]
fn add_form(alloc: Global, form: &Form, kinds: &mut Kinds) -> Result<(), Memory>
    ensures { OnOk result (kinds_in kinds.new ≡ added (kinds_in kinds.old) (form_arrays (view_form form.now))) }
{
    match form {
        Form::If(_, condition, block, else_ifs, otherwise) => {
            add_expr(alloc, condition, kinds)?;
            add_block(alloc, block, kinds)?;
            add_else_ifs(alloc, else_ifs, kinds)?;
            add_else(alloc, otherwise, kinds)
        }
        Form::Pure(_, block) => add_block(alloc, block, kinds),
        Form::ParallelRange(_, _, from, to, block) => {
            add_expr(alloc, from, kinds)?;
            add_expr(alloc, to, kinds)?;
            add_block(alloc, block, kinds)
        }
        Form::ParallelEach(_, _, array, block) => {
            add_expr(alloc, array, kinds)?;
            add_block(alloc, block, kinds)
        }
    }
}

#[cycle(arrays)]
#[tactic(auto, using(crate::proofs::ArrayLaws::parts))]
fn add_else_if(alloc: Global, else_if: &ElseIf, kinds: &mut Kinds) -> Result<(), Memory>
    ensures { OnOk result (kinds_in kinds.new ≡ added (kinds_in kinds.old) (else_if_arrays (view_else_if else_if.now))) }
{
    add_expr(alloc, &else_if.condition, kinds)?;
    add_block(alloc, &else_if.block, kinds)
}

#[cycle(arrays)]
#[tactic(auto, using(crate::proofs::ArrayLaws::lists))]
fn add_else_ifs(alloc: Global, else_ifs: &Items<ElseIf>, kinds: &mut Kinds) -> Result<(), Memory>
    ensures { OnOk result (kinds_in kinds.new ≡ added (kinds_in kinds.old) (elses_arrays (elses_of (map view_else_if else_ifs.now) None))) }
{
    let slice = else_ifs.as_slice();
    for else_if in slice {
        add_else_if(alloc, else_if, kinds)?;
    }
    Ok(())
}

#[cycle(arrays)]
#[tactic(auto, using(crate::proofs::ArrayLaws::lists))]
fn add_else(alloc: Global, otherwise: &Option<Block>, kinds: &mut Kinds) -> Result<(), Memory>
    ensures { OnOk result (kinds_in kinds.new ≡ added (kinds_in kinds.old) (elses_arrays (else_end (option_map view_block otherwise.now)))) }
{
    match otherwise {
        Some(block) => add_block(alloc, block, kinds),
        None => Ok(()),
    }
}

/// Adds those of a block.
#[cycle(arrays)]
#[tactic(auto, using(crate::proofs::ArrayLaws::parts))]
pub fn add_block(alloc: Global, block: &Block, kinds: &mut Kinds) -> Result<(), Memory>
    ensures { OnOk result (kinds_in kinds.new ≡ added (kinds_in kinds.old) (block_arrays (view_block block.now))) }
{
    add_stmts(alloc, block.stmts.as_slice(), kinds)?;
    add_last(alloc, &block.last, kinds)
}

#[cycle(arrays)]
#[tactic(auto, using(crate::proofs::ArrayLaws::lists))]
fn add_stmts(alloc: Global, stmts: &[Stmt], kinds: &mut Kinds) -> Result<(), Memory>
    ensures { OnOk result (kinds_in kinds.new ≡ added (kinds_in kinds.old) (stmts_arrays (stmts_of (map view_stmt stmts.now) None))) }
{
    for stmt in stmts {
        add_stmt(alloc, stmt, kinds)?;
    }
    Ok(())
}

#[cycle(arrays)]
#[tactic(auto, using(crate::proofs::ArrayLaws::lists))]
fn add_last(alloc: Global, last: &Option<Boxed<Expr>>, kinds: &mut Kinds) -> Result<(), Memory>
    ensures { OnOk result (kinds_in kinds.new ≡ added (kinds_in kinds.old) (stmts_arrays (last_end (option_map view_expr last.now)))) }
{
    match last {
        Some(value) => add_expr(alloc, value.get(), kinds),
        None => Ok(()),
    }
}

#[cycle(arrays)]
#[tactic(auto, using(crate::proofs::ArrayLaws::stmts))]
fn add_stmt(alloc: Global, stmt: &Stmt, kinds: &mut Kinds) -> Result<(), Memory>
    ensures { OnOk result (kinds_in kinds.new ≡ added (kinds_in kinds.old) (stmt_arrays (view_stmt stmt.now))) }
{
    match stmt {
        Stmt::Declare(_, _, value) => add_expr(alloc, value, kinds),
        Stmt::Destructure(_, _, _, value) => add_expr(alloc, value, kinds),
        Stmt::Return(_, None) => Ok(()),
        Stmt::Return(_, Some(value)) => add_expr(alloc, value.get(), kinds),
        Stmt::While(_, condition, block) => {
            add_expr(alloc, condition, kinds)?;
            add_block(alloc, block, kinds)
        }
        Stmt::Foreach(_, _, from, to, block) => {
            add_expr(alloc, from, kinds)?;
            add_expr(alloc, to, kinds)?;
            add_block(alloc, block, kinds)
        }
        Stmt::Form(form) => add_form(alloc, form, kinds),
        Stmt::Express(value) => add_expr(alloc, value, kinds),
    }
}
