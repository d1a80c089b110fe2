// The quotes of a body, in order.
ghost use Rattle.std.specs.Prelude.{◌≡◌, ◌++◌, None, map, option_map, OnOk};
ghost use Rattle.vale_core.specs.View.{view_expr, view_node, view_form, view_stmt, view_block, view_else_if, view_link, view_step, exprs_of, links_of, steps_of, elses_of, else_end, stmts_of, last_end};
ghost use Rattle.vale_lowering_objects.specs.Quotes.{expr_quotes, node_quotes, exprs_quotes, links_quotes, step_quotes, steps_quotes, form_quotes, elses_quotes, block_quotes, stmts_quotes, stmt_quotes};
ghost use Rattle.vale_lower_texts.specs.Parts.{link_quotes, else_if_quotes};

use sqlite_items::{Boxed, Items};
use std::alloc::Global;
use vale_base::{Memory, Text};
use vale_code::Sequence;
use vale_core::{Block, ElseIf, Expr, Form, Link, Node, Step, Stmt};

#[cycle(quotes)]
#[tactic(auto, using(crate::proofs::QuoteLaws::exprs))]
fn add_expr(alloc: Global, expr: &Expr, texts: &mut Sequence<Text>) -> Result<(), Memory>
    ensures { OnOk result (texts.new ≡ texts.old ++ expr_quotes (view_expr expr.now)) }
{
    add_node(alloc, &expr.node, texts)
}

#[cycle(quotes)]
#[tactic(auto, using(crate::proofs::QuoteLaws::nodes))]
fn add_node(alloc: Global, node: &Node, texts: &mut Sequence<Text>) -> Result<(), Memory>
    ensures { OnOk result (texts.new ≡ texts.old ++ node_quotes (view_node node.now)) }
{
    match node {
        Node::Quote(_, text) => texts.push(Text::from_slice(alloc, text.as_slice())?),
        Node::Set(_, place, value) => {
            add_expr(alloc, place.get(), texts)?;
            add_expr(alloc, value.get(), texts)
        }
        Node::Chain(first, links) => {
            add_expr(alloc, first.get(), texts)?;
            add_links(alloc, links, texts)
        }
        Node::Unary(_, _, operand) => add_expr(alloc, operand.get(), texts),
        Node::Call(_, _, args) => add_exprs(alloc, args.as_slice(), texts),
        Node::Paren(_, inner) => add_expr(alloc, inner.get(), texts),
        Node::Form(form) => add_form(alloc, form.get(), texts),
        Node::Steps(base, steps) => {
            add_expr(alloc, base.get(), texts)?;
            add_steps(alloc, steps, texts)
        }
        Node::Array(_, _, elements) => add_exprs(alloc, elements.as_slice(), texts),
        Node::Iso(_, block) => add_block(alloc, block, texts),
        Node::Number(..) | Node::Truth(..) | Node::Name { .. } => Ok(()),
    }
}

#[cycle(quotes)]
#[tactic(auto, using(crate::proofs::QuoteLaws::lists))]
fn add_exprs(alloc: Global, exprs: &[Expr], texts: &mut Sequence<Text>) -> Result<(), Memory>
    ensures { OnOk result (texts.new ≡ texts.old ++ exprs_quotes (exprs_of (map view_expr exprs.now))) }
{
    for expr in exprs {
        add_expr(alloc, expr, texts)?;
    }
    Ok(())
}

#[cycle(quotes)]
#[tactic(auto, using(crate::proofs::QuoteLaws::parts))]
fn add_link(alloc: Global, link: &Link, texts: &mut Sequence<Text>) -> Result<(), Memory>
    ensures { OnOk result (texts.new ≡ texts.old ++ link_quotes (view_link link.now)) }
{
    add_expr(alloc, &link.operand, texts)
}

#[cycle(quotes)]
#[tactic(auto, using(crate::proofs::QuoteLaws::lists))]
fn add_links(alloc: Global, links: &Items<Link>, texts: &mut Sequence<Text>) -> Result<(), Memory>
    ensures { OnOk result (texts.new ≡ texts.old ++ links_quotes (links_of (map view_link links.now))) }
{
    let slice = links.as_slice();
    for link in slice {
        add_link(alloc, link, texts)?;
    }
    Ok(())
}

#[cycle(quotes)]
#[tactic(auto, using(crate::proofs::QuoteLaws::steps))]
fn add_step(alloc: Global, step: &Step, texts: &mut Sequence<Text>) -> Result<(), Memory>
    ensures { OnOk result (texts.new ≡ texts.old ++ step_quotes (view_step step.now)) }
{
    match step {
        Step::Field(..) => Ok(()),
        Step::Method(_, _, _, _, args) => add_exprs(alloc, args.as_slice(), texts),
        Step::Index(_, _, _, index) => add_expr(alloc, index, texts),
    }
}

#[cycle(quotes)]
#[tactic(auto, using(crate::proofs::QuoteLaws::lists))]
fn add_steps(alloc: Global, steps: &Items<Step>, texts: &mut Sequence<Text>) -> Result<(), Memory>
    ensures { OnOk result (texts.new ≡ texts.old ++ steps_quotes (steps_of (map view_step steps.now))) }
{
    let slice = steps.as_slice();
    for step in slice {
        add_step(alloc, step, texts)?;
    }
    Ok(())
}

#[cycle(quotes)]
#[tactic(auto, using(crate::proofs::QuoteLaws::parts))]
fn add_form(alloc: Global, form: &Form, texts: &mut Sequence<Text>) -> Result<(), Memory>
    ensures { OnOk result (texts.new ≡ texts.old ++ form_quotes (view_form form.now)) }
{
    match form {
        Form::If(_, condition, block, else_ifs, otherwise) => {
            add_expr(alloc, condition, texts)?;
            add_block(alloc, block, texts)?;
            add_else_ifs(alloc, else_ifs, texts)?;
            add_else(alloc, otherwise, texts)
        }
        Form::Pure(_, block) => add_block(alloc, block, texts),
        Form::ParallelRange(_, _, from, to, block) => {
            add_expr(alloc, from, texts)?;
            add_expr(alloc, to, texts)?;
            add_block(alloc, block, texts)
        }
        Form::ParallelEach(_, _, array, block) => {
            add_expr(alloc, array, texts)?;
            add_block(alloc, block, texts)
        }
    }
}

#[cycle(quotes)]
#[tactic(auto, using(crate::proofs::QuoteLaws::parts))]
fn add_else_if(alloc: Global, else_if: &ElseIf, texts: &mut Sequence<Text>) -> Result<(), Memory>
    ensures { OnOk result (texts.new ≡ texts.old ++ else_if_quotes (view_else_if else_if.now)) }
{
    add_expr(alloc, &else_if.condition, texts)?;
    add_block(alloc, &else_if.block, texts)
}

#[cycle(quotes)]
#[tactic(auto, using(crate::proofs::QuoteLaws::lists))]
fn add_else_ifs(
    alloc: Global,
    else_ifs: &Items<ElseIf>,
    texts: &mut Sequence<Text>,
) -> Result<(), Memory>
    ensures { OnOk result (texts.new ≡ texts.old ++ elses_quotes (elses_of (map view_else_if else_ifs.now) None)) }
{
    let slice = else_ifs.as_slice();
    for else_if in slice {
        add_else_if(alloc, else_if, texts)?;
    }
    Ok(())
}

#[cycle(quotes)]
#[tactic(auto, using(crate::proofs::QuoteLaws::lists))]
fn add_else(
    alloc: Global,
    otherwise: &Option<Block>,
    texts: &mut Sequence<Text>,
) -> Result<(), Memory>
    ensures { OnOk result (texts.new ≡ texts.old ++ elses_quotes (else_end (option_map view_block otherwise.now))) }
{
    match otherwise {
        Some(block) => add_block(alloc, block, texts),
        None => Ok(()),
    }
}

/// Puts the quotes of the block at the end.
#[cycle(quotes)]
#[tactic(auto, using(crate::proofs::QuoteLaws::parts))]
pub fn add_block(alloc: Global, block: &Block, texts: &mut Sequence<Text>) -> Result<(), Memory>
    ensures { OnOk result (texts.new ≡ texts.old ++ block_quotes (view_block block.now)) }
{
    add_stmts(alloc, block.stmts.as_slice(), texts)?;
    add_last(alloc, &block.last, texts)
}

#[cycle(quotes)]
#[tactic(auto, using(crate::proofs::QuoteLaws::lists))]
fn add_stmts(alloc: Global, stmts: &[Stmt], texts: &mut Sequence<Text>) -> Result<(), Memory>
    ensures { OnOk result (texts.new ≡ texts.old ++ stmts_quotes (stmts_of (map view_stmt stmts.now) None)) }
{
    for stmt in stmts {
        add_stmt(alloc, stmt, texts)?;
    }
    Ok(())
}

#[cycle(quotes)]
#[tactic(auto, using(crate::proofs::QuoteLaws::lists))]
fn add_last(
    alloc: Global,
    last: &Option<Boxed<Expr>>,
    texts: &mut Sequence<Text>,
) -> Result<(), Memory>
    ensures { OnOk result (texts.new ≡ texts.old ++ stmts_quotes (last_end (option_map view_expr last.now))) }
{
    match last {
        Some(value) => add_expr(alloc, value.get(), texts),
        None => Ok(()),
    }
}

#[cycle(quotes)]
#[tactic(auto, using(crate::proofs::QuoteLaws::stmts))]
fn add_stmt(alloc: Global, stmt: &Stmt, texts: &mut Sequence<Text>) -> Result<(), Memory>
    ensures { OnOk result (texts.new ≡ texts.old ++ stmt_quotes (view_stmt stmt.now)) }
{
    match stmt {
        Stmt::Declare(_, _, value) => add_expr(alloc, value, texts),
        Stmt::Destructure(_, _, _, value) => add_expr(alloc, value, texts),
        Stmt::Return(_, None) => Ok(()),
        Stmt::Return(_, Some(value)) => add_expr(alloc, value.get(), texts),
        Stmt::While(_, condition, block) => {
            add_expr(alloc, condition, texts)?;
            add_block(alloc, block, texts)
        }
        Stmt::Foreach(_, _, from, to, block) => {
            add_expr(alloc, from, texts)?;
            add_expr(alloc, to, texts)?;
            add_block(alloc, block, texts)
        }
        Stmt::Form(form) => add_form(alloc, form, texts),
        Stmt::Express(value) => add_expr(alloc, value, texts),
    }
}
