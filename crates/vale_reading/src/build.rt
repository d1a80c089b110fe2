//! Nodes whose form depends on what was found.

ghost use Rattle.std.specs.Prelude.{◌≡◌, map, option_map, IfOk};
ghost use Rattle.vale_syntax.specs.View.{links_of, steps_of, view_expr, view_form, view_step, view_stmt, view_block, view_link};
ghost use Rattle.vale_reading.specs.Reading as r;
ghost use Rattle.vale_reading.specs.Gives.{Gives, turned};

use crate::stop::{Stop, Turn};
use sqlite_items::{Boxed, Items};
use std::alloc::Global;
use vale_base::{Memory, Spot};
use vale_syntax::{Block, Expr, Form, Link, NameAt, Sign, Step, Stmt, Token, TokenKind};

/// An operand alone, or a chain where operators follow it.
#[tactic(auto, using(crate::proofs::Built::no_chain))]
pub fn chained(alloc: Global, first: Expr, links: Items<Link>) -> Result<Expr, Memory>
    ensures { IfOk result (λ e. view_expr e ≡ r.chained (view_expr first) (links_of (map view_link links))) }
{
    if links.is_empty() {
        return Ok(first);
    }
    Expr::chain(alloc, first, links)
}

/// A base alone, or its steps.
#[tactic(auto, using(crate::proofs::Built::no_steps_is))]
pub fn stepped(alloc: Global, base: Expr, steps: Items<Step>) -> Result<Expr, Memory>
    ensures { IfOk result (λ e. view_expr e ≡ r.stepped (view_expr base) (steps_of (map view_step steps))) }
{
    if steps.is_empty() {
        return Ok(base);
    }
    Expr::steps(alloc, base, steps)
}

/// A parallel loop over a range, or over an array where there is no second bound.
pub fn parallel(at: Spot, name: NameAt, over: Expr, to: Option<Boxed<Expr>>, block: Block) -> Form
    ensures { view_form result ≡ r.parallel at name (view_expr over) (option_map view_expr to) (view_block block) }
{
    match to {
        Some(to) => Form::parallel_range(at, name, over, to.into_inner(), block),
        None => Form::parallel_each(at, name, over, block),
    }
}

/// What a form that begins a statement is, by what follows it.
#[tactic(auto, unfolding(crate::specs::Reading::after_form))]
pub fn after_form<'t>(
    alloc: Global,
    form: Form,
    tokens: &'t [Token],
) -> Result<(Turn<Stmt, Option<Boxed<Expr>>>, &'t [Token]), Stop<'t>>
    ensures { Gives (λ x. (turned view_stmt (option_map view_expr) x.0, x.1.now)) result (r.after_form (view_form form) tokens.now) }
{
    let [first, rest @ ..] = tokens else {
        return Err(Stop::Unexpected(tokens));
    };
    match &first.kind {
        TokenKind::Sign(Sign::Semicolon) => {
            let value = Expr::form(alloc, form)?;
            Ok((Turn::More(Stmt::express(value)), rest))
        }
        TokenKind::Sign(Sign::CloseBrace) => {
            let value = Expr::form(alloc, form)?;
            Ok((Turn::End(Some(Boxed::new(alloc, value)?)), tokens))
        }
        _ => Ok((Turn::More(Stmt::form(form)), tokens)),
    }
}

/// What another expression that begins a statement is.
#[tactic(auto, unfolding(crate::specs::Reading::after_plain))]
pub fn after_plain<'t>(
    alloc: Global,
    value: Expr,
    tokens: &'t [Token],
) -> Result<(Turn<Stmt, Option<Boxed<Expr>>>, &'t [Token]), Stop<'t>>
    ensures { Gives (λ x. (turned view_stmt (option_map view_expr) x.0, x.1.now)) result (r.after_plain (view_expr value) tokens.now) }
{
    let [first, rest @ ..] = tokens else {
        return Err(Stop::Unexpected(tokens));
    };
    match &first.kind {
        TokenKind::Sign(Sign::Semicolon) => Ok((Turn::More(Stmt::express(value)), rest)),
        TokenKind::Sign(Sign::CloseBrace) => {
            Ok((Turn::End(Some(Boxed::new(alloc, value)?)), tokens))
        }
        _ => Err(Stop::Unexpected(tokens)),
    }
}
