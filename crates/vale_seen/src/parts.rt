// What is known of typed parts.
ghost use Rattle.std.specs.Prelude.{◌≡◌, map, IfOk};
ghost use Rattle.vale_rules_spec.specs.Typed.{seen, type, types, block_type, link_seen, chain_seen, step_seen, steps_seen, step_may_be_set, last_may_be_set, may_be_set};
ghost use Rattle.vale_core.specs.View.{exprs_of, links_of, steps_of, view_ty, view_seen, view_expr, view_link, view_step, view_block};

use crate::seen::copy_seen;
use std::alloc::Global;
use vale_base::Memory;
use vale_core::{Block, Expr, Link, Node, Seen, Step, Ty};

/// What is known of an expression.
#[tactic(auto, using(crate::proofs::PartLaws::of_seen))]
pub fn seen_of(expr: &Expr) -> &Seen
    ensures { view_seen result.now ≡ seen (view_expr expr.now) }
{
    &expr.seen
}

/// The type of an expression as a value.
#[tactic(auto, using(crate::proofs::PartLaws::of_seen))]
pub fn type_in(expr: &Expr) -> &Ty
    ensures { view_ty result.now ≡ type (view_expr expr.now) }
{
    &expr.seen.value
}

/// The type of a block's last expression.
#[tactic(auto, using(crate::proofs::PartLaws::of_block_type))]
pub fn block_type(block: &Block) -> &Ty
    ensures { view_ty result.now ≡ block_type (view_block block.now) }
{
    &block.ty
}

/// The types of the expressions.
pub fn types_in(alloc: Global, exprs: &[Expr]) -> Result<Vec<Ty>, Memory>
    ensures { IfOk result (λ ts. map view_ty ts.items ≡ types (exprs_of (map view_expr exprs.now))) }
{
    let mut types = Vec::new(alloc);
    for expr in exprs {
        types.push(type_in(expr).copy(alloc)?)?;
    }
    Ok(types)
}

#[tactic(auto, using(vale_core::proofs::ViewLaws::of_field, vale_core::proofs::ViewLaws::of_method, vale_core::proofs::ViewLaws::of_index))]
fn step_may_be_set(step: &Step) -> bool
    ensures { result ≡ step_may_be_set (view_step step.now) }
{
    match step {
        Step::Field(_, _, may_be_set, ..) => *may_be_set,
        Step::Method(..) | Step::Index(..) => true,
    }
}

#[tactic(auto, using(crate::proofs::PartLaws::last_whole))]
fn last_may_be_set(steps: &[Step]) -> bool
    ensures { result ≡ last_may_be_set (steps_of (map view_step steps.now)) }
{
    let mut last = true;
    for step in steps {
        last = step_may_be_set(step);
    }
    last
}

/// Whether what the last step of the place is may be set, where it has a step.
#[tactic(auto, using(crate::proofs::PartLaws::of_may_be_set, crate::proofs::PartLaws::nodes))]
pub fn may_be_set(expr: &Expr) -> bool
    ensures { result ≡ may_be_set (view_expr expr.now) }
{
    match &expr.node {
        Node::Steps(_, steps) => last_may_be_set(steps.as_slice()),
        _ => true,
    }
}

#[tactic(auto, using(crate::proofs::PartLaws::of_link_seen))]
pub fn link_seen(link: &Link) -> &Seen
    ensures { view_seen result.now ≡ link_seen (view_link link.now) }
{
    &link.seen
}

/// What is known of the last operator's value, or of the first operand's.
pub fn chain_seen(alloc: Global, first: &Seen, links: &[Link]) -> Result<Seen, Memory>
    ensures { IfOk result (λ s. view_seen s ≡ chain_seen (view_seen first.now) (links_of (map view_link links.now))) }
{
    let mut seen = copy_seen(alloc, first)?;
    for link in links {
        seen = copy_seen(alloc, link_seen(link))?;
    }
    Ok(seen)
}

#[tactic(auto, using(vale_core::proofs::ViewLaws::of_field, vale_core::proofs::ViewLaws::of_method, vale_core::proofs::ViewLaws::of_index))]
pub fn step_seen(step: &Step) -> &Seen
    ensures { view_seen result.now ≡ step_seen (view_step step.now) }
{
    match step {
        Step::Field(seen, ..) | Step::Method(seen, ..) | Step::Index(seen, ..) => seen,
    }
}

/// What is known of the last step's value, or of the base.
pub fn steps_seen(alloc: Global, base: &Seen, steps: &[Step]) -> Result<Seen, Memory>
    ensures { IfOk result (λ s. view_seen s ≡ steps_seen (view_seen base.now) (steps_of (map view_step steps.now))) }
{
    let mut seen = copy_seen(alloc, base)?;
    for step in steps {
        seen = copy_seen(alloc, step_seen(step))?;
    }
    Ok(seen)
}
