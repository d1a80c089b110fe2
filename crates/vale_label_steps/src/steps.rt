// The instructions of one node or one jump, after those of its parts.
ghost use Rattle.std.specs.Prelude.{◌≡◌, ◌∷◌, ◌||◌, [], Some, None, true, false, OnOk};
ghost use Rattle.vale_core.specs.View.{view_expr, view_ty, view_block};
ghost use Rattle.vale_rules_spec.specs.Typed.{block_type};
ghost use Rattle.vale_base.specs.declared.spot.Spot.{Spot};
ghost use Rattle.std.specs.Prelude.{ℕ};
ghost use Rattle.vale_lowering.specs.Instructions.{unary_code};
ghost use Rattle.vale_lowering.specs.Lowered.{set_code};
ghost use Rattle.vale_lower_facts.specs.Marks.{mark, marked};
ghost use Rattle.vale_rules_spec.specs.Returns.{block_returns};
ghost use Rattle.vale_lower_facts.specs.Slots.{scope_at, with_slot, holds, given, behind};
ghost use Rattle.vale_label_steps.specs.Progress.{progress, with_marks};
ghost use Rattle.vale_label_steps.specs.Shapes.{sets_local};
ghost use Rattle.vale_label_steps.specs.Standing.{stand, slots_of};
ghost use Rattle.vale_lower_facts.specs.Slots as s;

use crate::labels::Labels;
use crate::slots::{Slots, Standing, is_local};
use std::alloc::Global;
use vale_base::Memory;
use vale_core::{Block, Expr, Node, Ty, block_returns};
use vale_syntax::UnaryOp;

// Whether what is set is a local.
#[tactic(auto, using(crate::proofs::StepLaws::places))]
fn sets_local(place: &Expr, slots: &Slots) -> bool
    ensures { result ≡ sets_local (view_expr place.now) (s.scope_of (slots_of slots.now)) }
{
    match &place.node {
        Node::Name { name, .. } => is_local(name.name, slots),
        Node::Set(..)
        | Node::Chain(..)
        | Node::Unary(..)
        | Node::Steps(..)
        | Node::Number(..)
        | Node::Quote(..)
        | Node::Truth(..)
        | Node::Call(..)
        | Node::Paren(..)
        | Node::Array(..)
        | Node::Iso(..)
        | Node::Form(..) => false,
    }
}

/// An instruction where the register has a value of this type.
pub fn put_held(alloc: Global, ty: &Ty, here: &Standing, labels: &mut Labels) -> Result<(), Memory>
    ensures marks { OnOk result (progress labels.new ≡ with_marks (mark labels.old.due (with_slot (holds here.now.next (view_ty ty.now)) (stand here.now)) ∷ []) (progress labels.old)) }
    ensures due { OnOk result (labels.new.due ≡ false) }
{
    let inner = Slots::Holds(here.next, ty, &*here.slots);
    let held = Standing {
        slots: &inner,
        ..*here
    };
    labels.put(alloc, &held)
}

/// A return of what the register has, a value of this type; the place after it is due a label.
pub fn put_return(
    alloc: Global,
    ty: &Ty,
    here: &Standing,
    labels: &mut Labels,
) -> Result<(), Memory>
    ensures marks { OnOk result (progress labels.new ≡ with_marks (mark labels.old.due (with_slot (holds here.now.next (view_ty ty.now)) (stand here.now)) ∷ []) (progress labels.old)) }
    ensures due { OnOk result (labels.new.due ≡ true) }
{
    put_held(alloc, ty, here, labels)?;
    labels.set_due(true);
    Ok(())
}

/// The set of a local, whose new value of this type stands in the register.
#[tactic(auto, using(crate::proofs::StepLaws::puts))]
pub fn put_set(
    alloc: Global,
    place: &Expr,
    ty: &Ty,
    here: &Standing,
    labels: &mut Labels,
) -> Result<(), Memory>
    ensures marks { OnOk result (progress labels.new ≡ with_marks (marked labels.old.due (with_slot (holds here.now.next (view_ty ty.now)) (stand here.now)) (set_code (view_expr place.now) here.now.next (scope_at (stand here.now)))) (progress labels.old)) }
    ensures due { OnOk result (labels.new.due ≡ false) }
{
    put_held(alloc, ty, here, labels)?;
    if sets_local(place, here.slots) {
        labels.put_plain()?;
        return labels.put_plain();
    }
    Ok(())
}

/// An operator on what stands in the register.
#[tactic(auto, using(crate::proofs::StepLaws::puts))]
pub fn put_unary(
    alloc: Global,
    op: UnaryOp,
    ty: &Ty,
    here: &Standing,
    labels: &mut Labels,
) -> Result<(), Memory>
    ensures marks { OnOk result ((at : Spot) → progress labels.new ≡ with_marks (marked labels.old.due (with_slot (holds here.now.next (view_ty ty.now)) (stand here.now)) (unary_code op at here.now.next)) (progress labels.old)) }
    ensures due { OnOk result (labels.new.due ≡ false) }
{
    put_held(alloc, ty, here, labels)?;
    match op {
        UnaryOp::Minus => labels.put_plain(),
        UnaryOp::Not | UnaryOp::Borrow | UnaryOp::Merge => Ok(()),
    }
}

// An instruction where the register has a value of this type, where one is wanted.
fn put_given(
    alloc: Global,
    gives: bool,
    ty: &Ty,
    here: &Standing,
    labels: &mut Labels,
) -> Result<(), Memory>
    ensures marks { OnOk result (progress labels.new ≡ with_marks (mark labels.old.due (given gives here.now.next (view_ty ty.now) (stand here.now)) ∷ []) (progress labels.old)) }
    ensures due { OnOk result (labels.new.due ≡ false) }
{
    if gives {
        put_held(alloc, ty, here, labels)
    } else {
        labels.put(alloc, here)
    }
}

/// The jump after a block, whose value, where one is wanted, is in the register; the place after it is due a label.
#[tactic(auto, using(crate::proofs::StepLaws::ends))]
pub fn end_side(
    alloc: Global,
    block: &Block,
    gives: bool,
    here: &Standing,
    labels: &mut Labels,
) -> Result<(), Memory>
    ensures marks { OnOk result (progress labels.new ≡ with_marks (mark labels.old.due (given gives here.now.next (block_type (view_block block.now)) (behind (block_returns (view_block block.now)) (stand here.now))) ∷ []) (progress labels.old)) }
    ensures due { OnOk result (labels.new.due ≡ true) }
{
    let after = Standing {
        over: block_returns(block) || here.over,
        ..*here
    };
    put_given(alloc, gives, &block.ty, &after, labels)?;
    labels.set_due(true);
    Ok(())
}

/// The jump to a loop's test, and the first instruction of its body.
#[tactic(auto, using(crate::proofs::StepLaws::turns))]
pub fn begin_loop(alloc: Global, here: &Standing, labels: &mut Labels) -> Result<(), Memory>
    ensures marks { OnOk result (progress labels.new ≡ with_marks (mark labels.old.due (stand here.now) ∷ Some (stand here.now) ∷ []) (progress labels.old)) }
    ensures due { OnOk result (labels.new.due ≡ false) }
{
    labels.put(alloc, here)?;
    labels.set_due(true);
    labels.put(alloc, here)
}

/// The two jumps after a loop's test, of this type.
#[tactic(auto, using(crate::proofs::StepLaws::turns))]
pub fn end_loop(alloc: Global, ty: &Ty, here: &Standing, labels: &mut Labels) -> Result<(), Memory>
    ensures marks { OnOk result (progress labels.new ≡ with_marks (mark labels.old.due (with_slot (holds here.now.next (view_ty ty.now)) (stand here.now)) ∷ None ∷ []) (progress labels.old)) }
    ensures due { OnOk result (labels.new.due ≡ true) }
{
    put_held(alloc, ty, here, labels)?;
    labels.put_plain()?;
    labels.set_due(true);
    Ok(())
}

/// The beginning of a loop over numbers.
#[tactic(auto, using(crate::proofs::StepLaws::turns))]
pub fn begin_count(alloc: Global, here: &Standing, labels: &mut Labels) -> Result<(), Memory>
    ensures marks { OnOk result (progress labels.new ≡ with_marks (mark labels.old.due (stand here.now) ∷ None ∷ Some (stand here.now) ∷ None ∷ []) (progress labels.old)) }
    ensures due { OnOk result (labels.new.due ≡ false) }
{
    labels.put(alloc, here)?;
    labels.put_plain()?;
    labels.set_due(true);
    labels.put(alloc, here)?;
    labels.put_plain()
}

/// The end of a loop over numbers, after its block.
#[tactic(auto, using(crate::proofs::StepLaws::turns))]
pub fn end_count(
    alloc: Global,
    block: &Block,
    here: &Standing,
    labels: &mut Labels,
) -> Result<(), Memory>
    ensures marks { OnOk result (progress labels.new ≡ with_marks (mark labels.old.due (behind (block_returns (view_block block.now)) (stand here.now)) ∷ None ∷ Some (stand here.now) ∷ None ∷ None ∷ []) (progress labels.old)) }
    ensures due { OnOk result (labels.new.due ≡ true) }
{
    let after = Standing {
        over: block_returns(block) || here.over,
        ..*here
    };
    labels.put(alloc, &after)?;
    labels.put_plain()?;
    labels.set_due(true);
    labels.put(alloc, here)?;
    labels.put_plain()?;
    labels.put_plain()?;
    labels.set_due(true);
    Ok(())
}
