// Which rule of isolates a node breaks.
ghost use Rattle.std.specs.Prelude.{◌≡◌, false, option_map};
ghost use Rattle.std.specs.Option.{option_map_or};
ghost use Rattle.vale_rules_spec.specs.Judged.{broken};
ghost use Rattle.vale_rules_spec.specs.TypeRules.{is_iso};
ghost use Rattle.vale_core.specs.View.{view_ty, view_seen};
ghost use Rattle.vale_region_spec.specs.Isolated.{is_open, step_rules, unary_rules, parallel_rules};

use vale_core::{Seen, Ty};
use vale_seen::is_frozen;
use vale_syntax::UnaryOp;

#[tactic(auto, using(vale_seen::proofs::TyLaws::types))]
fn is_isolate(place: &Option<Ty>) -> bool
    ensures { result ≡ option_map_or is_iso (option_map view_ty place.now) false }
{
    match place {
        Some(ty) => matches!(ty, Ty::Iso(_)),
        None => false,
    }
}

/// Whether it is the place of an isolate that isn't seen as `&imm`.
fn is_open(seen: &Seen) -> bool
    ensures { result ≡ is_open (view_seen seen.now) }
{
    is_isolate(&seen.place) && !is_frozen(&seen.view)
}

/// A step, by what is known of its base.
pub fn step_fault(base: &Seen) -> Option<u8>
    ensures { result ≡ broken (step_rules (view_seen base.now)) }
{
    if is_open(base) {
        return Some(50);
    }
    None
}

/// An operator before an operand of which this is known.
pub fn unary_fault(op: UnaryOp, operand: &Seen) -> Option<u8>
    ensures { result ≡ broken (unary_rules op (view_seen operand.now)) }
{
    match op {
        UnaryOp::Borrow => step_fault(operand),
        UnaryOp::Minus | UnaryOp::Not | UnaryOp::Merge => None,
    }
}

/// A parallel loop, by whether it gives nothing and the type of its body.
pub fn parallel_fault(gives_nothing: bool, ty: &Ty) -> Option<u8>
    ensures { result ≡ broken (parallel_rules gives_nothing (view_ty ty.now)) }
{
    if !ty.is_void() && gives_nothing {
        return Some(51);
    }
    None
}
