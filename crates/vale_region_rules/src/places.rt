// `set p = e`, by its place.
ghost use Rattle.std.specs.Prelude.{◌≡◌, false, map, option_map};
ghost use Rattle.std.specs.Option.{option_map_or};
ghost use Rattle.vale_rules_spec.specs.Judged.{broken};
ghost use Rattle.vale_rules_spec.specs.Typed.{seen};
ghost use Rattle.vale_core.specs.View.{view_ty, view_seen, view_expr, view_step, steps_of};
ghost use Rattle.vale_region_spec.specs.RegionRules.{thaws, step_is_frozen, last_is_frozen, is_frozen_place, is_outer_local, set_rules};

use crate::types::thaws;
use vale_core::{Expr, Node, Step, Ty};
use vale_seen::{is_frozen, seen_of};

#[tactic(auto, using(vale_core::proofs::ViewLaws::of_field, vale_core::proofs::ViewLaws::of_method, vale_core::proofs::ViewLaws::of_index))]
fn step_is_frozen(step: &Step) -> bool
    ensures { result ≡ step_is_frozen (view_step step.now) }
{
    match step {
        Step::Field(_, view, ..) | Step::Method(_, view, ..) => is_frozen(view),
        Step::Index(_, view, ..) => is_frozen(view),
    }
}

#[tactic(auto, using(crate::proofs::PlaceLaws::last_whole))]
fn last_is_frozen(steps: &[Step]) -> bool
    ensures { result ≡ last_is_frozen (steps_of (map view_step steps.now)) }
{
    let mut last = false;
    for step in steps {
        last = step_is_frozen(step);
    }
    last
}

/// Whether the last step of the place sees its base as `&imm`.
#[tactic(auto, using(crate::proofs::PlaceLaws::frozen_by_parts, vale_seen::proofs::PartLaws::nodes))]
fn is_frozen_place(place: &Expr) -> bool
    ensures { result ≡ is_frozen_place (view_expr place.now) }
{
    match &place.node {
        Node::Steps(_, steps) => last_is_frozen(steps.as_slice()),
        _ => false,
    }
}

#[tactic(auto, using(crate::proofs::PlaceLaws::outer_by_parts, vale_seen::proofs::PartLaws::nodes))]
fn is_outer_local(place: &Expr) -> bool
    ensures { result ≡ is_outer_local (view_expr place.now) }
{
    match &place.node {
        Node::Name { is_outer, .. } => *is_outer,
        _ => false,
    }
}

/// Whether a value of this type is an `&imm X` where the place is an `&X`.
fn place_thaws(ty: &Ty, place: &Option<Ty>) -> bool
    ensures { result ≡ option_map_or (thaws (view_ty ty.now)) (option_map view_ty place.now) false }
{
    match place {
        Some(asked) => thaws(ty, asked),
        None => false,
    }
}

/// `set p = e`, where the value has this type.
pub fn set_fault(place: &Expr, ty: &Ty) -> Option<u8>
    ensures { result ≡ broken (set_rules (view_expr place.now) (view_ty ty.now)) }
{
    if is_frozen_place(place) {
        return Some(40);
    }
    if place_thaws(ty, &seen_of(place).place) {
        return Some(41);
    }
    if is_outer_local(place) {
        return Some(42);
    }
    None
}
