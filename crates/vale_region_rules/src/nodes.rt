// Names, `pure` blocks and `return`.
ghost use Rattle.std.specs.Prelude.{◌≡◌, option_map};
ghost use Rattle.vale_rules_spec.specs.Judged.{broken};
ghost use Rattle.vale_rules_spec.specs.Takes.{is_value_under};
ghost use Rattle.vale_rules_spec.specs.TypeRules.{is_owned_place};
ghost use Rattle.vale_core.specs.View.{view_ty, view_seen};
ghost use Rattle.vale_region_spec.specs.RegionRules.{name_rules, pure_rules, return_rules, return_nothing_rules};

use crate::types::{is_imm, is_reference};
use vale_core::{Seen, Ty};
use vale_region_spec::Around;
use vale_syntax::UnaryOp;

/// Whether the operand is used as a value: under `&` it isn't.
pub fn is_value_under(op: UnaryOp) -> bool
    ensures { result ≡ is_value_under op }
{
    !matches!(op, UnaryOp::Borrow)
}

fn is_owned_place(place: &Option<Ty>) -> bool
    ensures { result ≡ is_owned_place (option_map view_ty place.now) }
{
    match place {
        Some(ty) => ty.is_owned(),
        None => false,
    }
}

/// The name of a local.
pub fn name_fault(as_value: bool, seen: &Seen, is_outer: bool) -> Option<u8>
    ensures { result ≡ broken (name_rules as_value (view_seen seen.now) is_outer) }
{
    if as_value && is_outer && is_owned_place(&seen.place) {
        return Some(42);
    }
    None
}

/// A `pure` block that gives this.
pub fn pure_fault(ty: &Ty) -> Option<u8>
    ensures { result ≡ broken (pure_rules (view_ty ty.now)) }
{
    if is_reference(ty) {
        return Some(41);
    }
    None
}

/// `return;`.
pub fn return_nothing_fault(around: Around) -> Option<u8>
    ensures { result ≡ broken (return_nothing_rules around) }
{
    if around.is_inside {
        return Some(44);
    }
    None
}

/// `return e;`, by the type of the value.
pub fn return_fault(around: Around, ty: &Ty) -> Option<u8>
    ensures { result ≡ broken (return_rules around (view_ty ty.now)) }
{
    if is_imm(ty) && around.gives_ref {
        return Some(41);
    }
    return_nothing_fault(around)
}
