// The types of a program, as they are written.
ghost use Rattle.std.specs.Prelude.{◌≡◌, map, [], ◌∷◌};
ghost use Rattle.vale_rules_spec.specs.Judged.{stopped, own};
ghost use Rattle.vale_syntax.specs.View.{view_item, view_type};
ghost use Rattle.vale_rules_spec.specs.Declarations.{is_object, is_isolates, reaches_iso};
ghost use Rattle.vale_rules_spec.specs.DeclRules.{may_hold_frozen, may_hold_isolates, array_rules, ref_rules, imm_ref_rules, iso_rules, named_rules};
ghost use Rattle.vale_rules_spec.specs.DeclFaults.{type_faults};
ghost use Rattle.vale_types.specs.Known.{Knows};

use crate::known::Known;
use vale_base::{Name, Spot};
use vale_names::{base_of, has_iso};
use vale_syntax::{Fault, Item, NameAt, Position, TypeExpr};

/// The fault of this code, where the rule is broken.
pub fn kept(at: Spot, code: u8, holds: bool) -> Result<(), Fault>
    ensures { result ≡ stopped (own at ((code, holds) ∷ [])) tt }
{
    if holds {
        Ok(())
    } else {
        Err(Fault { code, at })
    }
}

fn is_object(ty: &TypeExpr) -> bool
    ensures { result ≡ is_object (view_type ty.now) }
{
    matches!(ty, TypeExpr::Named(_) | TypeExpr::Array(..))
}

fn is_isolates(ty: &TypeExpr) -> bool
    ensures { result ≡ is_isolates (view_type ty.now) }
{
    match ty {
        TypeExpr::Iso(..) => true,
        TypeExpr::Array(_, element) => is_isolates(element.get()),
        _ => false,
    }
}

fn may_hold_frozen(position: Position) -> bool
    ensures { result ≡ may_hold_frozen position }
{
    match position {
        Position::Value => true,
        Position::Field => false,
        Position::Element => false,
    }
}

fn may_hold_isolates(position: Position) -> bool
    ensures { result ≡ may_hold_isolates position }
{
    match position {
        Position::Field => false,
        Position::Value => true,
        Position::Element => true,
    }
}

fn reaches_iso(items: &[Item], known: &Known, ty: &TypeExpr) -> bool
    requires { Knows (map view_item items.now) known.now }
    ensures { result ≡ reaches_iso (map view_item items.now) (view_type ty.now) }
{
    if has_iso(ty) {
        return true;
    }
    match base_of(ty) {
        Some(name) => known.isos.has(Name(name)),
        None => false,
    }
}

fn named(items: &[Item], known: &Known, name: NameAt) -> Result<(), Fault>
    requires { Knows (map view_item items.now) known.now }
    ensures { result ≡ stopped (own name.at (named_rules (map view_item items.now) name)) tt }
{
    kept(name.at, 11, known.kinds.has(name.name))
}

fn array(at: Spot, position: Position, element: &TypeExpr) -> Result<(), Fault>
    ensures { result ≡ stopped (own at (array_rules position (view_type element.now))) tt }
{
    kept(at, 16, !is_isolates(element) || may_hold_isolates(position))
}

fn reference(at: Spot, target: &TypeExpr) -> Result<(), Fault>
    ensures { result ≡ stopped (own at (ref_rules (view_type target.now))) tt }
{
    kept(at, 16, is_object(target))
}

fn frozen_reference(at: Spot, position: Position, target: &TypeExpr) -> Result<(), Fault>
    ensures { result ≡ stopped (own at (imm_ref_rules position (view_type target.now))) tt }
{
    kept(at, 16, is_object(target) && may_hold_frozen(position))
}

fn isolate(
    items: &[Item],
    known: &Known,
    at: Spot,
    position: Position,
    root: &TypeExpr,
) -> Result<(), Fault>
    requires { Knows (map view_item items.now) known.now }
    ensures { result ≡ stopped (own at (iso_rules (map view_item items.now) position (view_type root.now))) tt }
{
    let is_object = is_object(root);
    if is_object && reaches_iso(items, known, root) {
        return Err(Fault { code: 14, at });
    }
    kept(at, 16, is_object && may_hold_isolates(position))
}

/// The first fault of a type in this position.
#[tactic(auto, using(vale_rules_spec::proofs::JudgedLaws::stopped_then, crate::proofs::TypeLaws::isolate_then))]
pub fn check_type(
    items: &[Item],
    known: &Known,
    position: Position,
    ty: &TypeExpr,
) -> Result<(), Fault>
    requires { Knows (map view_item items.now) known.now }
    ensures { result ≡ stopped (type_faults (map view_item items.now) position (view_type ty.now)) tt }
{
    match ty {
        TypeExpr::Int(_) | TypeExpr::Bool(_) | TypeExpr::Str(_) => Ok(()),
        TypeExpr::Named(name) => named(items, known, *name),
        TypeExpr::Array(at, element) => {
            check_type(items, known, Position::Element, element.get())?;
            array(*at, position, element.get())
        }
        TypeExpr::Ref(at, target) => {
            check_type(items, known, Position::Value, target.get())?;
            reference(*at, target.get())
        }
        TypeExpr::ImmRef(at, target) => {
            check_type(items, known, Position::Value, target.get())?;
            frozen_reference(*at, position, target.get())
        }
        TypeExpr::Iso(at, root) => {
            check_type(items, known, Position::Value, root.get())?;
            isolate(items, known, *at, position, root.get())
        }
    }
}
