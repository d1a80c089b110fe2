// Steps, by what they start from.
ghost use Rattle.std.specs.Prelude.{◌≡◌, List, Some, map, IfOk, option_map};
ghost use Rattle.std.specs.Option.{option_and_then};
ghost use Rattle.vale_rules_spec.specs.Judged.{broken};
ghost use Rattle.vale_syntax.specs.Tree as e;
ghost use Rattle.vale_syntax.specs.View.{view_type, view_field, view_head};
ghost use Rattle.vale_rules_spec.specs.Types.{type_of, is_owned, method_named};
ghost use Rattle.vale_rules_spec.specs.TypeRules.{fields_seen, methods_seen, elements_seen, field_rules, index_rules, method_rules, method_gives, part_of};
ghost use Rattle.vale_rules_spec.specs.Typing.{type_in, is_settable};
ghost use Rattle.vale_core.specs.View.{view_ty, view_view, view_seen};
ghost use Rattle.vale_lookup.specs.Table.{items_of};

use std::alloc::Global;
use vale_base::{Memory, Name};
use vale_core::{Seen, Ty, View};
use vale_lookup::Table;
use vale_seen::{
    a_value, is_frozen, is_loose, method_takes, needs_frozen, part_seen, result_of, type_of,
};
use vale_syntax::{FieldDecl, Head, TypeExpr};
use vale_type_rules::{all_fit, elements_seen, fields_seen, is_int, method_seen, methods_seen};

#[tactic(auto, using(vale_seen::proofs::TyLaws::types))]
fn is_owned(ty: &TypeExpr) -> bool
    ensures { result ≡ is_owned (type_of (view_type ty.now)) }
{
    match ty {
        TypeExpr::Named(_) | TypeExpr::Array(..) | TypeExpr::Iso(..) => true,
        TypeExpr::Int(_) | TypeExpr::Bool(_) | TypeExpr::Str(_) => false,
        TypeExpr::Ref(..) | TypeExpr::ImmRef(..) => false,
    }
}

/// `.f`, where the base has this field, if it has one of the name.
pub fn field_fault(
    table: &Table,
    as_value: bool,
    base: &Seen,
    field: Option<&FieldDecl>,
) -> Option<u8>
    ensures { result ≡ broken (field_rules as_value (view_seen base.now) (fields_seen (items_of table.now) (view_view base.now.view)) (type_in (option_map (λ f. view_field f.now) field.entry))) }
{
    match fields_seen(table, &base.view) {
        None => { if is_loose(base) { Some(25) } else { Some(20) } }
        Some(_fields) => match field {
            None => Some(21),
            Some(field) => {
                if is_loose(base) {
                    return Some(25);
                }
                if as_value && is_owned(&field.ty) {
                    return Some(28);
                }
                None
            }
        },
    }
}

/// What the field gives, read from what is seen so.
#[tactic(auto, using(vale_seen::proofs::TyLaws::types))]
pub fn field_gives(alloc: Global, view: &View, field: Option<&FieldDecl>) -> Result<Seen, Memory>
    ensures { IfOk result (λ s. view_seen s ≡ part_of (view_view view.now) (type_in (option_map (λ f. view_field f.now) field.entry))) }
{
    match field {
        None => a_value(alloc, Ty::Void),
        Some(field) => part_seen(alloc, view, type_of(alloc, &field.ty)?),
    }
}

/// Whether the field is declared with `!`.
pub fn is_settable(field: Option<&FieldDecl>) -> bool
    ensures { result ≡ is_settable (option_map (λ f. view_field f.now) field.entry) }
{
    match field {
        None => false,
        Some(field) => field.may_be_set,
    }
}

/// `[e]`, where the index has this type.
pub fn index_fault(as_value: bool, base: &Seen, ty: &Ty) -> Option<u8>
    ensures { result ≡ broken (index_rules as_value (view_seen base.now) (elements_seen (view_view base.now.view)) (view_ty ty.now)) }
{
    if !is_int(ty) {
        return Some(20);
    }
    match elements_seen(&base.view) {
        None => { if is_loose(base) { Some(25) } else { Some(20) } }
        Some(element) => {
            if is_loose(base) {
                return Some(25);
            }
            if as_value && element.is_owned() {
                return Some(28);
            }
            None
        }
    }
}

/// What an element gives, read from what is seen so.
#[tactic(auto, using(vale_seen::proofs::TyLaws::types))]
pub fn element_gives(alloc: Global, view: &View) -> Result<Seen, Memory>
    ensures { IfOk result (λ s. view_seen s ≡ part_of (view_view view.now) (elements_seen (view_view view.now))) }
{
    match elements_seen(view) {
        None => a_value(alloc, Ty::Void),
        Some(element) => part_seen(alloc, view, element.copy(alloc)?),
    }
}

/// A call of this method on a base that has methods.
fn call_fault(
    alloc: Global,
    table: &Table,
    base: &Seen,
    head: &Head,
    args: &[Ty],
) -> Result<Option<u8>, Memory>
    ensures { IfOk result (λ code. (methods : List e.Head) → code ≡ broken (method_rules (items_of table.now) (view_seen base.now) (Some methods) (Some (view_head head.now)) (map view_ty args.now))) }
{
    let takes = method_takes(alloc, head)?;
    if needs_frozen(head) && !is_frozen(&base.view) {
        return Ok(Some(20));
    }
    if args.len() != takes.len() {
        return Ok(Some(22));
    }
    if !all_fit(table, head.is_pure, args, &takes) {
        return Ok(Some(20));
    }
    if is_loose(base) {
        Ok(Some(25))
    } else {
        Ok(None)
    }
}

/// `.m(args)`, with arguments of these types.
pub fn method_fault(
    alloc: Global,
    table: &Table,
    base: &Seen,
    name: Name,
    args: &[Ty],
) -> Result<Option<u8>, Memory>
    ensures { IfOk result (λ code. code ≡ broken (method_rules (items_of table.now) (view_seen base.now) (methods_seen (items_of table.now) (view_view base.now.view)) (option_and_then (λ hs. method_named hs name.0) (methods_seen (items_of table.now) (view_view base.now.view))) (map view_ty args.now))) }
{
    match methods_seen(table, &base.view) {
        None => {
            if is_loose(base) {
                Ok(Some(25))
            } else {
                Ok(Some(20))
            }
        }
        Some(_methods) => match method_seen(table, &base.view, name) {
            None => Ok(Some(21)),
            Some(head) => {
                let code = call_fault(alloc, table, base, head, args)?;
                Ok(code)
            }
        },
    }
}

/// What the method of this name gives.
#[tactic(auto, using(vale_seen::proofs::TyLaws::types))]
pub fn method_gives(alloc: Global, table: &Table, view: &View, name: Name) -> Result<Seen, Memory>
    ensures { IfOk result (λ s. view_seen s ≡ method_gives (option_and_then (λ hs. method_named hs name.0) (methods_seen (items_of table.now) (view_view view.now)))) }
{
    match method_seen(table, view, name) {
        None => a_value(alloc, Ty::Void),
        Some(head) => a_value(alloc, result_of(alloc, &head.result)?),
    }
}
