// Calls, by their arguments.
ghost use Rattle.std.specs.Prelude.{◌≡◌, ◌∷◌, map, option_map};
ghost use Rattle.std.specs.List.{list_any};
ghost use Rattle.vale_syntax.specs.declared.built_in.BuiltIn.TheVariants as b;
ghost use Rattle.vale_rules_spec.specs.Judged.{broken};
ghost use Rattle.vale_syntax.specs.View.{view_type, view_param, view_field, view_head};
ghost use Rattle.vale_rules_spec.specs.Types.{method_named};
ghost use Rattle.vale_rules_spec.specs.Typed.{types};
ghost use Rattle.vale_rules_spec.specs.TypeRules.{param_types, field_types, method_takes};
ghost use Rattle.vale_core.specs.View.{view_ty, view_view, view_callee, view_expr, exprs_of};
ghost use Rattle.vale_region_spec.specs.RegionRules.{any_thaws, changes_frozen, built_in_thaws, takes_of, item_named, call_thaws, call_rules, method_called, receiver_thaws, method_thaws, method_rules, thaws, array_rules};
ghost use Rattle.vale_region_rules.specs.Items.{items_of};

use crate::signatures::Signatures;
use crate::types::{holds_refs, is_imm, is_written_ref, thaws, thaws_at};
use vale_base::Name;
use vale_core::{Callee, Expr, Item, Ty, View};
use vale_seen::{is_frozen, seen_object, type_in};
use vale_syntax::{BuiltIn, FieldDecl, Head, NameAt, Param};

/// Whether one of the arguments is an `&imm X` where its parameter is an `&X`.
fn params_thaw(args: &[Expr], params: &[Param]) -> bool
    ensures { result ≡ any_thaws (types (exprs_of (map view_expr args.now))) (param_types (map view_param params.now)) }
{
    let mut left = params;
    for arg in args {
        match left {
            [] => return false,
            [param, more @ ..] => {
                if thaws_at(type_in(arg), &param.ty) {
                    return true;
                }
                left = more;
            }
        }
    }
    false
}

/// Whether one of the arguments is an `&imm X` where its field is an `&X`.
fn fields_thaw(args: &[Expr], fields: &[FieldDecl]) -> bool
    ensures { result ≡ any_thaws (types (exprs_of (map view_expr args.now))) (field_types (map view_field fields.now)) }
{
    let mut left = fields;
    for arg in args {
        match left {
            [] => return false,
            [field, more @ ..] => {
                if thaws_at(type_in(arg), &field.ty) {
                    return true;
                }
                left = more;
            }
        }
    }
    false
}

/// Whether a built-in function changes an array that is seen as `&imm`.
fn changes_frozen(callee: Callee, args: &[Expr]) -> bool
    ensures { result ≡ changes_frozen (view_callee callee) (types (exprs_of (map view_expr args.now))) }
{
    match callee {
        Callee::BuiltIn(BuiltIn::Push | BuiltIn::Pop) => match args {
            [array, _more @ ..] => is_imm(type_in(array)),
            [] => false,
        },
        _ => false,
    }
}

/// Whether the first of these is an `&imm X` where the elements of the array are `&X`.
fn push_thaws(array: &Ty, args: &[Expr]) -> bool
    ensures { result ≡ built_in_thaws b.Push (view_ty array.now ∷ types (exprs_of (map view_expr args.now))) }
{
    match args {
        [] => false,
        [value, _more @ ..] => is_imm(type_in(value)) && holds_refs(array),
    }
}

/// Whether an `&imm X` is pushed where the elements are `&X`.
fn built_in_thaws(function: BuiltIn, args: &[Expr]) -> bool
    ensures { result ≡ built_in_thaws function (types (exprs_of (map view_expr args.now))) }
{
    match function {
        BuiltIn::Push => match args {
            [] => false,
            [array, more @ ..] => push_thaws(type_in(array), more),
        },
        _ => false,
    }
}

/// Whether an argument of a constructor or a function is an `&imm X` where an `&X` is asked for.
#[tactic(auto, using(crate::proofs::CallLaws::none_asked))]
fn item_thaws(signatures: &Signatures<'_>, name: Name, args: &[Expr]) -> bool
    ensures { result ≡ any_thaws (types (exprs_of (map view_expr args.now))) (takes_of (item_named (items_of signatures.now) name.0)) }
{
    match signatures.named(name) {
        Some(Item::Struct(_, fields)) => fields_thaw(args, fields.as_slice()),
        Some(Item::Function(function)) => params_thaw(args, function.head.params.as_slice()),
        Some(Item::Interface(..) | Item::Impl(..)) => false,
        None => false,
    }
}

/// Whether an argument is an `&imm X` where an `&X` is asked for.
fn call_thaws(signatures: &Signatures<'_>, name: NameAt, callee: Callee, args: &[Expr]) -> bool
    ensures { result ≡ call_thaws (items_of signatures.now) name (view_callee callee) (types (exprs_of (map view_expr args.now))) }
{
    match callee {
        Callee::BuiltIn(function) => built_in_thaws(function, args),
        Callee::Constructor | Callee::Function(_) => item_thaws(signatures, name.name, args),
    }
}

/// A call of a function or a constructor.
pub fn call_fault(
    signatures: &Signatures<'_>,
    name: NameAt,
    callee: Callee,
    args: &[Expr],
) -> Option<u8>
    ensures { result ≡ broken (call_rules (items_of signatures.now) name (view_callee callee) (types (exprs_of (map view_expr args.now)))) }
{
    if changes_frozen(callee, args) {
        return Some(40);
    }
    if call_thaws(signatures, name, callee, args) {
        return Some(41);
    }
    None
}

fn method_named(heads: &[Head], name: Name) -> Option<&Head>
    ensures { option_map (λ h. view_head h.now) result ≡ method_named (map view_head heads.now) name.0 }
{
    for head in heads {
        if head.name.name.0 == name.0 {
            return Some(head);
        }
    }
    None
}

/// The method that a step calls.
#[tactic(auto, using(vale_seen::proofs::TyLaws::types))]
fn method_called<'a>(signatures: &'a Signatures<'_>, base: &View, name: Name) -> Option<&'a Head>
    ensures { option_map (λ h. view_head h.now) result ≡ method_called (items_of signatures.now) (view_view base.now) name.0 }
{
    match seen_object(base) {
        Some(Ty::Kind(of)) => match signatures.named(*of) {
            Some(Item::Interface(_, heads)) => method_named(heads.as_slice(), name),
            _ => None,
        },
        _ => None,
    }
}

/// Whether the method takes its object as `&`, though the step sees it as `&imm`.
fn receiver_thaws(base: &View, head: &Head) -> bool
    ensures { result ≡ receiver_thaws (view_view base.now) (view_head head.now) }
{
    match head.params.as_slice() {
        [] => false,
        [receiver, _more @ ..] => is_frozen(base) && is_written_ref(&receiver.ty),
    }
}

/// What the method takes after its object.
fn method_takes(head: &Head) -> &[Param]
    ensures { param_types (map view_param result.now) ≡ method_takes (view_head head.now) }
{
    let params = head.params.as_slice();
    match params {
        [] => params,
        [_receiver, takes @ ..] => takes,
    }
}

/// Whether an argument of the method is an `&imm X` where an `&X` is asked for.
fn arguments_thaw(head: &Head, args: &[Expr]) -> bool
    ensures { result ≡ any_thaws (types (exprs_of (map view_expr args.now))) (method_takes (view_head head.now)) }
{
    params_thaw(args, method_takes(head))
}

/// `.m(args)`, by how the step sees its base.
pub fn method_fault(
    signatures: &Signatures<'_>,
    base: &View,
    name: Name,
    args: &[Expr],
) -> Option<u8>
    ensures { result ≡ broken (method_rules (view_view base.now) (method_called (items_of signatures.now) (view_view base.now) name.0) (types (exprs_of (map view_expr args.now)))) }
{
    match method_called(signatures, base, name) {
        None => None,
        Some(head) => {
            if receiver_thaws(base, head) || arguments_thaw(head, args) {
                return Some(41);
            }
            None
        }
    }
}

fn elements_thaw(element: &Ty, args: &[Expr]) -> bool
    ensures { result ≡ list_any (λ a. thaws a (view_ty element.now)) (types (exprs_of (map view_expr args.now))) }
{
    for arg in args {
        if thaws(type_in(arg), element) {
            return true;
        }
    }
    false
}

/// `[]T(args)`.
pub fn array_fault(element: &Ty, args: &[Expr]) -> Option<u8>
    ensures { result ≡ broken (array_rules (view_ty element.now) (types (exprs_of (map view_expr args.now)))) }
{
    if elements_thaw(element, args) {
        return Some(41);
    }
    None
}
