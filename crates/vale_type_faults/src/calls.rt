// Calls, by the types of their arguments.
ghost use Rattle.std.specs.Prelude.{◌≡◌, false, map, IfOk};
ghost use Rattle.std.specs.List.{list_all};
ghost use Rattle.vale_rules_spec.specs.Judged.{broken};
ghost use Rattle.vale_syntax.specs.View.{view_type};
ghost use Rattle.vale_rules_spec.specs.Types.{type_of};
ghost use Rattle.vale_rules_spec.specs.TypeRules.{called, called_rules, called_gives, callee, built_in_rules, call_rules, array_rules};
ghost use Rattle.vale_core.specs.View.{view_ty, view_callee};
ghost use Rattle.vale_lookup.specs.Table.{names_of, items_of};
ghost use Rattle.vale_type_faults.specs.Called.{view_called};

use std::alloc::Global;
use vale_base::Memory;
use vale_core::{Callee, Ty};
use vale_lookup::{Table, built_in_named};
use vale_seen::{field_types, param_types, result_of};
use vale_syntax::{BuiltIn, FieldDecl, Head, NameAt};
use vale_type_rules::{all_fit, arity, built_in_gives, each_fits, takes_arguments};

/// What a name stands for in a call: nothing, a function of the language, a struct with its fields, or a function of the
/// program with its head.
#[derive(Drop)]
pub enum Called<'a> {
    Nothing,
    Language(BuiltIn),
    Struct(&'a [FieldDecl]),
    Program(&'a Head),
}

/// What the name stands for.
pub fn called_by<'a>(table: &'a Table, name: NameAt) -> Called<'a>
    ensures { view_called result ≡ called (names_of table.now) (items_of table.now) name }
{
    if let Some(function) = built_in_named(table, name) {
        return Called::Language(function);
    }
    if let Some(fields) = table.fields_of(name.name) {
        return Called::Struct(fields);
    }
    match table.function_named(name.name) {
        Some(head) => Called::Program(head),
        None => Called::Nothing,
    }
}

fn built_in_fault(table: &Table, function: BuiltIn, args: &[Ty]) -> Option<u8>
    ensures { result ≡ broken (built_in_rules (items_of table.now) function (map view_ty args.now)) }
{
    if args.len() != arity(function) {
        return Some(22);
    }
    if !takes_arguments(table, function, args) {
        return Some(20);
    }
    None
}

/// A constructor or a function that takes these.
fn takes_fault(table: &Table, is_pure: bool, takes: &[Ty], args: &[Ty]) -> Option<u8>
    ensures { result ≡ broken (call_rules (items_of table.now) is_pure (map view_ty takes.now) (map view_ty args.now)) }
{
    if args.len() != takes.len() {
        return Some(22);
    }
    if !all_fit(table, is_pure, args, takes) {
        return Some(20);
    }
    None
}

/// A call with arguments of these types.
pub fn called_fault(
    alloc: Global,
    table: &Table,
    called: &Called<'_>,
    args: &[Ty],
) -> Result<Option<u8>, Memory>
    ensures { IfOk result (λ code. code ≡ broken (called_rules (items_of table.now) (view_called called.now) (map view_ty args.now))) }
{
    match called {
        Called::Nothing => Ok(Some(21)),
        Called::Language(function) => Ok(built_in_fault(table, *function, args)),
        Called::Struct(fields) => {
            let takes = field_types(alloc, fields)?;
            Ok(takes_fault(table, false, &takes, args))
        }
        Called::Program(head) => {
            let takes = param_types(alloc, head.params.as_slice())?;
            Ok(takes_fault(table, head.is_pure, &takes, args))
        }
    }
}

/// What the call gives.
#[tactic(auto, using(vale_seen::proofs::TyLaws::types))]
pub fn called_gives(
    alloc: Global,
    name: NameAt,
    called: &Called<'_>,
    args: &[Ty],
) -> Result<Ty, Memory>
    ensures { IfOk result (λ x. view_ty x ≡ called_gives name (view_called called.now) (map view_ty args.now)) }
{
    match called {
        Called::Nothing => Ok(Ty::Void),
        Called::Language(function) => built_in_gives(alloc, *function, args),
        Called::Struct(_) => Ok(Ty::kind(name.name)),
        Called::Program(head) => result_of(alloc, &head.result),
    }
}

/// What is called, as it stands in the typed tree.
pub fn callee(called: &Called<'_>) -> Callee
    ensures { view_callee result ≡ callee (view_called called.now) }
{
    match called {
        Called::Nothing | Called::Struct(_) => Callee::Constructor,
        Called::Language(function) => Callee::BuiltIn(*function),
        Called::Program(head) => Callee::Function(head.is_pure),
    }
}

/// `[]T(args)`.
pub fn array_fault(table: &Table, element: &Ty, args: &[Ty]) -> Option<u8>
    ensures { result ≡ broken (array_rules (items_of table.now) (view_ty element.now) (map view_ty args.now)) }
{
    if !each_fits(table, element, args) {
        return Some(20);
    }
    None
}
