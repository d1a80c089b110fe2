// The kinds of a program.
ghost use Rattle.std.specs.Prelude.{◌≡◌, map, flat_map, option_map, IfOk, OnOk};
ghost use Rattle.vale_syntax.specs.View.{view_type, view_field, view_head, view_param};
ghost use Rattle.vale_rules_spec.specs.Types.{type_of, result_of};
ghost use Rattle.vale_rules_spec.specs.Declarations.{param_type, field_type};
ghost use Rattle.vale_core.specs.View.{view_item, view_function};
ghost use Rattle.vale_model.specs.Kinds as k;
ghost use Rattle.vale_model.specs.Kinds.{arrays_in, head_arrays, declared_arrays, made_arrays, head_of, body_of, block_arrays};
ghost use Rattle.vale_lower_kinds.specs.Added.{added};
ghost use Rattle.vale_lower_kinds.specs.Held.{kinds_in};

use crate::arrays::add_block;
use crate::kinds::Kinds;
use crate::named::Named;
use std::alloc::Global;
use vale_base::Memory;
use vale_core::{Function, Item};
use vale_seen::{result_of, type_of};
use vale_syntax::{FieldDecl, Head, Param, TypeExpr};

fn add_written(alloc: Global, ty: &TypeExpr, kinds: &mut Kinds) -> Result<(), Memory>
    ensures { OnOk result (kinds_in kinds.new ≡ added (kinds_in kinds.old) (arrays_in (type_of (view_type ty.now)))) }
{
    let ty = type_of(alloc, ty)?;
    kinds.add_arrays_in(alloc, &ty)
}

fn add_fields(alloc: Global, fields: &[FieldDecl], kinds: &mut Kinds) -> Result<(), Memory>
    ensures { OnOk result (kinds_in kinds.new ≡ added (kinds_in kinds.old) (flat_map (λ f. arrays_in (type_of (field_type f))) (map view_field fields.now))) }
{
    for field in fields {
        add_written(alloc, &field.ty, kinds)?;
    }
    Ok(())
}

fn add_params(alloc: Global, params: &[Param], kinds: &mut Kinds) -> Result<(), Memory>
    ensures { OnOk result (kinds_in kinds.new ≡ added (kinds_in kinds.old) (flat_map (λ p. arrays_in (type_of (param_type p))) (map view_param params.now))) }
{
    for param in params {
        add_written(alloc, &param.ty, kinds)?;
    }
    Ok(())
}

#[tactic(auto, using(crate::proofs::ItemLaws::adds))]
fn add_head(alloc: Global, head: &Head, kinds: &mut Kinds) -> Result<(), Memory>
    ensures { OnOk result (kinds_in kinds.new ≡ added (kinds_in kinds.old) (head_arrays (view_head head.now))) }
{
    add_params(alloc, head.params.as_slice(), kinds)?;
    let result = result_of(alloc, &head.result)?;
    kinds.add_arrays_in(alloc, &result)
}

fn add_heads(alloc: Global, heads: &[Head], kinds: &mut Kinds) -> Result<(), Memory>
    ensures { OnOk result (kinds_in kinds.new ≡ added (kinds_in kinds.old) (flat_map head_arrays (map view_head heads.now))) }
{
    for head in heads {
        add_head(alloc, head, kinds)?;
    }
    Ok(())
}

fn add_function_heads(
    alloc: Global,
    functions: &[Function],
    kinds: &mut Kinds,
) -> Result<(), Memory>
    ensures { OnOk result (kinds_in kinds.new ≡ added (kinds_in kinds.old) (flat_map (λ f. head_arrays (head_of f)) (map view_function functions.now))) }
{
    for function in functions {
        add_head(alloc, &function.head, kinds)?;
    }
    Ok(())
}

fn add_declared(alloc: Global, item: &Item, kinds: &mut Kinds) -> Result<(), Memory>
    ensures { OnOk result (kinds_in kinds.new ≡ added (kinds_in kinds.old) (declared_arrays (view_item item.now))) }
{
    match item {
        Item::Struct(_, fields) => add_fields(alloc, fields.as_slice(), kinds),
        Item::Interface(_, heads) => add_heads(alloc, heads.as_slice(), kinds),
        Item::Impl(_, _, _, functions) => add_function_heads(alloc, functions.as_slice(), kinds),
        Item::Function(function) => add_head(alloc, &function.head, kinds),
    }
}

fn add_bodies(alloc: Global, functions: &[Function], kinds: &mut Kinds) -> Result<(), Memory>
    ensures { OnOk result (kinds_in kinds.new ≡ added (kinds_in kinds.old) (flat_map (λ f. block_arrays (body_of f)) (map view_function functions.now))) }
{
    for function in functions {
        add_block(alloc, &function.body, kinds)?;
    }
    Ok(())
}

fn add_made(alloc: Global, item: &Item, kinds: &mut Kinds) -> Result<(), Memory>
    ensures { OnOk result (kinds_in kinds.new ≡ added (kinds_in kinds.old) (made_arrays (view_item item.now))) }
{
    match item {
        Item::Impl(_, _, _, functions) => add_bodies(alloc, functions.as_slice(), kinds),
        Item::Function(function) => add_block(alloc, &function.body, kinds),
        Item::Struct(..) | Item::Interface(..) => Ok(()),
    }
}

fn add_all_declared(alloc: Global, items: &[Item], kinds: &mut Kinds) -> Result<(), Memory>
    ensures { OnOk result (kinds_in kinds.new ≡ added (kinds_in kinds.old) (flat_map declared_arrays (map view_item items.now))) }
{
    for item in items {
        add_declared(alloc, item, kinds)?;
    }
    Ok(())
}

fn add_all_made(alloc: Global, items: &[Item], kinds: &mut Kinds) -> Result<(), Memory>
    ensures { OnOk result (kinds_in kinds.new ≡ added (kinds_in kinds.old) (flat_map made_arrays (map view_item items.now))) }
{
    for item in items {
        add_made(alloc, item, kinds)?;
    }
    Ok(())
}

/// The kinds of the program of these items.
#[tactic(auto, using(crate::proofs::ItemLaws::wholes))]
pub fn kinds_of(alloc: Global, items: &[Item]) -> Result<Kinds, Memory>
    ensures { IfOk result (λ t. kinds_in t ≡ k.kinds_of (map view_item items.now)) }
{
    let mut kinds = Kinds::of(alloc, Named::among(alloc, items)?);
    add_all_declared(alloc, items, &mut kinds)?;
    add_all_made(alloc, items, &mut kinds)?;
    Ok(kinds)
}
