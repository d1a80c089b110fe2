// Fields and heads.
ghost use Rattle.std.specs.Prelude.{◌≡◌, map, option_map, List, [], ◌∷◌, OnOk};
ghost use Rattle.vale_syntax.specs.Tree as t;
ghost use Rattle.vale_rules_spec.specs.Judged.{stopped, one_by_one, Gives};
ghost use Rattle.vale_syntax.specs.View.{view_item, view_type, view_field, view_param, view_head};
ghost use Rattle.vale_rules_spec.specs.Declarations.{field_name, param_name};
ghost use Rattle.vale_rules_spec.specs.DeclFaults.{field_faults, param_faults, result_faults, inside_head};
ghost use Rattle.vale_types.specs.Known.{Knows};
ghost use Rattle.vale_types.specs.Before.{AreNamesOf};

use crate::known::Known;
use crate::types::{check_type, kept};
use std::alloc::Global;
use vale_base::Fail;
use vale_names::Names;
use vale_syntax::{Fault, FieldDecl, Head, Item, Param, Position, TypeExpr};

/// The first fault of a field, whose name is put among those of the fields before it.
fn check_field(
    items: &[Item],
    known: &Known,
    before: &mut Names,
    field: &FieldDecl,
) -> Result<(), Fail<Fault>>
    requires { Knows (map view_item items.now) known.now }
    ensures fault { (fs : List t.FieldDecl) → AreNamesOf field_name before.old fs → Gives (λ x. x) result (stopped (field_faults (map view_item items.now) fs (view_field field.now)) tt) }
    ensures names { OnOk result ((fs : List t.FieldDecl) → AreNamesOf field_name before.old fs → AreNamesOf field_name before.new (view_field field.now ∷ fs)) }
{
    check_type(items, known, Position::Field, &field.ty)?;
    let is_new = before.insert(field.name.name)?;
    kept(field.name.at, 10, is_new)?;
    Ok(())
}

/// The first fault of the fields of a struct.
pub fn check_fields(
    alloc: Global,
    items: &[Item],
    known: &Known,
    fields: &[FieldDecl],
) -> Result<(), Fail<Fault>>
    requires { Knows (map view_item items.now) known.now }
    ensures { Gives (λ x. x) result (stopped (one_by_one (field_faults (map view_item items.now)) [] (map view_field fields.now)) tt) }
{
    let mut before = Names::new(alloc);
    for field in fields {
        check_field(items, known, &mut before, field)?;
    }
    Ok(())
}

/// The first fault of a parameter, whose name is put among those of the parameters before it.
fn check_param(
    items: &[Item],
    known: &Known,
    before: &mut Names,
    param: &Param,
) -> Result<(), Fail<Fault>>
    requires { Knows (map view_item items.now) known.now }
    ensures fault { (ps : List t.Param) → AreNamesOf param_name before.old ps → Gives (λ x. x) result (stopped (param_faults (map view_item items.now) ps (view_param param.now)) tt) }
    ensures names { OnOk result ((ps : List t.Param) → AreNamesOf param_name before.old ps → AreNamesOf param_name before.new (view_param param.now ∷ ps)) }
{
    check_type(items, known, Position::Value, &param.ty)?;
    let is_new = before.insert(param.name.name)?;
    kept(param.name.at, 10, is_new)?;
    Ok(())
}

fn check_params(
    alloc: Global,
    items: &[Item],
    known: &Known,
    params: &[Param],
) -> Result<(), Fail<Fault>>
    requires { Knows (map view_item items.now) known.now }
    ensures { Gives (λ x. x) result (stopped (one_by_one (param_faults (map view_item items.now)) [] (map view_param params.now)) tt) }
{
    let mut before = Names::new(alloc);
    for param in params {
        check_param(items, known, &mut before, param)?;
    }
    Ok(())
}

fn check_result(items: &[Item], known: &Known, result_type: &Option<TypeExpr>) -> Result<(), Fault>
    requires { Knows (map view_item items.now) known.now }
    ensures { result ≡ stopped (result_faults (map view_item items.now) (option_map view_type result_type.now)) tt }
{
    match result_type {
        Some(ty) => check_type(items, known, Position::Value, ty),
        None => Ok(()),
    }
}

/// The first fault of what a head has in it.
pub fn check_head(
    alloc: Global,
    items: &[Item],
    known: &Known,
    head: &Head,
) -> Result<(), Fail<Fault>>
    requires { Knows (map view_item items.now) known.now }
    ensures { Gives (λ x. x) result (stopped (inside_head (map view_item items.now) (view_head head.now)) tt) }
{
    check_params(alloc, items, known, head.params.as_slice())?;
    check_result(items, known, &head.result)?;
    Ok(())
}
