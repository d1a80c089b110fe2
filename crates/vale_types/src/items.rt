// Items.
ghost use Rattle.std.specs.Prelude.{◌≡◌, ℕ, map, List, [], ◌∷◌, OnOk, true};
ghost use Rattle.std.specs.List.{list_any, list_all};
ghost use Rattle.vale_syntax.specs.Tree as t;
ghost use Rattle.vale_rules_spec.specs.Judged.{stopped, one_by_one, own, Gives};
ghost use Rattle.vale_syntax.specs.View.{view_item, view_field, view_head, view_function};
ghost use Rattle.vale_rules_spec.specs.Declarations.{is_function_with, is_lawful_main};
ghost use Rattle.vale_rules_spec.specs.DeclRules as rules;
ghost use Rattle.vale_rules_spec.specs.DeclFaults.{item_faults};
ghost use Rattle.vale_types.specs.Known.{Knows};
ghost use Rattle.vale_types.specs.Before.{IsOf};
ghost use Rattle.vale_types.specs.Plain.{is_plain};

use crate::before::Before;
use crate::body::walk_block;
use crate::heads::{check_fields, check_head};
use crate::known::Known;
use crate::special::{drops, is_drop, is_main};
use crate::texts::is_built_in;
use crate::types::kept;
use std::alloc::Global;
use vale_base::{Fail, LOCALS_LIMIT, Memory, Text};
use vale_names::Names;
use vale_syntax::{Fault, FieldDecl, Function, Head, Item, NameAt};

/// Whether neither an earlier item nor a built-in has the name.
fn is_new_item(names: &[Text], items: &[Item], before: &Before, name: NameAt) -> bool
    ensures { (bs : List t.Item) → IsOf names.now (map view_item items.now) bs before.now → result ≡ rules.is_new_item names.now bs name }
{
    !(is_built_in(names, name) || before.names.has(name.name))
}

fn is_new_drop(names: &[Text], items: &[Item], before: &Before, dropped: Option<NameAt>) -> bool
    ensures { (bs : List t.Item) → IsOf names.now (map view_item items.now) bs before.now → result ≡ rules.is_new_drop names.now (map view_item items.now) bs dropped }
{
    match dropped {
        None => true,
        Some(of) => !before.dropped.has(of.name),
    }
}

fn is_new_function(
    names: &[Text],
    items: &[Item],
    known: &Known,
    before: &Before,
    head: &Head,
) -> bool
    requires { Knows (map view_item items.now) known.now }
    ensures { (bs : List t.Item) → IsOf names.now (map view_item items.now) bs before.now → result ≡ rules.is_new_function names.now (map view_item items.now) bs (view_head head.now) }
{
    if is_drop(names, head) {
        is_new_drop(names, items, before, drops(names, items, known, head))
    } else {
        is_new_item(names, items, before, head.name)
    }
}

/// The fault of a function by itself.
fn check_function_row(
    names: &[Text],
    items: &[Item],
    known: &Known,
    has_lawful_main: bool,
    before: &Before,
    head: &Head,
    has_room: bool,
) -> Result<(), Fault>
    requires knows { Knows (map view_item items.now) known.now }
    requires main { has_lawful_main ≡ list_any (is_function_with (is_lawful_main names.now)) (map view_item items.now) }
    ensures { (bs : List t.Item) (declared : ℕ) → IsOf names.now (map view_item items.now) bs before.now → has_room ≡ rules.has_room (view_head head.now) declared → result ≡ stopped (own head.now.name.at (rules.function_rules names.now (map view_item items.now) bs (view_head head.now) declared)) tt }
{
    let at = head.name.at;
    kept(at, 10, is_new_function(names, items, known, before, head))?;
    let is_first_main = is_main(names, head) && !before.has_main;
    kept(at, 13, !is_first_main || has_lawful_main)?;
    kept(
        at,
        15,
        !is_drop(names, head) || drops(names, items, known, head).is_some(),
    )?;
    kept(at, 17, has_room)
}

fn check_function(
    alloc: Global,
    names: &[Text],
    items: &[Item],
    known: &Known,
    has_lawful_main: bool,
    before: &Before,
    function: &Function,
) -> Result<(), Fail<Fault>>
    requires knows { Knows (map view_item items.now) known.now }
    requires main { has_lawful_main ≡ list_any (is_function_with (is_lawful_main names.now)) (map view_item items.now) }
    ensures { (bs : List t.Item) → IsOf names.now (map view_item items.now) bs before.now → Gives (λ x. x) result (stopped (item_faults names.now (map view_item items.now) bs (t.function_item (view_function function.now))) tt) }
{
    check_head(alloc, items, known, &function.head)?;
    let room = (LOCALS_LIMIT + 1).saturating_sub(function.head.params.len());
    let left = walk_block(items, known, &function.body, room)?;
    check_function_row(
        names,
        items,
        known,
        has_lawful_main,
        before,
        &function.head,
        left > 0,
    )?;
    Ok(())
}

fn check_struct(
    alloc: Global,
    names: &[Text],
    items: &[Item],
    known: &Known,
    before: &Before,
    name: NameAt,
    fields: &[FieldDecl],
) -> Result<(), Fail<Fault>>
    requires { Knows (map view_item items.now) known.now }
    ensures { (bs : List t.Item) → IsOf names.now (map view_item items.now) bs before.now → Gives (λ x. x) result (stopped (item_faults names.now (map view_item items.now) bs (t.struct_item name (map view_field fields.now))) tt) }
{
    check_fields(alloc, items, known, fields)?;
    kept(name.at, 10, is_new_item(names, items, before, name))?;
    Ok(())
}

/// The first fault of an item that is a struct or a function.
fn check_item(
    alloc: Global,
    names: &[Text],
    items: &[Item],
    known: &Known,
    has_lawful_main: bool,
    before: &Before,
    item: &Item,
) -> Result<(), Fail<Fault>>
    requires knows { Knows (map view_item items.now) known.now }
    requires main { has_lawful_main ≡ list_any (is_function_with (is_lawful_main names.now)) (map view_item items.now) }
    requires plain { is_plain (view_item item.now) ≡ true }
    ensures { (bs : List t.Item) → IsOf names.now (map view_item items.now) bs before.now → Gives (λ x. x) result (stopped (item_faults names.now (map view_item items.now) bs (view_item item.now)) tt) }
{
    match item {
        Item::Struct(name, fields) => check_struct(
            alloc,
            names,
            items,
            known,
            before,
            *name,
            fields.as_slice(),
        ),
        Item::Function(function) => check_function(
            alloc,
            names,
            items,
            known,
            has_lawful_main,
            before,
            function,
        ),
        // No item is one of these.
        Item::Interface(..) | Item::Impl(..) => Ok(()),
    }
}

/// Puts an item among those before the next one.
fn put(
    names: &[Text],
    items: &[Item],
    known: &Known,
    before: &mut Before,
    item: &Item,
) -> Result<(), Memory>
    requires { Knows (map view_item items.now) known.now }
    ensures { OnOk result ((bs : List t.Item) → IsOf names.now (map view_item items.now) bs before.old → IsOf names.now (map view_item items.now) (view_item item.now ∷ bs) before.new) }
{
    match item {
        Item::Struct(name, _) | Item::Interface(name, _) => {
            before.names.insert(name.name)?;
        }
        Item::Impl(..) => {}
        Item::Function(function) => {
            before.names.insert(function.head.name.name)?;
            if let Some(of) = drops(names, items, known, &function.head) {
                before.dropped.insert(of.name)?;
            }
            if is_main(names, &function.head) {
                before.has_main = true;
            }
        }
    }
    Ok(())
}

/// The first fault of the items, one after another.
pub fn check_items(
    alloc: Global,
    names: &[Text],
    items: &[Item],
    known: &Known,
    has_lawful_main: bool,
) -> Result<(), Fail<Fault>>
    requires knows { Knows (map view_item items.now) known.now }
    requires main { has_lawful_main ≡ list_any (is_function_with (is_lawful_main names.now)) (map view_item items.now) }
    requires plain { list_all is_plain (map view_item items.now) ≡ true }
    ensures { Gives (λ x. x) result (stopped (one_by_one (item_faults names.now (map view_item items.now)) [] (map view_item items.now)) tt) }
{
    let mut before = Before {
        names: Names::new(alloc),
        dropped: Names::new(alloc),
        has_main: false,
    };
    for item in items {
        check_item(alloc, names, items, known, has_lawful_main, &before, item)?;
        put(names, items, known, &mut before, item)?;
    }
    Ok(())
}
