// Where a program's items and their members stand, and which interfaces its structs implement.
ghost use Rattle.std.specs.Prelude.{◌≡◌, map, IfOk};
ghost use Rattle.vale_syntax.specs.View.{view_item, view_field, view_head};
ghost use Rattle.vale_lookup.specs.Places.{HasPlaces};
ghost use Rattle.vale_lookup.specs.Index.{struct_key, interface_key, function_key, field_key, method_key, member_keys, HasMembers, HasImpls};

use crate::impls::Impls;
use crate::places::Places;
use sqlite_items::Items;
use std::alloc::Global;
use vale_base::Memory;
use vale_syntax::{FieldDecl, Head, Item};

fn struct_key(item: &Item) -> Option<u32>
    ensures { result ≡ struct_key (view_item item.now) }
{
    match item {
        Item::Struct(name, _) => Some(name.name.0),
        _ => None,
    }
}

fn interface_key(item: &Item) -> Option<u32>
    ensures { result ≡ interface_key (view_item item.now) }
{
    match item {
        Item::Interface(name, _) => Some(name.name.0),
        _ => None,
    }
}

fn function_key(item: &Item) -> Option<u32>
    ensures { result ≡ function_key (view_item item.now) }
{
    match item {
        Item::Function(function) => Some(function.head.name.name.0),
        _ => None,
    }
}

/// Where the structs stand.
#[tactic(auto, using(crate::proofs::IndexLaws::add_place))]
pub fn struct_places(alloc: Global, items: &[Item]) -> Result<Places, Memory>
    ensures { IfOk result (λ p. HasPlaces (map struct_key (map view_item items.now)) p) }
{
    let mut places = Places::new(alloc);
    for (at, item) in items.iter().enumerate() {
        places.add(struct_key(item), at)?;
    }
    Ok(places)
}

/// Where the interfaces stand.
#[tactic(auto, using(crate::proofs::IndexLaws::add_place))]
pub fn interface_places(alloc: Global, items: &[Item]) -> Result<Places, Memory>
    ensures { IfOk result (λ p. HasPlaces (map interface_key (map view_item items.now)) p) }
{
    let mut places = Places::new(alloc);
    for (at, item) in items.iter().enumerate() {
        places.add(interface_key(item), at)?;
    }
    Ok(places)
}

/// Where the functions stand.
#[tactic(auto, using(crate::proofs::IndexLaws::add_place))]
pub fn function_places(alloc: Global, items: &[Item]) -> Result<Places, Memory>
    ensures { IfOk result (λ p. HasPlaces (map function_key (map view_item items.now)) p) }
{
    let mut places = Places::new(alloc);
    for (at, item) in items.iter().enumerate() {
        places.add(function_key(item), at)?;
    }
    Ok(places)
}

/// Where the fields of a struct stand.
#[tactic(auto, using(crate::proofs::IndexLaws::add_place))]
fn field_places(alloc: Global, fields: &[FieldDecl]) -> Result<Places, Memory>
    ensures { IfOk result (λ p. HasPlaces (map field_key (map view_field fields.now)) p) }
{
    let mut places = Places::new(alloc);
    for (at, field) in fields.iter().enumerate() {
        places.add(Some(field.name.name.0), at)?;
    }
    Ok(places)
}

/// Where the methods of an interface stand.
#[tactic(auto, using(crate::proofs::IndexLaws::add_place))]
fn method_places(alloc: Global, heads: &[Head]) -> Result<Places, Memory>
    ensures { IfOk result (λ p. HasPlaces (map method_key (map view_head heads.now)) p) }
{
    let mut places = Places::new(alloc);
    for (at, head) in heads.iter().enumerate() {
        places.add(Some(head.name.name.0), at)?;
    }
    Ok(places)
}

/// Where the fields of a struct or the methods of an interface stand.
fn member_places(alloc: Global, item: &Item) -> Result<Places, Memory>
    ensures { IfOk result (λ p. HasPlaces (member_keys (view_item item.now)) p) }
{
    match item {
        Item::Struct(_, fields) => field_places(alloc, fields.as_slice()),
        Item::Interface(_, heads) => method_places(alloc, heads.as_slice()),
        Item::Impl(..) | Item::Function(_) => Ok(Places::new(alloc)),
    }
}

/// Where the members of each item stand.
pub fn members(alloc: Global, items: &[Item]) -> Result<Items<Places>, Memory>
    ensures { IfOk result (λ ps. HasMembers (map view_item items.now) ps) }
{
    let mut members = Items::new(alloc);
    for item in items {
        members.push(member_places(alloc, item)?)?;
    }
    Ok(members)
}

/// Which interfaces the structs implement.
pub fn impls(alloc: Global, items: &[Item]) -> Result<Impls, Memory>
    ensures { IfOk result (λ i. HasImpls (map view_item items.now) i) }
{
    let mut impls = Impls::new(alloc);
    for item in items {
        if let Item::Impl(_, interface, of, _) = item {
            impls.add(interface.name, of.name)?;
        }
    }
    Ok(impls)
}
