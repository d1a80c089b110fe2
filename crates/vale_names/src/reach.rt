// The names that reach a struct in the type of whose fields `iso` stands.
ghost use Rattle.std.specs.Prelude.{◌≡◌, ℕ, ◌||◌, Bool, true, false, map, Option, Some, None, if◌then◌else◌, IfOk, OnOk};
ghost use Rattle.std.specs.List.{list_any};
ghost use Rattle.vale_syntax.specs.View.{view_item, view_field};
ghost use Rattle.vale_rules_spec.specs.Reach.{is_reached};
ghost use Rattle.vale_rules_spec.specs.Declarations.{field_type, has_iso, leads, iso_holder, iso_holders};
ghost use Rattle.vale_names.specs.Names.{has};
ghost use Rattle.vale_names.specs.Isos.{is_in, IsLeast};
ghost use Rattle.vale_names.specs.Spread.{finds, awaits};

use crate::mentions::Mentions;
use crate::names::Names;
use crate::spread::Spread;
use crate::written::has_iso;
use std::alloc::Global;
use vale_base::Memory;
use vale_syntax::{FieldDecl, Item};

fn any_iso(fields: &[FieldDecl]) -> bool
    ensures { result ≡ list_any (λ f. has_iso (field_type f)) (map view_field fields.now) }
{
    for field in fields {
        if has_iso(&field.ty) {
            return true;
        }
    }
    false
}

/// The item's name, where it is a struct in the type of whose fields `iso` stands.
fn iso_holder(item: &Item) -> Option<u32>
    ensures { result ≡ iso_holder (view_item item.now) }
{
    match item {
        Item::Struct(name, fields) => {
            if any_iso(fields.as_slice()) {
                Some(name.name.0)
            } else {
                None
            }
        }
        Item::Interface(..) | Item::Impl(..) | Item::Function(_) => None,
    }
}

/// The names of structs in the type of whose fields `iso` stands, all of which are still to be looked at.
fn holders(alloc: Global, items: &[Item]) -> Result<Spread, Memory>
    ensures found { IfOk result (λ spread. (n : ℕ) → finds spread n ≡ is_in (iso_holders (map view_item items.now)) n) }
    ensures todo { IfOk result (λ spread. (n : ℕ) → awaits spread n ≡ finds spread n) }
{
    let mut spread = Spread::new(alloc);
    for item in items {
        if let Some(name) = iso_holder(item) {
            spread.add(name)?;
        }
    }
    Ok(spread)
}

/// The least set with those names into which nothing outside of it leads.
fn least_closed(alloc: Global, items: &[Item]) -> Result<Names, Memory>
    ensures { IfOk result (λ isos. IsLeast (leads (map view_item items.now)) (iso_holders (map view_item items.now)) (has isos)) }
{
    let mentions = Mentions::among(alloc, items)?;
    let mut spread = holders(alloc, items)?;
    while let Some(name) = spread.next() {
        spread.add_all(mentions.of(name))?;
    }
    Ok(spread.into_names())
}

/// The names that reach a struct in the type of whose fields `iso` stands.
#[tactic(auto, using(crate::proofs::IsoLaws::all_reach))]
pub fn iso_names(alloc: Global, items: &[Item]) -> Result<Names, Memory>
    ensures { IfOk result (λ isos. (n : ℕ) → has isos n ≡ list_any (is_reached (leads (map view_item items.now)) n) (iso_holders (map view_item items.now))) }
{
    least_closed(alloc, items)
}
