// The items of a program, by their names.
ghost use Rattle.std.specs.Prelude.{◌≡◌, map, option_map, IfOk};
ghost use Rattle.std.specs.List.{slice_get};
ghost use Rattle.vale_core.specs.View.{view_item};
ghost use Rattle.vale_region_rules.specs.Places.{HasPlaces};

use crate::index::{FirstPlaces, places_of};
use std::alloc::Global;
use vale_base::{Memory, Name};
use vale_core::Item;

fn item_at(items: &[Item], at: usize) -> Option<&Item>
    ensures { option_map (λ x. view_item x.now) result ≡ slice_get (map view_item items.now) at }
{
    items.get(at)
}

/// The items of a program, ready for look-ups by name.
#[derive(Drop)]
pub struct Signatures<'a> {
    items: &'a [Item],
    places: FirstPlaces,
    ghost has_places: { HasPlaces (map view_item items.now) places },
}

impl<'a> Signatures<'a> {
    ghost use Rattle.vale_region_rules.specs.Items.{items_of};
    ghost use Rattle.vale_region_spec.specs.RegionRules.{item_named};

    /// Of these items.
    pub fn new(alloc: Global, items: &'a [Item]) -> Result<Self, Memory>
        ensures { IfOk result (λ s. items_of s ≡ map view_item items.now) }
    {
        let places = places_of(alloc, items)?;
        Ok(Signatures { items, places })
    }

    /// The item of this name.
    #[tactic(auto, using(crate::proofs::SignatureLaws::item_found))]
    pub fn named(&self, name: Name) -> Option<&Item>
        ensures { option_map (λ x. view_item x.now) result ≡ item_named (items_of self.now) name.0 }
    {
        match self.places.of(name) {
            None => None,
            Some(at) => item_at(self.items, at),
        }
    }
}
