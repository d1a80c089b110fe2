// Where the items of each name stand first.
ghost use Rattle.std.specs.Prelude.{◌≡◌, ℕ, Some, None, map, IfOk, OnOk, if◌then◌else◌};
ghost use Rattle.std.specs.Option.{option_or};
ghost use Rattle.vale_core.specs.View.{view_item};
ghost use Rattle.vale_region_spec.specs.RegionRules.{name_of, is_name};
ghost use Rattle.vale_region_rules.specs.Places.{HasPlaces};

use std::alloc::Global;
use std::collections::HashMap;
use vale_base::{Memory, Name};
use vale_core::Item;

/// The first place of each name.
#[derive(Drop)]
pub struct FirstPlaces {
    first: HashMap<u32, usize>,
}

impl FirstPlaces {
    ghost use Rattle.vale_region_rules.specs.Places.{place_in};

    /// No places. It takes no memory.
    pub fn new(alloc: Global) -> Self
        ensures { (n : ℕ) → place_in result n ≡ None }
    {
        FirstPlaces {
            first: HashMap::new(alloc),
        }
    }

    /// A name, where there is one, stands here too.
    pub fn add(&mut self, name: Option<u32>, at: usize) -> Result<(), Memory>
        ensures { OnOk result ((n : ℕ) → place_in self.new n ≡ option_or (place_in self.old n) (if is_name name n then Some at else None)) }
    {
        if let Some(name) = name {
            if !self.first.contains_key(&name) {
                self.first.insert(name, at)?;
            }
        }
        Ok(())
    }

    /// Where the name stands first.
    pub fn of(&self, name: Name) -> Option<usize>
        ensures { result ≡ place_in self.now name.0 }
    {
        self.first.get(&name.0).copied()
    }
}

fn name_of(item: &Item) -> Option<u32>
    ensures { result ≡ name_of (view_item item.now) }
{
    match item {
        Item::Struct(name, _) => Some(name.name.0),
        Item::Interface(name, _) => Some(name.name.0),
        Item::Impl(..) => None,
        Item::Function(function) => Some(function.head.name.name.0),
    }
}

/// Where the items stand.
#[tactic(auto, using(crate::proofs::SignatureLaws::add_place))]
pub fn places_of(alloc: Global, items: &[Item]) -> Result<FirstPlaces, Memory>
    ensures { IfOk result (λ p. HasPlaces (map view_item items.now) p) }
{
    let mut places = FirstPlaces::new(alloc);
    for (at, item) in items.iter().enumerate() {
        places.add(name_of(item), at)?;
    }
    Ok(places)
}
