// Where in a list the things of each name stand.
ghost use Rattle.std.specs.Prelude.{◌≡◌, ℕ, Some, None, OnOk, if◌then◌else◌};
ghost use Rattle.std.specs.Option.{option_or};

use std::alloc::Global;
use std::collections::HashMap;
use vale_base::{Memory, Name};

/// The first place of each name.
#[derive(Drop)]
pub struct Places {
    places: HashMap<u32, usize>,
}

impl Places {
    ghost use Rattle.vale_lookup.specs.Places.{place_in, is_name};

    /// No places. It takes no memory.
    pub fn new(alloc: Global) -> Self
        ensures { (n : ℕ) → place_in result n ≡ None }
    {
        Places {
            places: HashMap::new(alloc),
        }
    }

    /// Adds the place of a name, where there is one that has no place yet.
    pub fn add(&mut self, key: Option<u32>, at: usize) -> Result<(), Memory>
        ensures { OnOk result ((n : ℕ) → place_in self.new n ≡ option_or (place_in self.old n) (if is_name key n then Some at else None)) }
    {
        if let Some(name) = key {
            if !self.places.contains_key(&name) {
                self.places.insert(name, at)?;
            }
        }
        Ok(())
    }

    /// The place of the name.
    pub fn place(&self, name: Name) -> Option<usize>
        ensures { result ≡ place_in self.now name.0 }
    {
        self.places.get(&name.0).copied()
    }
}
