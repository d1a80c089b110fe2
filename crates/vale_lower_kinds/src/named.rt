// The structs and interfaces of a program and their numbers.
ghost use Rattle.std.specs.Prelude.{◌≡◌, ℕ, ◌==◌, [], ◌∷◌, None, Some, map, flat_map, IfOk, OnOk, if◌then◌else◌};
ghost use Rattle.vale_rules_spec.specs.Types as y;
ghost use Rattle.vale_core.specs.View.{view_item};
ghost use Rattle.vale_model.specs.Kinds.{named_kinds};
ghost use Rattle.vale_lower_kinds.specs.Names.{place_in, name_place, AreNumbered, names_of};
ghost use Rattle.vale_lower_kinds.specs.Added.{put_type, added, kind_types};

use std::alloc::Global;
use std::collections::HashMap;
use vale_base::{Memory, Name};
use vale_core::Item;

/// The number of each name.
#[derive(Drop)]
pub struct Places {
    places: HashMap<u32, u32>,
}

impl Places {
    /// None. It takes no memory.
    fn new(alloc: Global) -> Self
        ensures { (n : ℕ) → place_in result n ≡ None }
    {
        Places {
            places: HashMap::new(alloc),
        }
    }

    fn add(&mut self, name: Name, at: u32) -> Result<(), Memory>
        ensures { OnOk result ((n : ℕ) → place_in self.new n ≡ (if name.0 == n then Some at else place_in self.old n)) }
    {
        self.places.insert(name.0, at)?;
        Ok(())
    }

    fn place(&self, name: Name) -> Option<u32>
        ensures { result ≡ place_in self.now name.0 }
    {
        self.places.get(&name.0).copied()
    }
}

// A name that has no place yet gets the next one. A place that is 2^32 or more is want of memory.
fn put_name(all: &mut Vec<Name>, places: &mut Places, name: Name) -> Result<(), Memory>
    requires numbered { AreNumbered (names_of all.old.items) places.old }
    requires new { place_in places.old name.0 ≡ None }
    ensures numbered { OnOk result (AreNumbered (names_of all.new.items) places.new) }
    ensures names { OnOk result (kind_types (names_of all.new.items) ≡ put_type (kind_types (names_of all.old.items)) (y.kind name.0)) }
{
    let at = all.len();
    if at > u32::MAX as usize {
        return Err(Memory);
    }
    places.add(name, at as u32)?;
    all.push(name)?;
    Ok(())
}

// A name gets the next place, where it has none.
#[tactic(auto, using(crate::proofs::NameLaws::adds))]
fn add_name(all: &mut Vec<Name>, places: &mut Places, name: Name) -> Result<(), Memory>
    requires { AreNumbered (names_of all.old.items) places.old }
    ensures numbered { OnOk result (AreNumbered (names_of all.new.items) places.new) }
    ensures names { OnOk result (kind_types (names_of all.new.items) ≡ put_type (kind_types (names_of all.old.items)) (y.kind name.0)) }
{
    match places.place(name) {
        Some(_) => Ok(()),
        None => put_name(all, places, name),
    }
}

// A struct or an interface gets a place.
fn add_item(all: &mut Vec<Name>, places: &mut Places, item: &Item) -> Result<(), Memory>
    requires { AreNumbered (names_of all.old.items) places.old }
    ensures numbered { OnOk result (AreNumbered (names_of all.new.items) places.new) }
    ensures names { OnOk result (kind_types (names_of all.new.items) ≡ added (kind_types (names_of all.old.items)) (named_kinds (view_item item.now))) }
{
    match item {
        Item::Struct(name, _) => add_name(all, places, name.name),
        Item::Interface(name, _) => add_name(all, places, name.name),
        Item::Impl(..) | Item::Function(_) => Ok(()),
    }
}

/// Names, each once, of which each has the number of its place.
#[derive(Drop)]
pub struct Named {
    all: Vec<Name>,
    places: Places,
    ghost are_numbered: { AreNumbered (names_of all.items) places },
}

impl Named {
    ghost use Rattle.std.specs.Prelude.{length};
    ghost use Rattle.vale_lower_kinds.specs.Held.{named_in};

    /// Those of the structs and interfaces among the items.
    pub fn among(alloc: Global, items: &[Item]) -> Result<Self, Memory>
        ensures { IfOk result (λ t. kind_types (named_in t) ≡ added [] (flat_map named_kinds (map view_item items.now))) }
    {
        let mut all = Vec::new(alloc);
        let mut places = Places::new(alloc);
        for item in items {
            add_item(&mut all, &mut places, item)?;
        }
        Ok(Named { all, places })
    }

    /// How many there are.
    pub fn count(&self) -> usize
        ensures { result ≡ length (named_in self.now) }
    {
        self.all.len()
    }

    /// The names, in the order of their numbers.
    pub fn as_slice(&self) -> &[Name]
        ensures { names_of result.now ≡ named_in self.now }
    {
        &self.all
    }

    /// The number of a name, where it is one of them.
    pub fn place(&self, name: Name) -> Option<u32>
        ensures { result ≡ name_place 0 name.0 (named_in self.now) }
    {
        self.places.place(name)
    }
}
