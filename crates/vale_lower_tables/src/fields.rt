// The fields of structs by name.
ghost use Rattle.std.specs.Prelude.{◌≡◌, ℕ, ◌++◌, ◌==◌, ◌&&◌, [], ◌∷◌, None, Some, length, map, IfOk, OnOk, if◌then◌else◌};
ghost use Rattle.std.specs.Option.{option_map_or};
ghost use Rattle.vale_syntax.specs.View.{view_field};
ghost use Rattle.vale_core.specs.View.{view_item};
ghost use Rattle.vale_model.specs.Parts.{fields_in, place_of_field};
ghost use Rattle.vale_lower_expr.specs.Found.{or_else};
ghost use Rattle.vale_lower_tables.specs.Kept.{fields_at, place_at, AreFields, ArePlaced};

use std::alloc::Global;
use std::collections::HashMap;
use vale_base::{Memory, Name};
use vale_core::Item;
use vale_syntax::FieldDecl;

/// The fields of each struct, by its name.
#[derive(Drop)]
pub struct Listed<'p> {
    alloc: Global,
    by_struct: HashMap<u32, Vec<&'p FieldDecl>>,
}

impl<'p> Listed<'p> {
    /// None. It takes no memory.
    fn new(alloc: Global) -> Self
        ensures { (s : ℕ) → fields_at result s ≡ [] }
    {
        Listed {
            alloc,
            by_struct: HashMap::new(alloc),
        }
    }

    // How many there are of a struct.
    fn count(&self, of: u32) -> usize
        ensures { result ≡ length (fields_at self.now of) }
    {
        match self.by_struct.get(&of) {
            Some(fields) => fields.len(),
            None => 0,
        }
    }

    // One more field of a struct.
    fn push(&mut self, of: u32, field: &'p FieldDecl) -> Result<(), Memory>
        ensures { OnOk result ((s : ℕ) → fields_at self.new s ≡ fields_at self.old s ++ (if of == s then view_field field.now ∷ [] else [])) }
    {
        let fields = self.by_struct.entry(of)?.or_insert(Vec::new(self.alloc));
        fields.push(field)?;
        Ok(())
    }

    /// Those of a struct, where it has any.
    pub fn of(&self, of: Name) -> Option<&Vec<&'p FieldDecl>>
        ensures { option_map_or (λ v. map (λ f. view_field f.now) v.now.items) result [] ≡ fields_at self.now of.0 }
    {
        self.by_struct.get(&of.0)
    }
}

/// The place of the first field of each name among those of its struct.
#[derive(Drop)]
pub struct Placed {
    places: HashMap<(u32, u32), u32>,
}

impl Placed {
    /// None. It takes no memory.
    fn new(alloc: Global) -> Self
        ensures { (s n : ℕ) → place_at result s n ≡ None }
    {
        Placed {
            places: HashMap::new(alloc),
        }
    }

    // A field, where none of its name is there yet.
    fn put(&mut self, of: u32, name: Name, at: u32) -> Result<(), Memory>
        ensures { OnOk result ((s n : ℕ) → place_at self.new s n ≡ or_else (place_at self.old s n) (if of == s && name.0 == n then Some at else None)) }
    {
        if !self.places.contains_key(&(of, name.0)) {
            self.places.insert((of, name.0), at)?;
        }
        Ok(())
    }

    fn place(&self, of: Name, name: Name) -> Option<u32>
        ensures { result ≡ place_at self.now of.0 name.0 }
    {
        self.places.get(&(of.0, name.0)).copied()
    }
}

// One more field of a struct. A place that is 2^32 or more is want of memory.
fn add<'p>(
    listed: &mut Listed<'p>,
    placed: &mut Placed,
    of: u32,
    field: &'p FieldDecl,
) -> Result<(), Memory>
    requires { ArePlaced listed.old placed.old }
    ensures placed { OnOk result (ArePlaced listed.new placed.new) }
    ensures listed { OnOk result ((s : ℕ) → fields_at listed.new s ≡ fields_at listed.old s ++ (if of == s then view_field field.now ∷ [] else [])) }
{
    let at = listed.count(of);
    if at > u32::MAX as usize {
        return Err(Memory);
    }
    placed.put(of, field.name.name, at as u32)?;
    listed.push(of, field)?;
    Ok(())
}

fn add_all<'p>(
    listed: &mut Listed<'p>,
    placed: &mut Placed,
    of: u32,
    fields: &'p [FieldDecl],
) -> Result<(), Memory>
    requires { ArePlaced listed.old placed.old }
    ensures placed { OnOk result (ArePlaced listed.new placed.new) }
    ensures listed { OnOk result ((s : ℕ) → fields_at listed.new s ≡ fields_at listed.old s ++ (if of == s then map view_field fields.now else [])) }
{
    for field in fields {
        add(listed, placed, of, field)?;
    }
    Ok(())
}

// The fields of an item, where it is a struct.
fn add_item<'p>(listed: &mut Listed<'p>, placed: &mut Placed, item: &'p Item) -> Result<(), Memory>
    requires { ArePlaced listed.old placed.old }
    ensures placed { OnOk result (ArePlaced listed.new placed.new) }
    ensures listed { OnOk result ((s : ℕ) → fields_at listed.new s ≡ fields_at listed.old s ++ fields_in s (view_item item.now)) }
{
    match item {
        Item::Struct(name, fields) => add_all(listed, placed, name.name.0, fields.as_slice()),
        Item::Interface(..) | Item::Impl(..) | Item::Function(_) => Ok(()),
    }
}

/// The fields of each struct, and where they stand.
#[derive(Drop)]
pub struct Fields<'p> {
    pub listed: Listed<'p>,
    placed: Placed,
    ghost are_placed: { ArePlaced listed placed },
}

impl<'p> Fields<'p> {
    /// Those of the structs among the items. More than 2^32 of one struct are want of memory.
    pub fn among(alloc: Global, items: &'p [Item]) -> Result<Self, Memory>
        ensures { IfOk result (λ t. AreFields items.now t.listed) }
    {
        let mut listed = Listed::new(alloc);
        let mut placed = Placed::new(alloc);
        for item in items {
            add_item(&mut listed, &mut placed, item)?;
        }
        Ok(Fields { listed, placed })
    }

    /// Which field of the struct has this name.
    pub fn place(&self, of: Name, name: Name) -> Option<u32>
        ensures { result ≡ place_of_field name.0 (fields_at self.now.listed of.0) }
    {
        self.placed.place(of, name)
    }
}
