// Which names mention a name.
ghost use Rattle.std.specs.Prelude.{◌≡◌, ℕ, ◌&&◌, ◌||◌, ◌==◌, false, map, IfOk, OnOk};
ghost use Rattle.vale_syntax.specs.View.{view_item, view_field};
ghost use Rattle.vale_rules_spec.specs.Declarations.{leads, leads_of};
ghost use Rattle.vale_names.specs.Isos.{is_in, is_edge, field_edges};

use crate::written::base_of;
use std::alloc::Global;
use std::collections::HashMap;
use vale_base::Memory;
use vale_syntax::{FieldDecl, Item};

/// The names that mention a name, for each name.
#[derive(Drop)]
pub struct Mentions {
    alloc: Global,
    by_name: HashMap<u32, Vec<u32>>,
}

impl Mentions {
    ghost use Rattle.vale_names.specs.Mentions.{mentions, mentioning};

    /// No names. It takes no memory.
    fn new(alloc: Global) -> Self
        ensures { (m : ℕ) → (n : ℕ) → mentions result m n ≡ false }
    {
        Mentions {
            alloc,
            by_name: HashMap::new(alloc),
        }
    }

    /// Notes that the first name mentions the second.
    fn add(&mut self, source: u32, target: u32) -> Result<(), Memory>
        ensures { OnOk result ((m : ℕ) → (n : ℕ) → mentions self.new m n ≡ (mentions self.old m n || (source == m && target == n))) }
    {
        let sources = self.by_name.entry(target)?.or_insert(Vec::new(self.alloc));
        sources.push(source)?;
        Ok(())
    }

    /// The names that mention this one.
    pub fn of(&self, name: u32) -> &[u32]
        ensures { result.now ≡ mentioning self.now name }
    {
        match self.by_name.get(&name) {
            Some(sources) => sources.as_slice(),
            None => &[],
        }
    }

    /// Notes that this name mentions what the fields have in their types.
    fn add_fields(&mut self, source: u32, fields: &[FieldDecl]) -> Result<(), Memory>
        ensures { OnOk result ((m : ℕ) → (n : ℕ) → mentions self.new m n ≡ (mentions self.old m n || is_edge (field_edges source (map view_field fields.now)) m n)) }
    {
        for field in fields {
            if let Some(target) = base_of(&field.ty) {
                self.add(source, target)?;
            }
        }
        Ok(())
    }

    /// Notes what the item leads to.
    fn add_item(&mut self, item: &Item) -> Result<(), Memory>
        ensures { OnOk result ((m : ℕ) → (n : ℕ) → mentions self.new m n ≡ (mentions self.old m n || is_edge (leads_of (view_item item.now)) m n)) }
    {
        match item {
            Item::Struct(name, fields) => self.add_fields(name.name.0, fields.as_slice()),
            Item::Impl(_, interface, of, _) => self.add(interface.name.0, of.name.0),
            Item::Interface(..) | Item::Function(_) => Ok(()),
        }
    }

    /// The names that the items' fields and implementations mention.
    pub fn among(alloc: Global, items: &[Item]) -> Result<Mentions, Memory>
        ensures { IfOk result (λ found. (m : ℕ) → (n : ℕ) → mentions found m n ≡ is_edge (leads (map view_item items.now)) m n) }
    {
        let mut found = Mentions::new(alloc);
        for item in items {
            found.add_item(item)?;
        }
        Ok(found)
    }
}
