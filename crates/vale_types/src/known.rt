// What is known of a program's names before its nodes are asked.
ghost use Rattle.std.specs.Prelude.{◌≡◌, map, ◌||◌, IfOk};
ghost use Rattle.std.specs.List.{list_any};
ghost use Rattle.vale_syntax.specs.declared.tree.NameAt.{NameAt};
ghost use Rattle.vale_syntax.specs.View.{view_item};
ghost use Rattle.vale_rules_spec.specs.Declarations.{is_struct_of, is_interface_of};
ghost use Rattle.vale_rules_spec.specs.DeclRules.{is_kind};
ghost use Rattle.vale_names.specs.Names.{has};

use std::alloc::Global;
use vale_base::Memory;
use vale_names::{Names, iso_names};
use vale_syntax::Item;

/// The names of structs and interfaces, those of structs alone, and the names that reach a struct in the type of whose
/// fields `iso` stands.
#[derive(Drop)]
pub struct Known {
    pub kinds: Names,
    pub structs: Names,
    pub isos: Names,
}

fn struct_names(alloc: Global, items: &[Item]) -> Result<Names, Memory>
    ensures { IfOk result (λ names. (n : NameAt) → has names n.name.0 ≡ list_any (is_struct_of n) (map view_item items.now)) }
{
    let mut names = Names::new(alloc);
    for item in items {
        if let Item::Struct(name, _) = item {
            names.insert(name.name)?;
        }
    }
    Ok(names)
}

fn kind_names(alloc: Global, items: &[Item]) -> Result<Names, Memory>
    ensures { IfOk result (λ names. (n : NameAt) → has names n.name.0 ≡ is_kind (map view_item items.now) n) }
{
    let mut names = Names::new(alloc);
    for item in items {
        if let Item::Struct(name, _) | Item::Interface(name, _) = item {
            names.insert(name.name)?;
        }
    }
    Ok(names)
}

impl Known {
    ghost use Rattle.vale_types.specs.Known.{Knows};

    /// What is known of the items.
    pub fn of(alloc: Global, items: &[Item]) -> Result<Known, Memory>
        ensures { IfOk result (λ known. Knows (map view_item items.now) known) }
    {
        Ok(Known {
            kinds: kind_names(alloc, items)?,
            structs: struct_names(alloc, items)?,
            isos: iso_names(alloc, items)?,
        })
    }
}
