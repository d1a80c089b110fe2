// The declarations in order.
ghost use Rattle.std.specs.Prelude.{◌≡◌, map, IfOk};
ghost use Rattle.vale_syntax.specs.View.{view_item};
ghost use Rattle.vale_rules_spec.specs.Declarations.{declarations};

use sqlite_items::Items;
use std::alloc::Global;
use vale_base::Memory;
use vale_syntax::{Declared, Decls, Implemented, Item};

/// What the items declare, in their order.
pub fn collect(alloc: Global, items: &[Item]) -> Result<Decls, Memory>
    ensures { IfOk result (λ d. d ≡ declarations (map view_item items.now)) }
{
    let mut structs = Vec::new(alloc);
    let mut interfaces = Vec::new(alloc);
    let mut impls = Vec::new(alloc);
    let mut functions = Vec::new(alloc);
    for item in 0..items.len() {
        match &items[item] {
            Item::Struct(name, _) => structs.push(Declared {
                name: name.name,
                item,
            })?,
            Item::Interface(name, _) => interfaces.push(Declared {
                name: name.name,
                item,
            })?,
            Item::Impl(_, interface, of, _) => impls.push(Implemented {
                interface: interface.name,
                of: of.name,
                item,
            })?,
            Item::Function(function) => functions.push(Declared {
                name: function.head.name.name,
                item,
            })?,
        }
    }
    Ok(Decls {
        structs: Items::from_vec(structs),
        interfaces: Items::from_vec(interfaces),
        impls: Items::from_vec(impls),
        functions: Items::from_vec(functions),
    })
}
