// A program's names and items.
ghost use Rattle.std.specs.Prelude.{◌≡◌, map, IfOk};
ghost use Rattle.vale_syntax.specs.View.{view_item};
ghost use Rattle.vale_lookup.specs.Places.{HasPlaces};
ghost use Rattle.vale_lookup.specs.Index.{struct_key, interface_key, function_key, HasMembers, HasImpls, HasIsos};

use crate::impls::Impls;
use crate::index::{function_places, impls, interface_places, members, struct_places};
use crate::lookup::{fields_at, head_at, methods_at};
use crate::places::Places;
use sqlite_items::Items;
use std::alloc::Global;
use vale_base::{Memory, Name, Text};
use vale_core::Ty;
use vale_names::{Names, iso_names};
use vale_syntax::{FieldDecl, Head, Item};

/// The names of a program, by their numbers, and its items, ready for look-ups.
#[derive(Drop)]
pub struct Table {
    names: Items<Text>,
    items: Items<Item>,
    // Those that reach a struct in the type of whose fields `iso` stands.
    isos: Names,
    // Where they stand, and for each item where its fields or methods stand.
    structs: Places,
    interfaces: Places,
    functions: Places,
    members: Items<Places>,
    impls: Impls,
    ghost has_structs: { HasPlaces (map struct_key (map view_item items)) structs },
    ghost has_interfaces: { HasPlaces (map interface_key (map view_item items)) interfaces },
    ghost has_functions: { HasPlaces (map function_key (map view_item items)) functions },
    ghost has_members: { HasMembers (map view_item items) members },
    ghost has_impls: { HasImpls (map view_item items) impls },
    ghost has_isos: { HasIsos (map view_item items) isos },
}

impl Table {
    ghost use Rattle.vale_lookup.specs.Table.{names_of, items_of};
    ghost use Rattle.std.specs.Prelude.{option_map};
    ghost use Rattle.std.specs.List.{list_any};
    ghost use Rattle.std.specs.Option.{option_and_then};
    ghost use Rattle.vale_syntax.specs.View.{view_field, view_head};
    ghost use Rattle.vale_rules_spec.specs.Types.{fields_of, field_named, methods_of, method_named, function_named, is_impl, may_be_isolated};
    ghost use Rattle.vale_lookup.specs.Places.{place_from};
    ghost use Rattle.vale_lookup.specs.Index.{keys_at, field_at, method_at};
    ghost use Rattle.vale_core.specs.View.{view_ty};

    /// The table of these names and items.
    pub fn new(alloc: Global, names: Items<Text>, items: Items<Item>) -> Result<Self, Memory>
        ensures names { IfOk result (λ t. names_of t ≡ names) }
        ensures items { IfOk result (λ t. items_of t ≡ map view_item items) }
    {
        let slice = items.as_slice();
        let isos = iso_names(alloc, slice)?;
        let structs = struct_places(alloc, slice)?;
        let interfaces = interface_places(alloc, slice)?;
        let functions = function_places(alloc, slice)?;
        let members = members(alloc, slice)?;
        let impls = impls(alloc, slice)?;
        Ok(Table {
            names,
            items,
            isos,
            structs,
            interfaces,
            functions,
            members,
            impls,
        })
    }

    /// The texts of the names.
    pub fn names(&self) -> &[Text]
        ensures { result.now ≡ names_of self.now }
    {
        self.names.as_slice()
    }

    /// The items.
    pub fn items(&self) -> &[Item]
        ensures { map view_item result.now ≡ items_of self.now }
    {
        self.items.as_slice()
    }

    /// The fields of a struct.
    #[tactic(auto, using(crate::proofs::IndexLaws::fields_found))]
    pub fn fields_of(&self, name: Name) -> Option<&[FieldDecl]>
        ensures { option_map (λ fs. map view_field fs.now) result ≡ fields_of (items_of self.now) name.0 }
    {
        match self.structs.place(name) {
            None => None,
            Some(at) => fields_at(self.items.as_slice(), at),
        }
    }

    /// Where a field or a method of this name stands in the item at this place.
    fn member(&self, at: usize, name: Name) -> Option<usize>
        ensures { result ≡ place_from 0 (keys_at (items_of self.now) at) name.0 }
    {
        match self.members.get(at) {
            None => None,
            Some(places) => places.place(name),
        }
    }

    fn field_at(&self, at: usize, name: Name) -> Option<&FieldDecl>
        ensures { option_map (λ f. view_field f.now) result ≡ field_at (items_of self.now) at name.0 }
    {
        match fields_at(self.items.as_slice(), at) {
            None => None,
            Some(fields) => match self.member(at, name) {
                None => None,
                Some(place) => fields.get(place),
            },
        }
    }

    /// The field of this name of a struct.
    pub fn field(&self, of: Name, name: Name) -> Option<&FieldDecl>
        ensures { option_map (λ f. view_field f.now) result ≡ option_and_then (λ fs. field_named fs name.0) (fields_of (items_of self.now) of.0) }
    {
        match self.structs.place(of) {
            None => None,
            Some(at) => self.field_at(at, name),
        }
    }

    /// The heads of an interface's methods.
    #[tactic(auto, using(crate::proofs::IndexLaws::methods_found))]
    pub fn methods_of(&self, name: Name) -> Option<&[Head]>
        ensures { option_map (λ hs. map view_head hs.now) result ≡ methods_of (items_of self.now) name.0 }
    {
        match self.interfaces.place(name) {
            None => None,
            Some(at) => methods_at(self.items.as_slice(), at),
        }
    }

    fn method_at(&self, at: usize, name: Name) -> Option<&Head>
        ensures { option_map (λ h. view_head h.now) result ≡ method_at (items_of self.now) at name.0 }
    {
        match methods_at(self.items.as_slice(), at) {
            None => None,
            Some(heads) => match self.member(at, name) {
                None => None,
                Some(place) => heads.get(place),
            },
        }
    }

    /// The head of the method of this name of an interface.
    pub fn method(&self, of: Name, name: Name) -> Option<&Head>
        ensures { option_map (λ h. view_head h.now) result ≡ option_and_then (λ hs. method_named hs name.0) (methods_of (items_of self.now) of.0) }
    {
        match self.interfaces.place(of) {
            None => None,
            Some(at) => self.method_at(at, name),
        }
    }

    /// The head of a function.
    #[tactic(auto, using(crate::proofs::IndexLaws::function_found))]
    pub fn function_named(&self, name: Name) -> Option<&Head>
        ensures { option_map (λ h. view_head h.now) result ≡ function_named (items_of self.now) name.0 }
    {
        match self.functions.place(name) {
            None => None,
            Some(at) => head_at(self.items.as_slice(), at),
        }
    }

    /// Whether the struct implements the interface.
    pub fn implements(&self, of: Name, interface: Name) -> bool
        ensures { result ≡ list_any (is_impl of.0 interface.0) (items_of self.now) }
    {
        self.impls.has(interface, of)
    }

    /// Whether a value of this type may be isolated: an owner from which no `iso` is reached.
    pub fn may_be_isolated(&self, ty: &Ty) -> bool
        ensures { result ≡ may_be_isolated (items_of self.now) (view_ty ty.now) }
    {
        if !ty.is_owner() || ty.has_iso() {
            return false;
        }
        match ty.kind_in() {
            Some(name) => !self.isos.has(name),
            None => true,
        }
    }

    /// The names and the items, given back.
    pub fn into_parts(self) -> (Items<Text>, Items<Item>)
        ensures names { result.0 ≡ names_of self }
        ensures items { map view_item result.1 ≡ items_of self }
    {
        let Table { names, items, .. } = self;
        (names, items)
    }
}
