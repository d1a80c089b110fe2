// What stands at a place among items.
ghost use Rattle.std.specs.Prelude.{◌≡◌, map, option_map};
ghost use Rattle.vale_syntax.specs.View.{view_item, view_field, view_head};
ghost use Rattle.vale_lookup.specs.Index.{fields_at, methods_at, head_at};

use vale_syntax::{FieldDecl, Head, Item};

/// The fields of the struct at this place.
pub fn fields_at(items: &[Item], at: usize) -> Option<&[FieldDecl]>
    ensures { option_map (λ fs. map view_field fs.now) result ≡ fields_at (map view_item items.now) at }
{
    match items.get(at) {
        Some(Item::Struct(_, fields)) => Some(fields.as_slice()),
        _ => None,
    }
}

/// The heads of the methods of the interface at this place.
pub fn methods_at(items: &[Item], at: usize) -> Option<&[Head]>
    ensures { option_map (λ hs. map view_head hs.now) result ≡ methods_at (map view_item items.now) at }
{
    match items.get(at) {
        Some(Item::Interface(_, heads)) => Some(heads.as_slice()),
        _ => None,
    }
}

/// The head of the function at this place.
pub fn head_at(items: &[Item], at: usize) -> Option<&Head>
    ensures { option_map (λ h. view_head h.now) result ≡ head_at (map view_item items.now) at }
{
    match items.get(at) {
        Some(Item::Function(function)) => Some(&function.head),
        _ => None,
    }
}
