// What steps start from and lead to.
ghost use Rattle.std.specs.Prelude.{◌≡◌, map, option_map};
ghost use Rattle.std.specs.Option.{option_and_then};
ghost use Rattle.vale_syntax.specs.View.{view_field, view_head};
ghost use Rattle.vale_rules_spec.specs.Types.{field_named, method_named};
ghost use Rattle.vale_rules_spec.specs.TypeRules.{fields_seen, methods_seen, elements_seen, struct_fields};
ghost use Rattle.vale_core.specs.View.{view_ty, view_view};
ghost use Rattle.vale_lookup.specs.Table.{items_of};

use vale_base::Name;
use vale_core::{Ty, View};
use vale_lookup::Table;
use vale_seen::seen_object;
use vale_syntax::{FieldDecl, Head};

/// The fields of the struct that a step starts from.
#[tactic(auto, using(vale_seen::proofs::TyLaws::types))]
pub fn fields_seen<'a>(table: &'a Table, view: &View) -> Option<&'a [FieldDecl]>
    ensures { option_map (λ fs. map view_field fs.now) result ≡ fields_seen (items_of table.now) (view_view view.now) }
{
    match seen_object(view) {
        Some(Ty::Kind(name)) => table.fields_of(*name),
        _ => None,
    }
}

/// The field of this name that a step leads to.
#[tactic(auto, using(vale_seen::proofs::TyLaws::types))]
pub fn field_seen<'a>(table: &'a Table, view: &View, name: Name) -> Option<&'a FieldDecl>
    ensures { option_map (λ f. view_field f.now) result ≡ option_and_then (λ fs. field_named fs name.0) (fields_seen (items_of table.now) (view_view view.now)) }
{
    match seen_object(view) {
        Some(Ty::Kind(of)) => table.field(*of, name),
        _ => None,
    }
}

/// The methods of the interface that a step starts from.
#[tactic(auto, using(vale_seen::proofs::TyLaws::types))]
pub fn methods_seen<'a>(table: &'a Table, view: &View) -> Option<&'a [Head]>
    ensures { option_map (λ hs. map view_head hs.now) result ≡ methods_seen (items_of table.now) (view_view view.now) }
{
    match seen_object(view) {
        Some(Ty::Kind(name)) => table.methods_of(*name),
        _ => None,
    }
}

/// The method of this name that a step leads to.
#[tactic(auto, using(vale_seen::proofs::TyLaws::types))]
pub fn method_seen<'a>(table: &'a Table, view: &View, name: Name) -> Option<&'a Head>
    ensures { option_map (λ h. view_head h.now) result ≡ option_and_then (λ hs. method_named hs name.0) (methods_seen (items_of table.now) (view_view view.now)) }
{
    match seen_object(view) {
        Some(Ty::Kind(of)) => table.method(*of, name),
        _ => None,
    }
}

/// The type of the elements of the array that a step starts from.
#[tactic(auto, using(vale_seen::proofs::TyLaws::types))]
pub fn elements_seen(view: &View) -> Option<&Ty>
    ensures { option_map (λ t. view_ty t.now) result ≡ elements_seen (view_view view.now) }
{
    match seen_object(view) {
        Some(Ty::Array(element)) => Some(element.get()),
        _ => None,
    }
}

/// The fields of the struct that a value of this type owns.
#[tactic(auto, using(vale_seen::proofs::TyLaws::types))]
pub fn struct_fields<'a>(table: &'a Table, ty: &Ty) -> Option<&'a [FieldDecl]>
    ensures { option_map (λ fs. map view_field fs.now) result ≡ struct_fields (items_of table.now) (view_ty ty.now) }
{
    match ty {
        Ty::Kind(name) => table.fields_of(*name),
        _ => None,
    }
}
