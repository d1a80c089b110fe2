// What is set, destructured and returned, by the types of the parts.
ghost use Rattle.std.specs.Prelude.{◌≡◌, IfOk, map, option_map};
ghost use Rattle.vale_rules_spec.specs.Judged.{broken};
ghost use Rattle.vale_syntax.specs.View.{view_field};
ghost use Rattle.vale_rules_spec.specs.TypeRules.{set_rules, set_gives, destructure_rules, return_nothing_rules, return_value_rules, function_rules};
ghost use Rattle.vale_core.specs.View.{view_ty};
ghost use Rattle.vale_lookup.specs.Table.{items_of};

use std::alloc::Global;
use vale_base::Memory;
use vale_core::Ty;
use vale_lookup::Table;
use vale_syntax::{FieldDecl, NameAt};
use vale_type_rules::fits;

/// `set p = e`, where the place has this type, if it is one, and the value has that.
pub fn set_fault(table: &Table, may_be_set: bool, place: &Option<Ty>, ty: &Ty) -> Option<u8>
    ensures { result ≡ broken (set_rules (items_of table.now) may_be_set (option_map view_ty place.now) (view_ty ty.now)) }
{
    match place {
        None => Some(23),
        Some(place) => {
            if !fits(table, ty, place) {
                return Some(20);
            }
            if !may_be_set {
                return Some(24);
            }
            None
        }
    }
}

/// What `set` gives: what was in the place.
#[tactic(auto, using(vale_seen::proofs::TyLaws::types))]
pub fn set_gives(alloc: Global, place: &Option<Ty>) -> Result<Ty, Memory>
    ensures { IfOk result (λ x. view_ty x ≡ set_gives (option_map view_ty place.now)) }
{
    match place {
        None => Ok(Ty::Void),
        Some(ty) => ty.copy(alloc),
    }
}

/// `[x, y] = e;`, where the value owns a struct of these fields, if it owns one.
pub fn destructure_fault(fields: &Option<&[FieldDecl]>, names: &[NameAt]) -> Option<u8>
    ensures { result ≡ broken (destructure_rules (option_map (λ fs. map view_field fs.now) fields.now) names.now) }
{
    match fields {
        None => Some(20),
        Some(fields) => {
            if fields.len() != names.len() {
                return Some(22);
            }
            None
        }
    }
}

/// `return;` in a function that gives this.
pub fn return_nothing_fault(gives: &Ty) -> Option<u8>
    ensures { result ≡ broken (return_nothing_rules (view_ty gives.now)) }
{
    if !gives.is_void() {
        return Some(20);
    }
    None
}

/// `return e;` in a function that gives this, where the value has that type.
pub fn return_value_fault(table: &Table, gives: &Ty, ty: &Ty) -> Option<u8>
    ensures { result ≡ broken (return_value_rules (items_of table.now) (view_ty gives.now) (view_ty ty.now)) }
{
    if gives.is_void() || !fits(table, ty, gives) {
        return Some(20);
    }
    None
}

/// A function that gives this, and whose body always returns or doesn't.
pub fn function_fault(gives: &Ty, returns: bool) -> Option<u8>
    ensures { result ≡ broken (function_rules (view_ty gives.now) returns) }
{
    if !gives.is_void() && !returns {
        return Some(26);
    }
    None
}
