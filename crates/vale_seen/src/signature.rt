// What the parameters of a head and the fields of a struct take.
ghost use Rattle.std.specs.Prelude.{◌≡◌, map, IfOk};
ghost use Rattle.vale_syntax.specs.View.{view_param, view_field, view_head};
ghost use Rattle.vale_rules_spec.specs.TypeRules.{param_types, field_types, method_takes, needs_frozen};
ghost use Rattle.vale_core.specs.View.{view_ty};

use crate::ty::type_of;
use std::alloc::Global;
use vale_base::Memory;
use vale_core::Ty;
use vale_syntax::{FieldDecl, Head, Param, TypeExpr};

/// The types of the parameters.
pub fn param_types(alloc: Global, params: &[Param]) -> Result<Vec<Ty>, Memory>
    ensures { IfOk result (λ ts. map view_ty ts.items ≡ param_types (map view_param params.now)) }
{
    let mut types = Vec::new(alloc);
    for param in params {
        types.push(type_of(alloc, &param.ty)?)?;
    }
    Ok(types)
}

/// The types of the fields.
pub fn field_types(alloc: Global, fields: &[FieldDecl]) -> Result<Vec<Ty>, Memory>
    ensures { IfOk result (λ ts. map view_ty ts.items ≡ field_types (map view_field fields.now)) }
{
    let mut types = Vec::new(alloc);
    for field in fields {
        types.push(type_of(alloc, &field.ty)?)?;
    }
    Ok(types)
}

/// The types that a method takes after its object.
pub fn method_takes(alloc: Global, head: &Head) -> Result<Vec<Ty>, Memory>
    ensures { IfOk result (λ ts. map view_ty ts.items ≡ method_takes (view_head head.now)) }
{
    match head.params.as_slice() {
        [] => Ok(Vec::new(alloc)),
        [_object, more @ ..] => param_types(alloc, more),
    }
}

/// Whether it is a method that isn't pure and whose object must be seen as `&imm`.
#[tactic(auto, using(crate::proofs::TyLaws::types))]
pub fn needs_frozen(head: &Head) -> bool
    ensures { result ≡ needs_frozen (view_head head.now) }
{
    if head.is_pure {
        return false;
    }
    match head.params.as_slice() {
        [] => false,
        [object, _more @ ..] => matches!(object.ty, TypeExpr::ImmRef(..)),
    }
}
