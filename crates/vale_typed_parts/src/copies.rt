// Heads and fields once more, for the typed tree.
ghost use Rattle.std.specs.Prelude.{◌≡◌, IfOk};

use crate::lists::room_for;
use sqlite_items::{Boxed, Items};
use std::alloc::Global;
use vale_base::Memory;
use vale_syntax::{FieldDecl, Head, Param, TypeExpr};

fn copy_type(alloc: Global, ty: &TypeExpr) -> Result<TypeExpr, Memory>
    ensures { IfOk result (λ x. x ≡ ty.now) }
{
    match ty {
        TypeExpr::Int(at) => Ok(TypeExpr::Int(*at)),
        TypeExpr::Bool(at) => Ok(TypeExpr::Bool(*at)),
        TypeExpr::Str(at) => Ok(TypeExpr::Str(*at)),
        TypeExpr::Named(name) => Ok(TypeExpr::Named(*name)),
        TypeExpr::Array(at, element) => {
            let element = copy_type(alloc, element.get())?;
            Ok(TypeExpr::Array(*at, Boxed::new(alloc, element)?))
        }
        TypeExpr::Ref(at, to) => {
            let to = copy_type(alloc, to.get())?;
            Ok(TypeExpr::Ref(*at, Boxed::new(alloc, to)?))
        }
        TypeExpr::ImmRef(at, to) => {
            let to = copy_type(alloc, to.get())?;
            Ok(TypeExpr::ImmRef(*at, Boxed::new(alloc, to)?))
        }
        TypeExpr::Iso(at, root) => {
            let root = copy_type(alloc, root.get())?;
            Ok(TypeExpr::Iso(*at, Boxed::new(alloc, root)?))
        }
    }
}

fn copy_result(alloc: Global, result_type: &Option<TypeExpr>) -> Result<Option<TypeExpr>, Memory>
    ensures { IfOk result (λ x. x ≡ result_type.now) }
{
    match result_type {
        Some(ty) => Ok(Some(copy_type(alloc, ty)?)),
        None => Ok(None),
    }
}

fn copy_params(alloc: Global, params: &[Param]) -> Result<Items<Param>, Memory>
    ensures { IfOk result (λ ps. ps ≡ params.now) }
{
    let mut done = room_for(alloc, params.len())?;
    for param in params {
        let ty = copy_type(alloc, &param.ty)?;
        done.push(Param {
            name: param.name,
            ty,
        })?;
    }
    Ok(done)
}

/// The same head once more.
pub fn copy_head(alloc: Global, head: &Head) -> Result<Head, Memory>
    ensures { IfOk result (λ h. h ≡ head.now) }
{
    Ok(Head {
        is_pure: head.is_pure,
        name: head.name,
        params: copy_params(alloc, head.params.as_slice())?,
        result: copy_result(alloc, &head.result)?,
    })
}

/// The same heads once more.
pub fn copy_heads(alloc: Global, heads: &[Head]) -> Result<Items<Head>, Memory>
    ensures { IfOk result (λ hs. hs ≡ heads.now) }
{
    let mut done = room_for(alloc, heads.len())?;
    for head in heads {
        done.push(copy_head(alloc, head)?)?;
    }
    Ok(done)
}

/// The same fields once more.
pub fn copy_fields(alloc: Global, fields: &[FieldDecl]) -> Result<Items<FieldDecl>, Memory>
    ensures { IfOk result (λ fs. fs ≡ fields.now) }
{
    let mut done = room_for(alloc, fields.len())?;
    for field in fields {
        let ty = copy_type(alloc, &field.ty)?;
        done.push(FieldDecl {
            name: field.name,
            may_be_set: field.may_be_set,
            ty,
        })?;
    }
    Ok(done)
}
