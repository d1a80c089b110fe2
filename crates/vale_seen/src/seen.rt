// What is known of values, locals, fields and elements.
ghost use Rattle.std.specs.Prelude.{◌≡◌, option_map, IfOk};
ghost use Rattle.vale_rules_spec.specs.Types.{value_view, a_value, is_loose, seen_object, is_frozen, as_frozen, as_shared, part_seen, view_here};
ghost use Rattle.vale_core.specs.View.{view_ty, view_view, view_seen};

use crate::ty::{copy_found, object_of};
use std::alloc::Global;
use vale_base::Memory;
use vale_core::{Seen, Ty, View};

/// How a step sees a value that is no place.
#[tactic(auto, using(crate::proofs::TyLaws::types))]
pub fn value_view(alloc: Global, ty: &Ty) -> Result<View, Memory>
    ensures { IfOk result (λ v. view_view v ≡ value_view (view_ty ty.now)) }
{
    match ty {
        Ty::Ref(to) => Ok(View::Shared(to.get().copy(alloc)?)),
        Ty::Imm(to) => Ok(View::Frozen(to.get().copy(alloc)?)),
        _ => Ok(View::Blind),
    }
}

/// A value that is no place.
pub fn a_value(alloc: Global, ty: Ty) -> Result<Seen, Memory>
    ensures { IfOk result (λ s. view_seen s ≡ a_value (view_ty ty)) }
{
    let view = value_view(alloc, &ty)?;
    Ok(Seen {
        value: ty,
        view,
        place: None,
    })
}

/// Whether it is an owner or an isolate that is no place.
pub fn is_loose(seen: &Seen) -> bool
    ensures { result ≡ is_loose (view_seen seen.now) }
{
    seen.value.is_owned() && seen.place.is_none()
}

/// The same way once more.
pub fn copy_view(alloc: Global, view: &View) -> Result<View, Memory>
    ensures { IfOk result (λ v. v ≡ view.now) }
{
    match view {
        View::Blind => Ok(View::Blind),
        View::Direct(ty) => Ok(View::Direct(ty.copy(alloc)?)),
        View::Shared(ty) => Ok(View::Shared(ty.copy(alloc)?)),
        View::Frozen(ty) => Ok(View::Frozen(ty.copy(alloc)?)),
    }
}

/// The same once more.
pub fn copy_seen(alloc: Global, seen: &Seen) -> Result<Seen, Memory>
    ensures { IfOk result (λ s. s ≡ seen.now) }
{
    Ok(Seen {
        value: seen.value.copy(alloc)?,
        view: copy_view(alloc, &seen.view)?,
        place: copy_found(alloc, &seen.place)?,
    })
}

/// What a step starts from.
pub fn seen_object(view: &View) -> Option<&Ty>
    ensures { option_map (λ t. view_ty t.now) result ≡ seen_object (view_view view.now) }
{
    match view {
        View::Blind => None,
        View::Direct(ty) | View::Shared(ty) | View::Frozen(ty) => Some(ty),
    }
}

pub fn is_frozen(view: &View) -> bool
    ensures { result ≡ is_frozen (view_view view.now) }
{
    matches!(view, View::Frozen(_))
}

/// A place of this type that leads to the object, as something frozen is seen.
#[tactic(auto, using(crate::proofs::TyLaws::types))]
pub fn as_frozen(alloc: Global, ty: Ty, object: Option<Ty>) -> Result<Seen, Memory>
    ensures { IfOk result (λ s. view_seen s ≡ as_frozen (view_ty ty) (option_map view_ty object)) }
{
    match object {
        None => Ok(Seen {
            value: ty.copy(alloc)?,
            view: View::Blind,
            place: Some(ty),
        }),
        Some(object) => Ok(Seen {
            value: Ty::frozen(alloc, object.copy(alloc)?)?,
            view: View::Frozen(object),
            place: Some(ty),
        }),
    }
}

/// A place of this type that leads to the object.
pub fn as_shared(alloc: Global, ty: Ty, object: Option<Ty>) -> Result<Seen, Memory>
    ensures { IfOk result (λ s. view_seen s ≡ as_shared (view_ty ty) (option_map view_ty object)) }
{
    match object {
        None => Ok(Seen {
            value: ty.copy(alloc)?,
            view: View::Blind,
            place: Some(ty),
        }),
        Some(object) => Ok(Seen {
            value: ty.copy(alloc)?,
            view: View::Shared(object),
            place: Some(ty),
        }),
    }
}

/// A field or an element of this type, read from what is seen so.
pub fn part_seen(alloc: Global, view: &View, ty: Ty) -> Result<Seen, Memory>
    ensures { IfOk result (λ s. view_seen s ≡ part_seen (view_view view.now) (view_ty ty)) }
{
    let object = object_of(alloc, &ty)?;
    match view {
        View::Frozen(_) => as_frozen(alloc, ty, object),
        _ => as_shared(alloc, ty, object),
    }
}

/// How a step sees a local of this depth.
#[tactic(auto, using(crate::proofs::TyLaws::types))]
pub fn view_here(alloc: Global, ty: &Ty) -> Result<View, Memory>
    ensures { IfOk result (λ v. view_view v ≡ view_here (view_ty ty.now)) }
{
    match ty {
        Ty::Kind(_) | Ty::Array(_) => Ok(View::Direct(ty.copy(alloc)?)),
        Ty::Iso(root) => Ok(View::Direct(root.get().copy(alloc)?)),
        _ => value_view(alloc, ty),
    }
}
