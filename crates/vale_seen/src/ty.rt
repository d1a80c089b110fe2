// Types, from how they are written and from one another.
ghost use Rattle.std.specs.Prelude.{◌≡◌, option_map, IfOk};
ghost use Rattle.vale_syntax.specs.View.{view_type};
ghost use Rattle.vale_rules_spec.specs.Types.{type_of, result_of, object_of};
ghost use Rattle.vale_core.specs.View.{view_ty};

use sqlite_items::Boxed;
use std::alloc::Global;
use vale_base::Memory;
use vale_core::Ty;
use vale_syntax::TypeExpr;

/// The type that is written so.
#[tactic(auto, using(crate::proofs::TyLaws::types))]
pub fn type_of(alloc: Global, ty: &TypeExpr) -> Result<Ty, Memory>
    ensures { IfOk result (λ x. view_ty x ≡ type_of (view_type ty.now)) }
{
    match ty {
        TypeExpr::Int(_) => Ok(Ty::Int),
        TypeExpr::Bool(_) => Ok(Ty::Bool),
        TypeExpr::Str(_) => Ok(Ty::Str),
        TypeExpr::Named(name) => Ok(Ty::kind(name.name)),
        TypeExpr::Array(_, element) => Ty::array(alloc, type_of(alloc, element.get())?),
        TypeExpr::Ref(_, to) => Ty::reference(alloc, type_of(alloc, to.get())?),
        TypeExpr::ImmRef(_, to) => Ty::frozen(alloc, type_of(alloc, to.get())?),
        TypeExpr::Iso(_, root) => Ty::isolate(alloc, type_of(alloc, root.get())?),
    }
}

/// What a function with this result gives.
#[tactic(auto, using(crate::proofs::TyLaws::types))]
pub fn result_of(alloc: Global, written: &Option<TypeExpr>) -> Result<Ty, Memory>
    ensures { IfOk result (λ x. view_ty x ≡ result_of (option_map view_type written.now)) }
{
    match written {
        None => Ok(Ty::Void),
        Some(ty) => type_of(alloc, ty),
    }
}

/// What an owner, a reference or an isolate leads to.
#[tactic(auto, using(crate::proofs::TyLaws::types))]
pub fn object_of(alloc: Global, ty: &Ty) -> Result<Option<Ty>, Memory>
    ensures { IfOk result (λ x. option_map view_ty x ≡ object_of (view_ty ty.now)) }
{
    match ty {
        Ty::Void | Ty::Int | Ty::Bool | Ty::Str => Ok(None),
        Ty::Kind(_) | Ty::Array(_) => Ok(Some(ty.copy(alloc)?)),
        Ty::Ref(to) | Ty::Imm(to) | Ty::Iso(to) => Ok(Some(to.get().copy(alloc)?)),
    }
}

/// The same, where there is one.
pub fn copy_found(alloc: Global, ty: &Option<Ty>) -> Result<Option<Ty>, Memory>
    ensures { IfOk result (λ x. x ≡ ty.now) }
{
    match ty {
        None => Ok(None),
        Some(ty) => Ok(Some(ty.copy(alloc)?)),
    }
}
