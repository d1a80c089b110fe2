// What the rules ask of types.
ghost use Rattle.std.specs.Prelude.{◌≡◌};
ghost use Rattle.vale_syntax.specs.View.{view_type};
ghost use Rattle.vale_rules_spec.specs.Types.{type_of};
ghost use Rattle.vale_rules_spec.specs.TypeRules.{is_imm, popped};
ghost use Rattle.vale_core.specs.View.{view_ty};
ghost use Rattle.vale_region_spec.specs.RegionRules.{is_ref, is_reference, thaws, may_be_passed};

use vale_core::Ty;
use vale_syntax::TypeExpr;

#[tactic(auto, using(vale_seen::proofs::TyLaws::types))]
pub fn is_ref(ty: &Ty) -> bool
    ensures { result ≡ is_ref (view_ty ty.now) }
{
    matches!(ty, Ty::Ref(_))
}

#[tactic(auto, using(vale_seen::proofs::TyLaws::types))]
pub fn is_imm(ty: &Ty) -> bool
    ensures { result ≡ is_imm (view_ty ty.now) }
{
    matches!(ty, Ty::Imm(_))
}

/// Whether it is an `&X` or an `&imm X`.
pub fn is_reference(ty: &Ty) -> bool
    ensures { result ≡ is_reference (view_ty ty.now) }
{
    is_ref(ty) || is_imm(ty)
}

/// Whether an `&imm X` stands where an `&X` is asked for.
pub fn thaws(ty: &Ty, asked: &Ty) -> bool
    ensures { result ≡ thaws (view_ty ty.now) (view_ty asked.now) }
{
    is_imm(ty) && is_ref(asked)
}

#[tactic(auto, using(vale_seen::proofs::TyLaws::types))]
pub fn is_written_ref(ty: &TypeExpr) -> bool
    ensures { result ≡ is_ref (type_of (view_type ty.now)) }
{
    matches!(ty, TypeExpr::Ref(..))
}

/// The same, where it is asked for by a parameter or a field.
pub fn thaws_at(ty: &Ty, asked: &TypeExpr) -> bool
    ensures { result ≡ thaws (view_ty ty.now) (type_of (view_type asked.now)) }
{
    is_imm(ty) && is_written_ref(asked)
}

#[tactic(auto, using(vale_seen::proofs::TyLaws::types))]
pub fn is_written_reference(ty: &TypeExpr) -> bool
    ensures { result ≡ is_reference (type_of (view_type ty.now)) }
{
    matches!(ty, TypeExpr::Ref(..) | TypeExpr::ImmRef(..))
}

/// Whether a pure function may take it.
#[tactic(auto, using(vale_seen::proofs::TyLaws::types))]
pub fn may_be_passed(ty: &TypeExpr) -> bool
    ensures { result ≡ may_be_passed (type_of (view_type ty.now)) }
{
    match ty {
        TypeExpr::Int(_) | TypeExpr::Bool(_) | TypeExpr::Str(_) => true,
        TypeExpr::ImmRef(..) | TypeExpr::Iso(..) => true,
        TypeExpr::Named(_) | TypeExpr::Array(..) | TypeExpr::Ref(..) => false,
    }
}

/// Whether the elements of the array that it leads to are `&X`.
#[tactic(auto, using(vale_seen::proofs::TyLaws::types))]
pub fn holds_refs(array: &Ty) -> bool
    ensures { result ≡ is_ref (popped (view_ty array.now)) }
{
    match array {
        Ty::Ref(to) | Ty::Imm(to) => match to.get() {
            Ty::Array(element) => is_ref(element.get()),
            _ => false,
        },
        _ => false,
    }
}
