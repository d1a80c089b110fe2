// Types as they are written.
ghost use Rattle.std.specs.Prelude.{◌≡◌};
ghost use Rattle.vale_syntax.specs.View.{view_type};
ghost use Rattle.vale_rules_spec.specs.Declarations.{has_iso, base_of};

use vale_syntax::TypeExpr;

/// Whether `iso` stands in it.
pub fn has_iso(ty: &TypeExpr) -> bool
    ensures { result ≡ has_iso (view_type ty.now) }
{
    match ty {
        TypeExpr::Int(_) | TypeExpr::Bool(_) | TypeExpr::Str(_) | TypeExpr::Named(_) => false,
        TypeExpr::Array(_, inner) => has_iso(inner.get()),
        TypeExpr::Ref(_, inner) => has_iso(inner.get()),
        TypeExpr::ImmRef(_, inner) => has_iso(inner.get()),
        TypeExpr::Iso(..) => true,
    }
}

/// The name in it, where there is one.
pub fn base_of(ty: &TypeExpr) -> Option<u32>
    ensures { result ≡ base_of (view_type ty.now) }
{
    match ty {
        TypeExpr::Int(_) | TypeExpr::Bool(_) | TypeExpr::Str(_) => None,
        TypeExpr::Named(name) => Some(name.name.0),
        TypeExpr::Array(_, inner) => base_of(inner.get()),
        TypeExpr::Ref(_, inner) => base_of(inner.get()),
        TypeExpr::ImmRef(_, inner) => base_of(inner.get()),
        TypeExpr::Iso(_, inner) => base_of(inner.get()),
    }
}
