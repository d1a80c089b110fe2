// What the values of expressions are, and whether that is what is wanted.
ghost use Rattle.std.specs.Prelude.{◌≡◌, ◌&&◌};
ghost use Rattle.vale_rules_spec.specs.Typed.{type};
ghost use Rattle.vale_core.specs.View.{view_expr, view_ty};
ghost use Rattle.vale_lowering_objects.specs.Scopes as s;
ghost use Rattle.vale_lower_flow.specs.Kept.{view_gives};

use vale_core::{Expr, Ty};
use vale_lower_flow::Gives;

/// What the expression gives.
#[tactic(auto, using(vale_lower_parts::proofs::NodeLaws::parens))]
pub fn given_by(expr: &Expr) -> Gives
    ensures { view_gives result ≡ s.gives_of (type (view_expr expr.now)) }
{
    Gives::of(&expr.seen.value)
}

/// Whether it gives a value.
pub fn gives_value(expr: &Expr) -> bool
    ensures { result ≡ s.is_value (s.gives_of (type (view_expr expr.now))) }
{
    given_by(expr).is_value()
}

/// Whether it gives a copied value.
pub fn gives_copy(expr: &Expr) -> bool
    ensures { result ≡ s.agree s.copy (s.gives_of (type (view_expr expr.now))) }
{
    Gives::Copied.agrees(given_by(expr))
}

/// Whether it gives what is wanted.
pub fn gives_wanted(expr: &Expr, wanted: Gives) -> bool
    ensures { result ≡ s.agree (view_gives wanted) (s.gives_of (type (view_expr expr.now))) }
{
    wanted.agrees(given_by(expr))
}

/// Whether it gives a value, and what is wanted.
pub fn gives_wanted_value(expr: &Expr, wanted: Gives) -> bool
    ensures { result ≡ (s.is_value (s.gives_of (type (view_expr expr.now))) && s.agree (view_gives wanted) (s.gives_of (type (view_expr expr.now)))) }
{
    let given = given_by(expr);
    given.is_value() && wanted.agrees(given)
}

/// Whether it gives a value, where a copied value is wanted.
pub fn copies_value(expr: &Expr, wanted: Gives) -> bool
    ensures { result ≡ (s.is_value (s.gives_of (type (view_expr expr.now))) && s.agree (view_gives wanted) s.copy) }
{
    gives_value(expr) && wanted.agrees(Gives::Copied)
}

/// Whether it gives an owner, where an owner is wanted.
pub fn keeps_owner(expr: &Expr, wanted: Gives) -> bool
    ensures { result ≡ (s.agree s.owner (s.gives_of (type (view_expr expr.now))) && s.agree (view_gives wanted) s.owner) }
{
    Gives::Owned.agrees(given_by(expr)) && wanted.agrees(Gives::Owned)
}

/// Whether it gives a value, and the type has values.
pub fn gives_to(expr: &Expr, ty: &Ty) -> bool
    ensures { result ≡ (s.is_value (s.gives_of (type (view_expr expr.now))) && s.is_value (s.gives_of (view_ty ty.now))) }
{
    gives_value(expr) && Gives::of(ty).is_value()
}

/// Whether both give values.
pub fn give_values(one: &Expr, other: &Expr) -> bool
    ensures { result ≡ (s.is_value (s.gives_of (type (view_expr one.now))) && s.is_value (s.gives_of (type (view_expr other.now)))) }
{
    gives_value(one) && gives_value(other)
}
