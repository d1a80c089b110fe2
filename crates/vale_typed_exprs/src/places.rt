// Names and what is set: what each is, or its own fault.
ghost use Rattle.std.specs.Prelude.{◌≡◌};
ghost use Rattle.vale_rules_spec.specs.Judged.{first, leaf, Gives};
ghost use Rattle.vale_rules_spec.specs.Types as y;
ghost use Rattle.vale_rules_spec.specs.Types.{a_value};
ghost use Rattle.vale_rules_spec.specs.Typed as t;
ghost use Rattle.vale_rules_spec.specs.Typed.{seen, type, may_be_set};
ghost use Rattle.vale_rules_spec.specs.TypeRules.{name_rules, set_rules, set_gives};
ghost use Rattle.vale_rules_spec.specs.Typing.{named};
ghost use Rattle.vale_core.specs.View.{view_expr, view_ty};
ghost use Rattle.vale_seen.specs.Scope.{locals};
ghost use Rattle.vale_lookup.specs.Table.{items_of};

use std::alloc::Global;
use vale_base::{Fail, Spot};
use vale_core::{Expr, Ty};
use vale_held::Held;
use vale_lookup::Table;
use vale_seen::{
    Scope, a_value, is_moved, is_outer, local_of, local_seen, may_be_set, seen_of, type_in,
};
use vale_syntax::{Fault, NameAt};
use vale_type_faults::{set_fault, set_gives};

/// The name of a local.
pub fn name(
    alloc: Global,
    gives: &Ty,
    depth: u32,
    scope: &Scope,
    as_value: bool,
    name: NameAt,
) -> Result<Held<Expr>, Fail<Fault>>
    ensures { Gives view_expr result (first (leaf name.at (name_rules name (locals scope.now)) (named (record { gives = view_ty gives.now; depth = depth; scope = locals scope.now }) as_value name (y.local_of name.name.0 (locals scope.now))))) }
{
    match local_of(scope, name.name) {
        None => Err(Fail::Is(Fault {
            code: 21,
            at: name.at,
        })),
        Some(local) => {
            let seen = local_seen(alloc, depth, local)?;
            let is_outer = is_outer(depth, local);
            let is_moved = is_moved(as_value, depth, local);
            Ok(Held::new(Expr::name(seen, name, is_outer, is_moved)))
        }
    }
}

/// `set p = e`.
#[tactic(auto, using(vale_rules_spec::proofs::JudgedLaws::first_leaf))]
pub fn set(
    alloc: Global,
    table: &Table,
    at: Spot,
    place: Held<Expr>,
    value: Held<Expr>,
) -> Result<Held<Expr>, Fail<Fault>>
    ensures { Gives view_expr result (first (leaf at (set_rules (items_of table.now) (may_be_set (view_expr place)) (seen (view_expr place)).place (type (view_expr value))) (t.expr (a_value (set_gives (seen (view_expr place)).place)) (t.set at (view_expr place) (view_expr value))))) }
{
    let known = &seen_of(place.get()).place;
    if let Some(code) = set_fault(table, may_be_set(place.get()), known, type_in(value.get())) {
        return Err(Fail::Is(Fault { code, at }));
    }
    let ty = set_gives(alloc, known)?;
    let seen = a_value(alloc, ty)?;
    let set = Expr::set(alloc, seen, at, place.into_inner(), value.into_inner())?;
    Ok(Held::new(set))
}
