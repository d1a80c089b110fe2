// Calls over their arguments: what each gives, or its own fault.
ghost use Rattle.std.specs.Prelude.{map};
ghost use Rattle.vale_rules_spec.specs.Judged.{first, leaf, Gives};
ghost use Rattle.vale_rules_spec.specs.Types.{a_value};
ghost use Rattle.vale_rules_spec.specs.Typed as t;
ghost use Rattle.vale_rules_spec.specs.Typed.{types};
ghost use Rattle.vale_rules_spec.specs.TypeRules.{called, called_rules, called_gives, callee};
ghost use Rattle.vale_core.specs.View.{exprs_of, view_expr};
ghost use Rattle.vale_lookup.specs.Table.{names_of, items_of};

use sqlite_items::Items;
use std::alloc::Global;
use vale_base::Fail;
use vale_core::Expr;
use vale_held::Held;
use vale_lookup::Table;
use vale_seen::{a_value, types_in};
use vale_syntax::{Fault, NameAt};
use vale_type_faults::{called_by, called_fault, called_gives, callee};

/// A call.
#[tactic(auto, using(vale_rules_spec::proofs::JudgedLaws::first_leaf))]
pub fn call(
    alloc: Global,
    table: &Table,
    name: NameAt,
    args: Items<Expr>,
) -> Result<Held<Expr>, Fail<Fault>>
    ensures { Gives view_expr result (first (leaf name.at (called_rules (items_of table.now) (called (names_of table.now) (items_of table.now) name) (types (exprs_of (map view_expr args)))) (t.expr (a_value (called_gives name (called (names_of table.now) (items_of table.now) name) (types (exprs_of (map view_expr args))))) (t.call name (callee (called (names_of table.now) (items_of table.now) name)) (exprs_of (map view_expr args)))))) }
{
    let called = called_by(table, name);
    let given = types_in(alloc, args.as_slice())?;
    if let Some(code) = called_fault(alloc, table, &called, &given)? {
        return Err(Fail::Is(Fault { code, at: name.at }));
    }
    let ty = called_gives(alloc, name, &called, &given)?;
    let seen = a_value(alloc, ty)?;
    Ok(Held::new(Expr::call(seen, name, callee(&called), args)))
}
