// Parallel loops over their parts: what each is, or its own fault.
ghost use Rattle.std.specs.Prelude.{Ok};
ghost use Rattle.vale_rules_spec.specs.Judged.{first, leaf, Gives};
ghost use Rattle.vale_rules_spec.specs.Typed as t;
ghost use Rattle.vale_rules_spec.specs.Typed.{type, block_type};
ghost use Rattle.vale_rules_spec.specs.TypeRules.{bounds_rules, parallel_gives};
ghost use Rattle.vale_core.specs.View.{view_expr, view_block};
ghost use Rattle.vale_lookup.specs.Table.{items_of};
ghost use Rattle.vale_typed_parts.specs.Valued.{view_valued};

use std::alloc::Global;
use vale_base::{Fail, Spot};
use vale_core::{Block, Expr, Form};
use vale_held::Held;
use vale_lookup::Table;
use vale_seen::{block_type, type_in};
use vale_syntax::{Fault, NameAt};
use vale_type_faults::{bounds_fault, parallel_gives};
use vale_typed_parts::Valued;

/// `parallel foreach i in a..b { }`.
#[tactic(auto, using(vale_rules_spec::proofs::JudgedLaws::first_leaf))]
pub fn parallel_range(
    alloc: Global,
    table: &Table,
    at: Spot,
    name: NameAt,
    from: Held<Expr>,
    to: Held<Expr>,
    block: Held<Block>,
) -> Result<Held<Valued>, Fail<Fault>>
    ensures { Gives view_valued result (first (leaf at (bounds_rules (type (view_expr from)) (type (view_expr to))) (parallel_gives (items_of table.now) (block_type (view_block block)), t.parallel_range at name (view_expr from) (view_expr to) (view_block block)))) }
{
    if let Some(code) = bounds_fault(type_in(from.get()), type_in(to.get())) {
        return Err(Fail::Is(Fault { code, at }));
    }
    let ty = parallel_gives(alloc, table, block_type(block.get()))?;
    let (from, to) = (from.into_inner(), to.into_inner());
    let form = Form::parallel_range(at, name, from, to, block.into_inner());
    Ok(Held::new(Valued { ty, form }))
}

/// `parallel foreach x in xs { }`.
pub fn parallel_each(
    alloc: Global,
    table: &Table,
    at: Spot,
    name: NameAt,
    over: Held<Expr>,
    block: Held<Block>,
) -> Result<Held<Valued>, Fail<Fault>>
    ensures { Gives view_valued result (Ok (parallel_gives (items_of table.now) (block_type (view_block block)), t.parallel_each at name (view_expr over) (view_block block))) }
{
    let ty = parallel_gives(alloc, table, block_type(block.get()))?;
    let form = Form::parallel_each(at, name, over.into_inner(), block.into_inner());
    Ok(Held::new(Valued { ty, form }))
}
