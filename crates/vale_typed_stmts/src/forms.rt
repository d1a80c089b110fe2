// Blocks and forms over their parts: what each is, or its own fault.
ghost use Rattle.std.specs.Prelude.{◌≡◌, ◌∷◌, Ok, IfOk, map, option_map};
ghost use Rattle.vale_rules_spec.specs.Judged.{first, leaf, Gives};
ghost use Rattle.vale_syntax.specs.View as e;
ghost use Rattle.vale_rules_spec.specs.Typing.{block_spot};
ghost use Rattle.vale_rules_spec.specs.Typed as t;
ghost use Rattle.vale_rules_spec.specs.Typed.{type, block_type, stmts_type, condition_types, block_types, has_else};
ghost use Rattle.vale_rules_spec.specs.TypeRules.{void_rules, branch_rules, consumed_rules};
ghost use Rattle.vale_core.specs.View.{elses_of, last_end, view_ty, view_expr, view_block, view_else_if};
ghost use Rattle.vale_typed_parts.specs.Valued.{view_inside, view_valued};

use sqlite_items::{Boxed, Items};
use std::alloc::Global;
use vale_base::{Fail, Memory, Spot};
use vale_core::{Block, ElseIf, Expr, Form, Ty};
use vale_held::Held;
use vale_seen::{block_type, type_in};
use vale_syntax as source;
use vale_syntax::Fault;
use vale_type_faults::{branch_fault, consumed_fault, void_fault};
use vale_typed_parts::{Inside, Valued};

/// The block of a function, a `while` or a `foreach`.
#[tactic(auto, using(vale_rules_spec::proofs::JudgedLaws::first_leaf, crate::proofs::PartLaws::of_block_spot))]
pub fn void_block(of: &source::Block, block: Held<Block>) -> Result<Held<Block>, Fail<Fault>>
    ensures { Gives view_block result (first (leaf (block_spot (e.view_block of.now)) (void_rules (block_type (view_block block))) (view_block block))) }
{
    if let Some(code) = void_fault(block_type(block.get())) {
        return Err(Fail::Is(Fault { code, at: of.at }));
    }
    Ok(block)
}

/// The array of isolates that a loop consumes.
#[tactic(auto, using(vale_rules_spec::proofs::JudgedLaws::first_leaf))]
pub fn consumed(at: Spot, over: Held<Expr>) -> Result<Held<Expr>, Fail<Fault>>
    ensures { Gives view_expr result (first (leaf at (consumed_rules (type (view_expr over))) (view_expr over))) }
{
    if let Some(code) = consumed_fault(type_in(over.get())) {
        return Err(Fail::Is(Fault { code, at }));
    }
    Ok(over)
}

/// The type of a block with this last expression.
#[tactic(auto, using(vale_seen::proofs::TyLaws::types))]
fn type_of_last(alloc: Global, last: &Option<Boxed<Expr>>) -> Result<Ty, Memory>
    ensures { IfOk result (λ x. view_ty x ≡ stmts_type (last_end (option_map view_expr last.now))) }
{
    match last {
        None => Ok(Ty::Void),
        Some(value) => type_in(value.get()).copy(alloc),
    }
}

/// A block.
#[tactic(auto, using(vale_seen::proofs::PartLaws::type_of_end))]
pub fn block(alloc: Global, at: Spot, end: Spot, inside: Inside) -> Result<Held<Block>, Fail<Fault>>
    ensures { Gives view_block result (Ok (t.block at end (stmts_type (view_inside inside)) (view_inside inside))) }
{
    let ty = type_of_last(alloc, &inside.last)?;
    Ok(Held::new(Block::new(at, end, ty, inside.stmts, inside.last)))
}

/// `else if c { }`.
pub fn else_if(
    at: Spot,
    condition: Held<Expr>,
    block: Held<Block>,
) -> Result<Held<ElseIf>, Fail<Fault>>
    ensures { Gives view_else_if result (Ok (t.else_if at (view_expr condition) (view_block block))) }
{
    let block = block.into_inner();
    Ok(Held::new(ElseIf::new(at, condition.into_inner(), block)))
}

/// `if c { } else if d { } else { }`.
#[tactic(auto, using(vale_rules_spec::proofs::JudgedLaws::first_leaf))]
pub fn branch(
    alloc: Global,
    at: Spot,
    condition: Held<Expr>,
    block: Held<Block>,
    else_ifs: Items<ElseIf>,
    otherwise: Held<Option<Block>>,
) -> Result<Held<Valued>, Fail<Fault>>
    ensures { let es = elses_of (map view_else_if else_ifs) (option_map view_block otherwise) in Gives view_valued result (first (leaf at (branch_rules (type (view_expr condition) ∷ condition_types es) (block_type (view_block block)) (block_types es) (has_else es)) (block_type (view_block block), t.branch at (view_expr condition) (view_block block) es))) }
{
    let ty = block_type(block.get());
    let (condition_type, others) = (type_in(condition.get()), else_ifs.as_slice());
    if let Some(code) = branch_fault(condition_type, ty, others, otherwise.get()) {
        return Err(Fail::Is(Fault { code, at }));
    }
    let ty = ty.copy(alloc)?;
    let (condition, block) = (condition.into_inner(), block.into_inner());
    let form = Form::branch(at, condition, block, else_ifs, otherwise.into_inner());
    Ok(Held::new(Valued { ty, form }))
}

/// `pure { }`.
pub fn pure(alloc: Global, at: Spot, block: Held<Block>) -> Result<Held<Valued>, Fail<Fault>>
    ensures { Gives view_valued result (Ok (block_type (view_block block), t.pure at (view_block block))) }
{
    let ty = block_type(block.get()).copy(alloc)?;
    let form = Form::pure(at, block.into_inner());
    Ok(Held::new(Valued { ty, form }))
}
