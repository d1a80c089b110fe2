// Blocks, forms and loops, by the types of their parts.
ghost use Rattle.std.specs.Prelude.{◌≡◌, ◌∷◌, ◌&&◌, ◌||◌, Option, IfOk, is_some, map, option_map};
ghost use Rattle.std.specs.List.{list_all};
ghost use Rattle.vale_rules_spec.specs.Judged.{broken};
ghost use Rattle.vale_rules_spec.specs.Types.{same, is_void};
ghost use Rattle.vale_rules_spec.specs.Typed as t;
ghost use Rattle.vale_rules_spec.specs.Typed.{type, condition_types, block_types, has_else};
ghost use Rattle.vale_rules_spec.specs.TypeRules.{is_bool, void_rules, condition_rules, bounds_rules, branch_rules, iso_rules, consumed_rules, isolate_in, parallel_gives};
ghost use Rattle.vale_core.specs.View.{elses_of, else_end, view_ty, view_expr, view_block, view_else_if};
ghost use Rattle.vale_lookup.specs.Table.{items_of};

use std::alloc::Global;
use vale_base::Memory;
use vale_core::{Block, ElseIf, Expr, Ty};
use vale_lookup::Table;
use vale_seen::{block_type, type_in};
use vale_type_rules::{is_bool, is_int};

/// A block or a form that is to give nothing.
pub fn void_fault(ty: &Ty) -> Option<u8>
    ensures { result ≡ broken (void_rules (view_ty ty.now)) }
{
    if !ty.is_void() {
        return Some(20);
    }
    None
}

/// The condition of a `while`.
pub fn condition_fault(ty: &Ty) -> Option<u8>
    ensures { result ≡ broken (condition_rules (view_ty ty.now)) }
{
    if !is_bool(ty) {
        return Some(20);
    }
    None
}

/// The bounds of a loop.
pub fn bounds_fault(from: &Ty, to: &Ty) -> Option<u8>
    ensures { result ≡ broken (bounds_rules (view_ty from.now) (view_ty to.now)) }
{
    if !(is_int(from) && is_int(to)) {
        return Some(20);
    }
    None
}

/// `iso { }`, by what its block gives.
pub fn iso_fault(table: &Table, ty: &Ty) -> Option<u8>
    ensures { result ≡ broken (iso_rules (items_of table.now) (view_ty ty.now)) }
{
    if !table.may_be_isolated(ty) {
        return Some(20);
    }
    None
}

#[tactic(auto, using(vale_seen::proofs::TyLaws::types))]
fn is_consumed(ty: &Ty) -> bool
    ensures { result ≡ is_some (isolate_in (view_ty ty.now)) }
{
    match ty {
        Ty::Array(element) => matches!(element.get(), Ty::Iso(_)),
        _ => false,
    }
}

/// What a loop over isolates consumes.
pub fn consumed_fault(ty: &Ty) -> Option<u8>
    ensures { result ≡ broken (consumed_rules (view_ty ty.now)) }
{
    if !is_consumed(ty) {
        return Some(20);
    }
    None
}

/// Whether the condition of each `else if` is a truth.
#[tactic(auto, using(vale_seen::proofs::PartLaws::conditions))]
fn have_conditions(else_ifs: &[ElseIf]) -> bool
    ensures { (o : Option t.Block) → result ≡ list_all is_bool (condition_types (elses_of (map view_else_if else_ifs.now) o)) }
{
    for else_if in else_ifs {
        if !is_bool(type_in(&else_if.condition)) {
            return false;
        }
    }
    true
}

/// Whether each `else if` has a block of this type.
#[tactic(auto, using(vale_seen::proofs::PartLaws::blocks))]
fn have_blocks(ty: &Ty, else_ifs: &[ElseIf]) -> bool
    ensures { (o : Option t.Block) → list_all (same (view_ty ty.now)) (block_types (elses_of (map view_else_if else_ifs.now) o)) ≡ (result && list_all (same (view_ty ty.now)) (block_types (else_end o))) }
{
    for else_if in else_ifs {
        if !ty.is_same(block_type(&else_if.block)) {
            return false;
        }
    }
    true
}

/// Whether what is after the `if` has this type: the block after `else`, or nothing.
fn has_end(ty: &Ty, otherwise: &Option<Block>) -> bool
    ensures { result ≡ (list_all (same (view_ty ty.now)) (block_types (else_end (option_map view_block otherwise.now))) && (has_else (else_end (option_map view_block otherwise.now)) || is_void (view_ty ty.now))) }
{
    match otherwise {
        None => ty.is_void(),
        Some(block) => ty.is_same(block_type(block)),
    }
}

/// An `if` whose first block gives this: its conditions are truths, and its blocks have one type, or none without `else`.
#[tactic(auto, using(vale_seen::proofs::PartLaws::else_at_end))]
pub fn branch_fault(
    condition: &Ty,
    ty: &Ty,
    else_ifs: &[ElseIf],
    otherwise: &Option<Block>,
) -> Option<u8>
    ensures { let es = elses_of (map view_else_if else_ifs.now) (option_map view_block otherwise.now) in result ≡ broken (branch_rules (view_ty condition.now ∷ condition_types es) (view_ty ty.now) (block_types es) (has_else es)) }
{
    let is_kept = is_bool(condition)
        && have_conditions(else_ifs)
        && have_blocks(ty, else_ifs)
        && has_end(ty, otherwise);
    if is_kept { None } else { Some(20) }
}

/// What a parallel loop gives, by the type of its body.
#[tactic(auto, using(vale_seen::proofs::TyLaws::types))]
pub fn parallel_gives(alloc: Global, table: &Table, ty: &Ty) -> Result<Ty, Memory>
    ensures { IfOk result (λ x. view_ty x ≡ parallel_gives (items_of table.now) (view_ty ty.now)) }
{
    match ty {
        Ty::Iso(_) | Ty::Int | Ty::Bool | Ty::Str => Ty::array(alloc, ty.copy(alloc)?),
        Ty::Void | Ty::Kind(_) | Ty::Array(_) | Ty::Ref(_) | Ty::Imm(_) => {
            if table.may_be_isolated(ty) {
                Ty::array(alloc, Ty::isolate(alloc, ty.copy(alloc)?)?)
            } else {
                Ok(Ty::Void)
            }
        }
    }
}
