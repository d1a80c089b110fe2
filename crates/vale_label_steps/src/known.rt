// The facts of a label's registers.
ghost use Rattle.std.specs.Prelude.{◌≡◌, map, false, slice_set, IfOk};
ghost use Rattle.vale_core.specs.View.{view_ty, view_expr};
ghost use Rattle.vale_lowering.specs.Scopes.{code_type};
ghost use Rattle.vale_cert.specs.declared.facts.RegFact.TheVariants as r;
ghost use Rattle.vale_lower_facts.specs.Slots.{facts_from};
ghost use Rattle.vale_label_steps.specs.Filling.{nothing_known, last_known, locals_known, args_known, slots_known};
ghost use Rattle.vale_label_steps.specs.Standing.{stand, slots_of};

use crate::slots::{Local, Slots, Standing, code_type};
use std::alloc::Global;
use vale_base::Memory;
use vale_cert::RegFact;
use vale_code::{Sequence, Ty as CodeTy};
use vale_core::Expr;

#[tactic(auto, using(crate::proofs::FillLaws::nothing_more))]
fn empties(alloc: Global, registers: u32) -> Result<Vec<RegFact>, Memory>
    ensures { IfOk result (λ facts. facts.items ≡ nothing_known registers) }
{
    let mut facts = Vec::new(alloc);
    for at in 0..registers {
        facts.push(RegFact::Empty)?;
    }
    Ok(facts)
}

// The register holds a value of this type, where there is such a register.
#[tactic(auto, using(crate::proofs::FillLaws::set_past))]
fn hold(facts: &mut Vec<RegFact>, register: usize, ty: CodeTy)
    ensures { facts.new.items ≡ slice_set facts.old.items register (r.Held ty 0 false) }
{
    if register < facts.len() {
        facts[register] = RegFact::Held {
            ty,
            depth: 0,
            live: false,
        };
    }
}

fn hold_last(facts: &mut Vec<RegFact>, over: bool, last: u32, result_type: Option<CodeTy>)
    ensures { facts.new.items ≡ last_known over last result_type facts.old.items }
{
    if over {
        if let Some(ty) = result_type {
            hold(facts, last as usize, ty);
        }
    }
}

fn hold_locals(facts: &mut Vec<RegFact>, locals: &[Local])
    ensures { facts.new.items ≡ locals_known locals.now facts.old.items }
{
    for local in locals {
        hold(facts, local.register as usize, code_type(&local.ty));
    }
}

// From a register on the values of these.
#[tactic(auto, using(crate::proofs::SlotLaws::type_by_parts))]
fn hold_args(facts: &mut Vec<RegFact>, h: u32, args: &[Expr])
    ensures { facts.new.items ≡ args_known (map view_expr args.now) h facts.old.items }
{
    for (at, arg) in args.iter().enumerate() {
        hold(facts, h as usize + at, code_type(&arg.seen.value));
    }
}

// The innermost slot of a register counts, and so the outer ones come first.
#[tactic(auto, using(crate::proofs::FillLaws::slots))]
fn hold_slots<'a>(slots: &'a Slots<'a>, facts: &mut Vec<RegFact>)
    ensures { facts.new.items ≡ slots_known (slots_of slots.now) facts.old.items }
{
    match slots {
        Slots::Outside => {}
        Slots::Frame(locals, outer) => {
            hold_slots(outer, facts);
            hold_locals(facts, locals);
        }
        Slots::Waits(h, args, outer) => {
            hold_slots(outer, facts);
            hold_args(facts, *h, args);
        }
        Slots::Holds(register, ty, outer) => {
            hold_slots(outer, facts);
            hold(facts, *register as usize, code_type(ty));
        }
    }
}

/// The facts of so many registers. Where the function has returned before on every way, its last register counts as one
/// that holds the result, if it holds nothing else.
#[tactic(auto, using(crate::proofs::FillLaws::all_known))]
pub fn facts_at(
    alloc: Global,
    here: &Standing,
    registers: u32,
    last: u32,
    result_type: Option<CodeTy>,
) -> Result<Sequence<RegFact>, Memory>
    ensures { IfOk result (λ facts. facts ≡ facts_from (record { register = last; ty = result_type }) (stand here.now) 0 registers) }
{
    let mut facts = empties(alloc, registers)?;
    hold_last(&mut facts, here.over, last, result_type);
    hold_slots(here.slots, &mut facts);
    Ok(Sequence::from_vec(facts))
}
