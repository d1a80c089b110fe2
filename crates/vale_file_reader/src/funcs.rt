//! Functions with their facts, from a file.

ghost use Rattle.std.specs.Prelude.{◌≡◌, ◌≤◌, map, IfOk};
ghost use Rattle.vale_codec.specs.Format.{Gives, many_read};
ghost use Rattle.vale_file_spec.specs.Types.{ty};
ghost use Rattle.vale_file_spec.specs.Instructions.{instr};
ghost use Rattle.vale_file_spec.specs.File.{held, reg, label, labels, live, instrs, head, func, funcs};

use crate::instrs::{read_instr, read_words};
use crate::kinds::read_tys;
use crate::types::read_ty;
use std::alloc::Global;
use std::cmp::min;
use vale_base::{Fail, Memory};
use vale_cert::{FuncFacts, Label, RegFact};
use vale_code::{Func, Instr, Sequence, Ty};
use vale_codec::{Fault, read_choice, read_word};

#[tactic(auto, unfolding(vale_file_spec::specs::File::held))]
fn read_held(bytes: &[u8]) -> Result<((Ty, u32), &[u8]), Fail<Fault>>
    ensures { Gives (λ x. ((x.0.0, x.0.1), x.1.now)) result (held.read bytes.now) }
{
    let (ty, rest) = read_ty(bytes)?;
    let (depth, rest) = read_word(rest)?;
    Ok(((ty, depth), rest))
}

#[tactic(auto, unfolding(vale_file_spec::specs::File::reg))]
fn read_reg(bytes: &[u8]) -> Result<(RegFact, &[u8]), Fail<Fault>>
    ensures { Gives (λ x. (x.0, x.1.now)) result (reg.read bytes.now) }
{
    let (tag, rest) = read_choice(bytes, 2)?;
    match tag {
        0 => Ok((RegFact::Empty, rest)),
        1 => {
            let ((ty, depth), rest) = read_held(rest)?;
            let live = false;
            Ok((RegFact::Held { ty, depth, live }, rest))
        }
        _ => {
            let ((ty, depth), rest) = read_held(rest)?;
            let live = true;
            Ok((RegFact::Held { ty, depth, live }, rest))
        }
    }
}

fn read_each_reg(
    alloc: Global,
    count: u32,
    bytes: &[u8],
) -> Result<(Vec<RegFact>, &[u8]), Fail<Fault>>
    ensures { Gives (λ x. (x.0.items, x.1.now)) result (many_read reg count bytes.now) }
{
    let mut parts = Vec::new(alloc);
    let mut rest = bytes;
    for _ in 0..count {
        let (part, after) = read_reg(rest)?;
        parts.push(part)?;
        rest = after;
    }
    Ok((parts, rest))
}

// A label of a function with so many registers.
#[tactic(auto, unfolding(vale_file_spec::specs::File::label))]
fn read_label(alloc: Global, registers: u32, bytes: &[u8]) -> Result<(Label, &[u8]), Fail<Fault>>
    ensures { Gives (λ x. (x.0, x.1.now)) result ((label registers).read bytes.now) }
{
    let (at, rest) = read_word(bytes)?;
    let (depth, rest) = read_word(rest)?;
    let (parts, rest) = read_each_reg(alloc, registers, rest)?;
    let regs = Sequence::from_vec(parts);
    Ok((Label { at, depth, regs }, rest))
}

fn read_each_label(
    alloc: Global,
    registers: u32,
    count: u32,
    bytes: &[u8],
) -> Result<(Vec<Label>, &[u8]), Fail<Fault>>
    ensures { Gives (λ x. (x.0.items, x.1.now)) result (many_read (label registers) count bytes.now) }
{
    let mut parts = Vec::new(alloc);
    let mut rest = bytes;
    for _ in 0..count {
        let (part, after) = read_label(alloc, registers, rest)?;
        parts.push(part)?;
        rest = after;
    }
    Ok((parts, rest))
}

#[tactic(auto, unfolding(vale_file_spec::specs::File::labels))]
pub fn read_labels(
    alloc: Global,
    registers: u32,
    bytes: &[u8],
) -> Result<(Sequence<Label>, &[u8]), Fail<Fault>>
    ensures { Gives (λ x. (x.0, x.1.now)) result ((labels registers).read bytes.now) }
{
    let (count, rest) = read_word(bytes)?;
    let (parts, rest) = read_each_label(alloc, registers, count, rest)?;
    Ok((Sequence::from_vec(parts), rest))
}

// The live parameters of a function of this form.
#[tactic(auto, unfolding(vale_file_spec::specs::File::live))]
fn read_live(alloc: Global, form: u8, bytes: &[u8]) -> Result<(Sequence<u32>, &[u8]), Fail<Fault>>
    requires { form ≤ 3 }
    ensures { Gives (λ x. (x.0, x.1.now)) result ((live form).read bytes.now) }
{
    match form {
        0 | 1 => Ok((Sequence::new(alloc), bytes)),
        2 => read_words(alloc, bytes),
        _ => Ok((Sequence::new(alloc), bytes)),
    }
}

fn read_each_instr(
    alloc: Global,
    count: u32,
    bytes: &[u8],
) -> Result<(Vec<Instr>, &[u8]), Fail<Fault>>
    ensures { Gives (λ x. (x.0.items, x.1.now)) result (many_read instr count bytes.now) }
{
    // a vector's first growth makes room for four
    let mut parts = Vec::with_capacity(alloc, min(count, 4) as usize)?;
    let mut rest = bytes;
    for _ in 0..count {
        let (part, after) = read_instr(alloc, rest)?;
        parts.push(part)?;
        rest = after;
    }
    Ok((parts, rest))
}

#[tactic(auto, unfolding(vale_file_spec::specs::File::instrs))]
pub fn read_instrs(alloc: Global, bytes: &[u8]) -> Result<(Sequence<Instr>, &[u8]), Fail<Fault>>
    ensures { Gives (λ x. (x.0, x.1.now)) result (instrs.read bytes.now) }
{
    let (count, rest) = read_word(bytes)?;
    let (parts, rest) = read_each_instr(alloc, count, rest)?;
    Ok((Sequence::from_vec(parts), rest))
}

#[derive(Drop)]
struct Head {
    name: u32,
    form: u8,
    params: Sequence<Ty>,
    result: Ty,
    registers: u32,
}

#[tactic(auto, unfolding(vale_file_spec::specs::File::head))]
fn read_head(alloc: Global, bytes: &[u8]) -> Result<(Head, &[u8]), Fail<Fault>>
    ensures given { Gives (λ x. ((x.0.name, (x.0.form, (x.0.params, (x.0.result, x.0.registers)))), x.1.now)) result (head.read bytes.now) }
    ensures within { IfOk result (λ x. x.0.form ≤ 3) }
{
    let (name, rest) = read_word(bytes)?;
    let (form, rest) = read_choice(rest, 3)?;
    let (params, rest) = read_tys(alloc, rest)?;
    let (result, rest) = read_ty(rest)?;
    let (registers, rest) = read_word(rest)?;
    let head = Head {
        name,
        form,
        params,
        result,
        registers,
    };
    Ok((head, rest))
}

#[tactic(auto, unfolding(vale_file_spec::specs::File::func))]
fn read_func(alloc: Global, bytes: &[u8]) -> Result<((Func, FuncFacts), &[u8]), Fail<Fault>>
    ensures { Gives (λ x. (x.0, x.1.now)) result (func.read bytes.now) }
{
    let (head, rest) = read_head(alloc, bytes)?;
    let (body, rest) = read_instrs(alloc, rest)?;
    let (live, rest) = read_live(alloc, head.form, rest)?;
    let (labels, rest) = read_labels(alloc, head.registers, rest)?;
    let func = Func {
        name: head.name,
        form: head.form,
        params: head.params,
        result: head.result,
        registers: head.registers,
        body,
    };
    Ok(((func, FuncFacts { live, labels }), rest))
}

fn read_each_func(
    alloc: Global,
    count: u32,
    bytes: &[u8],
) -> Result<(Vec<(Func, FuncFacts)>, &[u8]), Fail<Fault>>
    ensures { Gives (λ x. (x.0.items, x.1.now)) result (many_read func count bytes.now) }
{
    let mut parts = Vec::new(alloc);
    let mut rest = bytes;
    for _ in 0..count {
        let (part, after) = read_func(alloc, rest)?;
        parts.push(part)?;
        rest = after;
    }
    Ok((parts, rest))
}

/// The functions, each with its facts.
#[tactic(auto, unfolding(vale_file_spec::specs::File::funcs))]
pub fn read_funcs(
    alloc: Global,
    bytes: &[u8],
) -> Result<(Vec<(Func, FuncFacts)>, &[u8]), Fail<Fault>>
    ensures { Gives (λ x. (x.0.items, x.1.now)) result (funcs.read bytes.now) }
{
    let (count, rest) = read_word(bytes)?;
    read_each_func(alloc, count, rest)
}

/// The functions, and their facts.
pub fn split_facts(
    alloc: Global,
    pairs: Vec<(Func, FuncFacts)>,
) -> Result<(Sequence<Func>, Sequence<FuncFacts>), Memory>
    ensures { IfOk result (λ x. (x.0 ≡ map (λ f. f.0) pairs.items) × (x.1 ≡ map (λ f. f.1) pairs.items)) }
{
    let mut funcs = Vec::with_capacity(alloc, pairs.len())?;
    let mut facts = Vec::with_capacity(alloc, pairs.len())?;
    for (func, known) in pairs {
        funcs.push(func)?;
        facts.push(known)?;
    }
    Ok((Sequence::from_vec(funcs), Sequence::from_vec(facts)))
}
