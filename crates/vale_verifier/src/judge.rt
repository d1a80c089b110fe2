// The rules of one instruction, and of what it leads to.
ghost use Rattle.std.specs.Prelude.{◌≡◌, ◌+◌, ◌<◌, ◌^◌, ℕ, List, [], ◌∷◌, None, Some, ◌&&◌, if◌then◌else◌, option_copied};
ghost use Rattle.vale_code.specs.Parts.{Parts};
ghost use Rattle.vale_code.specs.declared.func.Func.{Func as AnyFunc};
ghost use Rattle.vale_cert.specs.Known.{Known, label_at, may_enter};
ghost use Rattle.vale_cert.specs.Walk.{goes_on, target_of, after, broken, rules, enters, has_target, is_place, next_of};
ghost use Rattle.vale_cert.specs.declared.facts.Label.{Label as AnyLabel};
ghost use Rattle.vale_cert.specs.declared.facts.RegFact.{RegFact as AnyFact};
ghost use Rattle.vale_shape.specs.Known.{Knows};
ghost use Rattle.vale_verifier.specs.Walking.{Ahead, known_of, has_or_none};

use crate::known::may_enter;
use crate::labels::{find, front_at};
use crate::rules::row_of;
use vale_cert::{Kept, Label, RegFact};
use vale_code::{Code, Func, Instr};
use vale_shape::Implementations;

/// Whether the instruction after it is a successor.
fn goes_on(instr: &Instr) -> bool
    ensures { result ≡ goes_on instr.now }
{
    !matches!(
        instr,
        Instr::Jump { .. } | Instr::Ret { .. } | Instr::RetVoid
    )
}

fn target_of(instr: &Instr) -> Option<u32>
    ensures { result ≡ target_of instr.now }
{
    match instr {
        Instr::Jump { target } | Instr::Unless { target, .. } => Some(*target),
        _ => None,
    }
}

/// The label at a target, where there is one.
fn label_of(labels: &[Label], target: Option<u32>) -> Option<&Label>
    requires { Ahead 0 labels.now }
    ensures enters { (code : Parts) (f : AnyFunc) (base : ℕ) (known : Known) → enters code f labels.now base target known ≡ may_enter (option_copied result) known }
    ensures has { (code : Parts) (f : AnyFunc) (base : ℕ) → has_target code f labels.now base target ≡ has_or_none target (option_copied result) }
{
    match target {
        None => None,
        Some(p) => find(labels, p),
    }
}

/// The label at the next instruction, where that is a successor; these are the labels after this one.
fn label_behind<'a>(left: &'a [Label], place: usize, instr: &Instr) -> Option<&'a Label>
    requires place { place < 2 ^ 32 }
    requires ahead { Ahead (place + 1) left.now }
    ensures { (code : Parts) (f : AnyFunc) (base : ℕ) (known : Known) → enters code f left.now base (next_of code f left.now base place instr.now) known ≡ may_enter (option_copied result) known }
{
    if goes_on(instr) {
        front_at(left, place + 1)
    } else {
        None
    }
}

/// Whether there is a label at the target, where there is a target.
fn has_or_none(target: Option<u32>, label: Option<&Label>) -> bool
    ensures { result ≡ has_or_none target (option_copied label.entry) }
{
    match target {
        None => true,
        Some(_) => label.is_some(),
    }
}

/// Whether the next instruction is there, where that is a successor.
fn has_next(func: &Func, place: usize, instr: &Instr) -> bool
    requires place { place < 2 ^ 32 }
    ensures { (code : Parts) (labels : List AnyLabel) (base : ℕ) → result ≡ is_place code func.now labels base (next_of code func.now labels base place instr.now) }
{
    !goes_on(instr) || place + 1 < func.body.len()
}

/// Whether what is known after an instruction may enter the labels that it leads to; `left` are those after this place.
fn enters_labels(
    labels: &[Label],
    left: &[Label],
    place: usize,
    depth: u32,
    regs: &[RegFact],
    instr: &Instr,
) -> bool
    requires place { place < 2 ^ 32 }
    requires all { Ahead 0 labels.now }
    requires ahead { Ahead (place + 1) left.now }
    requires same { (q : ℕ) → place < q → label_at left.now q ≡ label_at labels.now q }
    ensures { (code : Parts) (f : AnyFunc) (base : ℕ) → result ≡ (enters code f labels.now base (target_of instr.now) (record { depth = depth; regs = regs.now }) && enters code f labels.now base (next_of code f labels.now base place instr.now) (record { depth = depth; regs = regs.now })) }
{
    let target = target_of(instr);
    let aim = label_of(labels, target);
    let next = label_behind(left, place, instr);
    may_enter(aim, depth, regs) && may_enter(next, depth, regs)
}

/// Whether there is something at each place that an instruction leads to: a label at its target, an instruction after it.
fn leads_on(func: &Func, labels: &[Label], place: usize, instr: &Instr) -> bool
    requires place { place < 2 ^ 32 }
    requires all { Ahead 0 labels.now }
    ensures { (code : Parts) (base : ℕ) → result ≡ (has_target code func.now labels.now base (target_of instr.now) && is_place code func.now labels.now base (next_of code func.now labels.now base place instr.now)) }
{
    let target = target_of(instr);
    let aim = label_of(labels, target);
    has_or_none(target, aim) && has_next(func, place, instr)
}

/// The lowest rule that an instruction breaks: of its own three, of labels that it or the function's entry
/// enters, of what has to be known alive, and of places that it leads to.
fn lowest(kept: Kept, came: bool, enters: bool, lives: bool, leads: bool) -> Option<u8>
    ensures { result ≡ broken ((2, kept.types) ∷ (3, kept.present) ∷ (4, kept.depths) ∷ (5, came && enters) ∷ (6, lives) ∷ (7, leads) ∷ []) }
{
    if !kept.types {
        return Some(2);
    }
    if !kept.present {
        return Some(3);
    }
    if !kept.depths {
        return Some(4);
    }
    if !(came && enters) {
        return Some(5);
    }
    if !lives {
        return Some(6);
    }
    if !leads {
        return Some(7);
    }
    None
}

/// Where an instruction stands.
#[derive(Drop)]
pub struct Standing<'a> {
    pub code: &'a Code,
    /// The code's implementations.
    pub known: &'a Implementations,
    pub func: &'a Func,
    /// The labels of the function.
    pub labels: &'a [Label],
    /// Those of them after the instruction.
    pub left: &'a [Label],
    /// Its place in the function.
    pub place: usize,
    /// Whether the function's entry may enter the label at the first instruction.
    pub came: bool,
}

/// The lowest rule that an instruction breaks, before which this is known; the depth and the registers are those after it.
pub fn step(here: &Standing, depth: &mut u32, regs: &mut [RegFact], instr: &Instr) -> Option<u8>
    requires known { Knows here.now.known.now here.now.code.now.impls }
    requires place { here.now.place < 2 ^ 32 }
    requires all { Ahead 0 here.now.labels.now }
    requires ahead { Ahead (here.now.place + 1) here.now.left.now }
    requires same { (q : ℕ) → here.now.place < q → label_at here.now.left.now q ≡ label_at here.now.labels.now q }
    ensures rule { (base : ℕ) → result ≡ broken (rules here.now.code.now here.now.func.now here.now.labels.now base here.now.place here.now.came instr.now (record { depth = depth.old; regs = regs.old })) }
    ensures after { (base : ℕ) → after here.now.code.now here.now.func.now here.now.labels.now base instr.now (record { depth = depth.old; regs = regs.old }) ≡ record { depth = depth.new; regs = regs.new } }
{
    let row = row_of(here.code, here.known, here.func.result, *depth, regs, instr);
    *depth = row.depth;
    let enters = enters_labels(here.labels, here.left, here.place, row.depth, regs, instr);
    let leads = leads_on(here.func, here.labels, here.place, instr);
    lowest(row.kept, here.came, enters, row.lives, leads)
}

/// The depth after an instruction, where that is its successor.
pub fn depth_after(instr: &Instr, depth: u32) -> Option<u32>
    ensures { (regs : List AnyFact) → known_of result regs ≡ if goes_on instr.now then Some (record { depth = depth; regs = regs }) else None }
{
    if goes_on(instr) { Some(depth) } else { None }
}
