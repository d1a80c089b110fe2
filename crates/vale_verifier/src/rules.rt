// The rules of one instruction.
ghost use Rattle.std.specs.Prelude.{◌≡◌, Some, slice_get, true};
ghost use Rattle.std.specs.List.{list_all};
ghost use Rattle.vale_cert.specs.Known.{fact_of, is_there, has, is_free};
ghost use Rattle.vale_cert.specs.Rules.{reads, gets, is_short, is_copied, copy_of, copies, is_ordered, is_comparable, are_alike, compares, is_printable, prints, calls, leaves, returns, control_effect, effect, row, if_types};
ghost use Rattle.vale_shape.specs.Known.{Knows};

use crate::arguments::{gets, if_types, is_usable, pass_all, reads, uses};
use crate::known::{fact_of, has, is_free, is_there, set_fact};
use crate::objects::{come_back, object_effect};
use vale_base::TEXT_LIMIT;
use vale_cert::{Kept, RegFact};
use vale_code::{Code, Func, Instr, Ty};
use vale_shape::{Implementations, is_copy, is_owned, is_void};

fn is_short(code: &Code, text: u32) -> bool
    ensures { result ≡ is_short (slice_get code.now.texts text) }
{
    match code.texts.as_slice().get(text as usize) {
        None => false,
        Some(text) => text.len() <= TEXT_LIMIT,
    }
}

fn copies(depth: u32, regs: &mut [RegFact], to: u32, a: u32) -> Kept
    ensures { copies depth regs.old to a ≡ record { kept = result; after = regs.new } }
{
    let fact = fact_of(regs, a);
    let kept = Kept {
        types: is_copied(fact),
        present: is_there(fact) && is_free(fact_of(regs, to)),
        depths: is_usable(depth, fact),
    };
    set_fact(regs, to, copy_of(depth, fact));
    kept
}

fn is_copied(fact: RegFact) -> bool
    ensures { result ≡ is_copied fact }
{
    match fact {
        RegFact::Empty => true,
        RegFact::Held { ty, .. } => !is_owned(ty),
    }
}

fn copy_of(depth: u32, fact: RegFact) -> RegFact
    ensures { result ≡ copy_of depth fact }
{
    match fact {
        RegFact::Empty => RegFact::Empty,
        RegFact::Held { ty, live, .. } => RegFact::Held { ty, depth, live },
    }
}

fn is_ordered(choice: u8, ty: Ty) -> bool
    ensures { result ≡ is_ordered choice ty }
{
    match ty {
        Ty::Int | Ty::Text => true,
        Ty::Truth => choice < 2,
        _ => false,
    }
}

fn is_comparable(choice: u8, fact: RegFact) -> bool
    ensures { result ≡ is_comparable choice fact }
{
    match fact {
        RegFact::Empty => true,
        RegFact::Held { ty, .. } => is_ordered(choice, ty),
    }
}

fn are_alike(a: RegFact, b: RegFact) -> bool
    ensures { result ≡ are_alike a b }
{
    match a {
        RegFact::Empty => true,
        RegFact::Held { ty, .. } => has(ty, b),
    }
}

fn compares(depth: u32, regs: &mut [RegFact], to: u32, choice: u8, a: u32, b: u32) -> Kept
    ensures { compares depth regs.old to choice a b ≡ record { kept = result; after = regs.new } }
{
    let left = fact_of(regs, a);
    let right = fact_of(regs, b);
    let kept = Kept {
        types: is_comparable(choice, left)
            && is_comparable(choice, right)
            && are_alike(left, right),
        present: is_there(left) && is_there(right),
        depths: true,
    };
    gets(depth, regs, to, Ty::Truth, kept)
}

fn prints(regs: &[RegFact], a: u32) -> Kept
    ensures { result ≡ prints regs.now a }
{
    match fact_of(regs, a) {
        RegFact::Empty => Kept {
            types: true,
            present: false,
            depths: true,
        },
        RegFact::Held { ty, .. } => if_types(is_copy(ty)),
    }
}

// ---- calls and leaving

fn call_plain(depth: u32, regs: &mut [RegFact], callee: &Func, to: u32, args: &[u32]) -> Kept
    ensures { calls depth regs.old (Some callee.now) to args.now ≡ record { kept = result; after = regs.new } }
{
    if callee.form != 0 {
        return if_types(false);
    }
    let kept = pass_all(depth, regs, callee.params.as_slice(), args, if_types(true));
    come_back(depth, regs, callee.result, to, kept)
}

fn calls(code: &Code, depth: u32, regs: &mut [RegFact], to: u32, func: u32, args: &[u32]) -> Kept
    ensures { calls depth regs.old (slice_get code.now.funcs func) to args.now ≡ record { kept = result; after = regs.new } }
{
    match code.funcs.as_slice().get(func as usize) {
        None => if_types(false),
        Some(callee) => call_plain(depth, regs, callee, to, args),
    }
}

fn all_are_free(regs: &[RegFact]) -> bool
    ensures { result ≡ list_all is_free regs.now }
{
    for fact in regs {
        if !is_free(*fact) {
            return false;
        }
    }
    true
}

fn leaves(depth: u32, regs: &[RegFact], kept: Kept) -> Kept
    ensures { result ≡ leaves depth regs.now kept }
{
    Kept {
        types: kept.types,
        present: kept.present && all_are_free(regs),
        depths: kept.depths && depth == 0,
    }
}

fn returns(depth: u32, regs: &mut [RegFact], a: u32, ty: Ty) -> Kept
    ensures { returns depth regs.old a ty ≡ record { kept = result; after = regs.new } }
{
    let kept = uses(depth, regs, a, ty, if_types(!is_void(ty)));
    set_fact(regs, a, RegFact::Empty);
    leaves(depth, regs, kept)
}

// ---- each instruction

fn control_effect(
    code: &Code,
    known: &Implementations,
    leaves_with: Ty,
    depth: u32,
    regs: &mut [RegFact],
    instr: &Instr,
) -> Kept
    requires { Knows known.now code.now.impls }
    ensures { control_effect code.now leaves_with depth regs.old instr.now ≡ record { kept = result; after = regs.new } }
{
    match instr {
        Instr::Print { from, .. } => prints(regs, *from),
        Instr::Jump { .. } | Instr::Tick => if_types(true),
        Instr::Unless { condition, .. } => reads(regs, *condition, Ty::Truth, if_types(true)),
        Instr::Call { to, func, args, .. } => calls(code, depth, regs, *to, *func, args.as_slice()),
        Instr::Ret { from } => returns(depth, regs, *from, leaves_with),
        Instr::RetVoid => leaves(depth, regs, if_types(is_void(leaves_with))),
        _ => object_effect(code, known, depth, regs, instr),
    }
}

fn of_one(depth: u32, regs: &mut [RegFact], to: u32, ty: Ty, a: u32, from: Ty) -> Kept
    ensures { gets depth regs.old to ty (reads regs.old a from (if_types true)) ≡ record { kept = result; after = regs.new } }
{
    let kept = reads(regs, a, from, if_types(true));
    gets(depth, regs, to, ty, kept)
}

// Two operands of the type of the result.
fn of_two(depth: u32, regs: &mut [RegFact], to: u32, ty: Ty, a: u32, b: u32) -> Kept
    ensures { gets depth regs.old to ty (reads regs.old b ty (reads regs.old a ty (if_types true))) ≡ record { kept = result; after = regs.new } }
{
    let kept = reads(regs, a, ty, if_types(true));
    let kept = reads(regs, b, ty, kept);
    gets(depth, regs, to, ty, kept)
}

fn slices(depth: u32, regs: &mut [RegFact], to: u32, a: u32, x: u32, y: u32) -> Kept
    ensures { gets depth regs.old to Ty.Text (reads regs.old y Ty.Int (reads regs.old x Ty.Int (reads regs.old a Ty.Text (if_types true)))) ≡ record { kept = result; after = regs.new } }
{
    let kept = reads(regs, a, Ty::Text, if_types(true));
    let kept = reads(regs, x, Ty::Int, kept);
    let kept = reads(regs, y, Ty::Int, kept);
    gets(depth, regs, to, Ty::Text, kept)
}

fn bytes(depth: u32, regs: &mut [RegFact], to: u32, a: u32, x: u32) -> Kept
    ensures { gets depth regs.old to Ty.Int (reads regs.old x Ty.Int (reads regs.old a Ty.Text (if_types true))) ≡ record { kept = result; after = regs.new } }
{
    let kept = reads(regs, a, Ty::Text, if_types(true));
    let kept = reads(regs, x, Ty::Int, kept);
    gets(depth, regs, to, Ty::Int, kept)
}

fn effect(
    code: &Code,
    known: &Implementations,
    leaves_with: Ty,
    depth: u32,
    regs: &mut [RegFact],
    instr: &Instr,
) -> Kept
    requires { Knows known.now code.now.impls }
    ensures { effect code.now leaves_with depth regs.old instr.now ≡ record { kept = result; after = regs.new } }
{
    match instr {
        Instr::Int { to, .. } => gets(depth, regs, *to, Ty::Int, if_types(true)),
        Instr::Truth { to, .. } => gets(depth, regs, *to, Ty::Truth, if_types(true)),
        Instr::Text { to, text } => {
            let kept = if_types(is_short(code, *text));
            gets(depth, regs, *to, Ty::Text, kept)
        }
        Instr::Copy { to, from } => copies(depth, regs, *to, *from),
        Instr::Add {
            to,
            left,
            right,
            ..
        }
        | Instr::Sub {
            to,
            left,
            right,
            ..
        }
        | Instr::Mul {
            to,
            left,
            right,
            ..
        }
        | Instr::Div {
            to,
            left,
            right,
            ..
        }
        | Instr::Rem {
            to,
            left,
            right,
            ..
        } => of_two(depth, regs, *to, Ty::Int, *left, *right),
        Instr::Cmp {
            to,
            choice,
            left,
            right,
        } => compares(depth, regs, *to, *choice, *left, *right),
        Instr::Not { to, from } => of_one(depth, regs, *to, Ty::Truth, *from, Ty::Truth),
        Instr::Join {
            to,
            left,
            right,
            ..
        } => of_two(depth, regs, *to, Ty::Text, *left, *right),
        Instr::TextLen { to, from } | Instr::Num { to, from, .. } => of_one(
            depth,
            regs,
            *to,
            Ty::Int,
            *from,
            Ty::Text,
        ),
        Instr::Slice {
            to,
            from,
            first,
            end,
            ..
        } => slices(depth, regs, *to, *from, *first, *end),
        Instr::Byte {
            to,
            from,
            index,
            ..
        } => bytes(depth, regs, *to, *from, *index),
        Instr::TextOf { to, from } => of_one(depth, regs, *to, Ty::Text, *from, Ty::Int),
        Instr::IsNum { to, from } => of_one(depth, regs, *to, Ty::Truth, *from, Ty::Text),
        _ => control_effect(code, known, leaves_with, depth, regs, instr),
    }
}

// ---- the rows

/// Which rules of its own an instruction keeps, whether what has to be known alive is, and the depth after it.
#[derive(Clone, Copy)]
pub struct Row {
    pub kept: Kept,
    pub lives: bool,
    pub depth: u32,
}

/// The row of an instruction in a function with this result, and what it makes of the registers.
pub fn row_of(
    code: &Code,
    known: &Implementations,
    leaves_with: Ty,
    depth: u32,
    regs: &mut [RegFact],
    instr: &Instr,
) -> Row
    requires { Knows known.now code.now.impls }
    ensures { row code.now leaves_with depth regs.old instr.now ≡ record { kept = result.kept; lives = result.lives; depth = result.depth; after = regs.new } }
{
    let kept = effect(code, known, leaves_with, depth, regs, instr);
    Row {
        kept,
        lives: true,
        depth,
    }
}
