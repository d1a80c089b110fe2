// Plain values, operators and the ends of freezes.
ghost use Rattle.std.specs.Prelude.{◌≡◌, ◌+◌, ◌&&◌, ◌∷◌, [], IfOk, OnOk};
ghost use Rattle.vale_core.specs.View.{view_ty};
ghost use Rattle.vale_text.specs.Operations.{is_int};
ghost use Rattle.vale_code.specs.declared.instr.Instr.TheVariants as i;
ghost use Rattle.vale_lowering.specs.Instructions.{only_if, operator, unary_code, registers_from};
ghost use Rattle.vale_lowering.specs.Texts.{is_lawful_text};
ghost use Rattle.vale_lowering_objects.specs.Lowered.{truth_number, thaw_code};
ghost use Rattle.vale_lowering_objects.specs.Scopes.{copy, agree};
ghost use Rattle.vale_lower_flow.specs.Flow.{going, put};
ghost use Rattle.vale_lower_flow.specs.Kept.{view_gives};
ghost use Rattle.vale_lower_places.specs.Origins.{is_text};

use crate::places::put_stuck;
use std::alloc::Global;
use vale_base::{Memory, Spot, TEXT_LIMIT, Text};
use vale_code::{Instr, Sequence};
use vale_core::Ty;
use vale_lower_flow::{Flow, Gives, above};
use vale_syntax::{BinaryOp, UnaryOp};

/// A number, where a copied value is wanted.
pub fn put_number(flow: &mut Flow, gives: Gives, number: i64, h: u32) -> Result<(), Memory>
    ensures { OnOk result (going flow.new ≡ put (only_if (agree (view_gives gives) copy && is_int number) h (i.Int h number ∷ [])) (going flow.old)) }
{
    if !gives.agrees(Gives::Copied) {
        return put_stuck(flow, h);
    }
    flow.put(Instr::Int { to: h, number })
}

// Whether a `str` may have this text. Each byte of it is one.
#[tactic(auto, using(crate::proofs::PlaceLaws::lawful_text))]
fn is_lawful(text: &Text) -> bool
    ensures { result ≡ is_lawful_text text.now }
{
    let bytes = text.as_slice();
    bytes.len() <= TEXT_LIMIT
}

/// A quote that has this number, where a copied value is wanted.
pub fn put_quote(
    flow: &mut Flow,
    number: u32,
    gives: Gives,
    text: &Text,
    h: u32,
) -> Result<(), Memory>
    ensures { OnOk result (going flow.new ≡ put (only_if (agree (view_gives gives) copy && is_lawful_text text.now) h (i.Text h number ∷ [])) (going flow.old)) }
{
    if !gives.agrees(Gives::Copied) || !is_lawful(text) {
        return put_stuck(flow, h);
    }
    flow.put(Instr::Text {
        to: h,
        text: number,
    })
}

/// A truth, where a copied value is wanted.
pub fn put_truth(flow: &mut Flow, gives: Gives, truth: bool, h: u32) -> Result<(), Memory>
    ensures { OnOk result (going flow.new ≡ put (only_if (agree (view_gives gives) copy) h (i.Truth h (truth_number truth) ∷ [])) (going flow.old)) }
{
    if !gives.agrees(Gives::Copied) {
        return put_stuck(flow, h);
    }
    let choice = if truth { 1 } else { 0 };
    flow.put(Instr::Truth { to: h, choice })
}

fn is_text(ty: &Ty) -> bool
    ensures { result ≡ is_text (view_ty ty.now) }
{
    matches!(ty, Ty::Str)
}

// The operator between a register and the next, where its value has this type.
#[tactic(auto, using(crate::proofs::PlaceLaws::add_by_type))]
fn operator(op: BinaryOp, ty: &Ty, at: Spot, h: u32, next: u32) -> Instr
    requires { next ≡ h + 1 }
    ensures { result ≡ operator op (view_ty ty.now) at h }
{
    let (to, left, right) = (h, h, next);
    match op {
        BinaryOp::Equal => compare(0, h, next),
        BinaryOp::NotEqual => compare(1, h, next),
        BinaryOp::Less => compare(2, h, next),
        BinaryOp::LessEqual => compare(3, h, next),
        BinaryOp::Greater => compare(4, h, next),
        BinaryOp::GreaterEqual => compare(5, h, next),
        BinaryOp::Add => {
            if is_text(ty) {
                Instr::Join {
                    to,
                    left,
                    right,
                    at,
                }
            } else {
                Instr::Add {
                    to,
                    left,
                    right,
                    at,
                }
            }
        }
        BinaryOp::Sub => Instr::Sub {
            to,
            left,
            right,
            at,
        },
        BinaryOp::Mul => Instr::Mul {
            to,
            left,
            right,
            at,
        },
        BinaryOp::Div => Instr::Div {
            to,
            left,
            right,
            at,
        },
        BinaryOp::Rem => Instr::Rem {
            to,
            left,
            right,
            at,
        },
        BinaryOp::Or | BinaryOp::And => Instr::Truth { to, choice: 2 },
    }
}

fn compare(choice: u8, h: u32, next: u32) -> Instr
    ensures { result ≡ i.Cmp h choice h next }
{
    Instr::Cmp {
        to: h,
        choice,
        left: h,
        right: next,
    }
}

/// The operator between a register and the next.
pub fn put_operator(flow: &mut Flow, op: BinaryOp, ty: &Ty, at: Spot, h: u32) -> Result<(), Memory>
    ensures { OnOk result (going flow.new ≡ put (operator op (view_ty ty.now) at h ∷ []) (going flow.old)) }
{
    let next = above(h)?;
    flow.put(operator(op, ty, at, h, next))
}

/// An operator on what stands in the register.
#[tactic(auto, using(crate::proofs::PlaceLaws::puts))]
pub fn put_unary(flow: &mut Flow, op: UnaryOp, at: Spot, h: u32) -> Result<(), Memory>
    ensures { OnOk result (going flow.new ≡ put (unary_code op at h) (going flow.old)) }
{
    match op {
        UnaryOp::Minus => {
            let next = above(h)?;
            flow.put(Instr::Int {
                to: next,
                number: 0,
            })?;
            flow.put(Instr::Sub {
                to: h,
                left: next,
                right: h,
                at,
            })
        }
        UnaryOp::Not => flow.put(Instr::Not { to: h, from: h }),
        UnaryOp::Borrow | UnaryOp::Merge => put_stuck(flow, h),
    }
}

/// The end of a freeze, by whether its block's type is an owner's.
pub fn put_thaw(flow: &mut Flow, is_owner: bool, gives: Gives, h: u32) -> Result<(), Memory>
    ensures { OnOk result (going flow.new ≡ put (thaw_code is_owner (view_gives gives) h) (going flow.old)) }
{
    if !is_owner {
        return flow.put(Instr::ThawClear);
    }
    if !gives.agrees(Gives::Owned) {
        return put_stuck(flow, h);
    }
    flow.put(Instr::ThawMerge { to: h, from: h })
}

/// So many registers from one on.
#[tactic(auto, using(crate::proofs::PlaceLaws::registers_more))]
pub fn registers_from(alloc: Global, h: u32, count: usize) -> Result<Sequence<u32>, Memory>
    ensures { IfOk result (λ registers. registers ≡ registers_from h count) }
{
    let mut registers = Vec::new(alloc);
    let mut next = h;
    for at in 0..count {
        registers.push(next)?;
        next = above(next)?;
    }
    Ok(Sequence::from_vec(registers))
}
