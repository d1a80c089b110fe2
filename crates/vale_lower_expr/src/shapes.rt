// The instructions of one node, after those of its parts.
ghost use Rattle.std.specs.Prelude.{◌≡◌, ◌+◌, ◌∷◌, ◌++◌, [], ◌&&◌, length, IfOk, OnOk};
ghost use Rattle.vale_text.specs.Operations.{is_int};
ghost use Rattle.vale_core.specs.View.{view_ty};
ghost use Rattle.vale_lowering.specs.Instructions.{only_if, load, store, exchange, operator, unary_code, registers_from, built_in_code};
ghost use Rattle.vale_lowering.specs.Lowered.{truth_number};
ghost use Rattle.vale_lowering.specs.Scopes.{agree};
ghost use Rattle.vale_lower_expr.specs.Found.{is_text};
ghost use Rattle.vale_code.specs.declared.instr.Instr.TheVariants as i;

use crate::code_buffer::{CodeBuffer, above};
use std::alloc::Global;
use vale_base::{Memory, Spot};
use vale_code::{Instr, Sequence};
use vale_core::Ty;
use vale_syntax::{BinaryOp, BuiltIn, NameAt, UnaryOp};

/// Whether a value is given exactly where one is wanted.
pub fn agree(one: bool, other: bool) -> bool
    ensures { result ≡ agree one other }
{
    if one { other } else { !other }
}

/// A number, where one is wanted.
pub fn put_number(buffer: &mut CodeBuffer, gives: bool, number: i64, h: u32) -> Result<(), Memory>
    ensures { OnOk result (buffer.new.code.items ≡ buffer.old.code.items ++ only_if (gives && is_int number) h (i.Int h number ∷ [])) }
{
    if !gives {
        return buffer.put_stuck(h);
    }
    buffer.put(Instr::Int { to: h, number })
}

/// A truth, where one is wanted.
pub fn put_truth(buffer: &mut CodeBuffer, gives: bool, truth: bool, h: u32) -> Result<(), Memory>
    ensures { OnOk result (buffer.new.code.items ≡ buffer.old.code.items ++ only_if gives h (i.Truth h (truth_number truth) ∷ [])) }
{
    if !gives {
        return buffer.put_stuck(h);
    }
    let choice = if truth { 1 } else { 0 };
    buffer.put(Instr::Truth { to: h, choice })
}

/// What a local holds.
pub fn put_load(buffer: &mut CodeBuffer, from: Option<u32>, h: u32) -> Result<(), Memory>
    ensures { OnOk result (buffer.new.code.items ≡ buffer.old.code.items ++ load from h) }
{
    match from {
        None => buffer.put_stuck(h),
        Some(from) => buffer.put(Instr::Copy { to: h, from }),
    }
}

/// The local gets what stands in the register.
pub fn put_store(buffer: &mut CodeBuffer, to: Option<u32>, h: u32) -> Result<(), Memory>
    ensures { OnOk result (buffer.new.code.items ≡ buffer.old.code.items ++ store to h) }
{
    match to {
        None => buffer.put_stuck(h),
        Some(to) => buffer.put(Instr::Copy { to, from: h }),
    }
}

/// The local gets what stands in the register, and the register what the local held.
pub fn put_exchange(buffer: &mut CodeBuffer, local: Option<u32>, h: u32) -> Result<(), Memory>
    ensures { OnOk result (buffer.new.code.items ≡ buffer.old.code.items ++ exchange local h) }
{
    match local {
        None => buffer.put_stuck(h),
        Some(local) => {
            let next = above(h)?;
            buffer.put(Instr::Copy {
                to: next,
                from: local,
            })?;
            buffer.put(Instr::Copy { to: local, from: h })?;
            buffer.put(Instr::Copy { to: h, from: next })
        }
    }
}

fn is_text(ty: &Ty) -> bool
    ensures { result ≡ is_text (view_ty ty.now) }
{
    matches!(ty, Ty::Str)
}

/// The operator between a register and the next, where its value has this type.
#[tactic(auto, using(crate::proofs::ShapeLaws::add_by_type))]
pub fn operator(op: BinaryOp, ty: &Ty, at: Spot, h: u32, next: u32) -> Instr
    requires { next ≡ h + 1 }
    ensures { result ≡ operator op (view_ty ty.now) at h }
{
    let (to, left, right) = (h, h, next);
    match op {
        BinaryOp::Equal => compare(0, h, next),
        BinaryOp::NotEqual => compare(1, h, next),
        BinaryOp::Less => compare(2, h, next),
        BinaryOp::LessEqual => compare(3, h, next),
        BinaryOp::Greater => compare(4, h, next),
        BinaryOp::GreaterEqual => compare(5, h, next),
        BinaryOp::Add => {
            if is_text(ty) {
                Instr::Join {
                    to,
                    left,
                    right,
                    at,
                }
            } else {
                Instr::Add {
                    to,
                    left,
                    right,
                    at,
                }
            }
        }
        BinaryOp::Sub => Instr::Sub {
            to,
            left,
            right,
            at,
        },
        BinaryOp::Mul => Instr::Mul {
            to,
            left,
            right,
            at,
        },
        BinaryOp::Div => Instr::Div {
            to,
            left,
            right,
            at,
        },
        BinaryOp::Rem => Instr::Rem {
            to,
            left,
            right,
            at,
        },
        BinaryOp::Or | BinaryOp::And => Instr::Truth { to, choice: 2 },
    }
}

fn compare(choice: u8, h: u32, next: u32) -> Instr
    ensures { result ≡ i.Cmp h choice h next }
{
    Instr::Cmp {
        to: h,
        choice,
        left: h,
        right: next,
    }
}

/// An operator on what stands in the register.
pub fn put_unary(buffer: &mut CodeBuffer, op: UnaryOp, at: Spot, h: u32) -> Result<(), Memory>
    ensures { OnOk result (buffer.new.code.items ≡ buffer.old.code.items ++ unary_code op at h) }
{
    match op {
        UnaryOp::Minus => {
            let next = above(h)?;
            buffer.put(Instr::Int {
                to: next,
                number: 0,
            })?;
            buffer.put(Instr::Sub {
                to: h,
                left: next,
                right: h,
                at,
            })
        }
        UnaryOp::Not => buffer.put(Instr::Not { to: h, from: h }),
        UnaryOp::Borrow | UnaryOp::Merge => buffer.put_stuck(h),
    }
}

/// So many registers from one on.
#[tactic(auto, using(crate::proofs::ShapeLaws::registers_more))]
pub fn registers_from(alloc: Global, h: u32, count: usize) -> Result<Sequence<u32>, Memory>
    ensures { IfOk result (λ registers. registers ≡ registers_from h count) }
{
    let mut registers = Vec::new(alloc);
    let mut next = h;
    for at in 0..count {
        registers.push(next)?;
        next = above(next)?;
    }
    Ok(Sequence::from_vec(registers))
}

// The instruction where both hold, and else what no step follows.
fn only_where(one: bool, other: bool, instr: Instr, h: u32) -> Instr
    ensures { result ∷ [] ≡ only_if (one && other) h (instr ∷ []) }
{
    if one && other {
        instr
    } else {
        Instr::Truth { to: h, choice: 2 }
    }
}

/// A call, once its values stand in registers.
#[derive(Clone, Copy)]
pub struct Call {
    pub name: NameAt,
    /// Whether a value is wanted of it.
    pub gives: bool,
    /// How many values it passes.
    pub values: usize,
    /// The register of the first of them, to which the call's value goes; the others stand in those after it.
    pub first: u32,
}

// A call of a built-in function, where these are the two registers after the first.
fn built_in(f: BuiltIn, call: Call, next: u32, after: u32) -> Instr
    requires next { next ≡ call.first + 1 }
    requires after { after ≡ next + 1 }
    ensures { result ∷ [] ≡ built_in_code f call.values call.gives call.name.at call.first }
{
    let Call {
        name,
        gives,
        values,
        first: h,
    } = call;
    let at = name.at;
    let (to, from) = (h, h);
    match f {
        BuiltIn::Print => only_where(values == 1, !gives, Instr::Print { from, choice: 0 }, h),
        BuiltIn::Println => only_where(values == 1, !gives, Instr::Print { from, choice: 1 }, h),
        BuiltIn::Len => only_where(values == 1, gives, Instr::TextLen { to, from }, h),
        BuiltIn::Text => only_where(values == 1, gives, Instr::TextOf { to, from }, h),
        BuiltIn::Slice => {
            let slice = Instr::Slice {
                to,
                from,
                first: next,
                end: after,
                at,
            };
            only_where(values == 3, gives, slice, h)
        }
        BuiltIn::Byte => {
            let byte = Instr::Byte {
                to,
                from,
                index: next,
                at,
            };
            only_where(values == 2, gives, byte, h)
        }
        BuiltIn::IsNumber => only_where(values == 1, gives, Instr::IsNum { to, from }, h),
        BuiltIn::Number => only_where(values == 1, gives, Instr::Num { to, from, at }, h),
        BuiltIn::Drop | BuiltIn::Push | BuiltIn::Pop => Instr::Truth { to, choice: 2 },
    }
}

/// A call of a built-in function.
pub fn put_built_in(buffer: &mut CodeBuffer, f: BuiltIn, call: Call) -> Result<(), Memory>
    ensures { OnOk result (buffer.new.code.items ≡ buffer.old.code.items ++ built_in_code f call.values call.gives call.name.at call.first) }
{
    let next = above(call.first)?;
    let after = above(next)?;
    buffer.put(built_in(f, call, next, after))
}
