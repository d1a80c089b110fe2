// Instructions on numbers and truths.
ghost use Rattle.std.specs.Prelude.{◌≡◌, ℕ, ◌+◌, ◌<◌, ◌^◌, length, true};
ghost use Rattle.vale_registers.specs.Cells.{HasRegister};
ghost use Rattle.vale_turn.specs.Served.{register_of};
ghost use Rattle.vale_turn.specs.View.{Stays};
ghost use Rattle.vale_object_numbers.specs.Numbers.{HasRuleIn, Lands, ObeysAll, is_number};

use vale_base::{Spot, TrapKind};
use vale_code::Instr;
use vale_object_cells::{Register, int_at, set_int, set_truth, truth_at};
use vale_turn::Stop;

// What an operation comes to goes to a register, or is a trap.
#[inline(always)]
fn land(
    registers: &mut [Register],
    place: &mut usize,
    to: u32,
    at: Spot,
    outcome: Result<i64, TrapKind>,
) -> Stop
    requires room { to < length registers.old }
    requires place { place.old + 1 < 2 ^ 64 }
    ensures step { Lands to at outcome registers.old place.old result registers.new place.new }
    ensures stays { Stays result }
{
    match outcome {
        Ok(number) => {
            set_int(registers, to, number);
            *place += 1;
            Stop::Going
        }
        Err(kind) => Stop::Trap(kind, at),
    }
}

/// An instruction on numbers or truths.
#[inline(always)]
pub fn obey_number(registers: &mut [Register], place: &mut usize, instr: &Instr) -> Stop
    requires number { is_number instr.now ≡ true }
    requires room { HasRegister (register_of instr.now) (length registers.old) }
    requires place { place.old + 1 < 2 ^ 64 }
    requires right { (left : ℕ) × HasRuleIn registers.old place.old left instr.now }
    ensures step { (left : ℕ) → ObeysAll instr.now registers.old place.old left result registers.new place.new left }
    ensures stays { Stays result }
{
    match instr {
        Instr::Int { to, number } => {
            set_int(registers, *to, *number);
            *place += 1;
            Stop::Going
        }
        Instr::Truth { to, choice } => {
            set_truth(registers, *to, *choice == 1);
            *place += 1;
            Stop::Going
        }
        Instr::Add {
            to,
            left,
            right,
            at,
        } => {
            let augend = int_at(registers, *left);
            let addend = int_at(registers, *right);
            let sum = vale_text::add(augend, addend);
            land(registers, place, *to, *at, sum)
        }
        Instr::Sub {
            to,
            left,
            right,
            at,
        } => {
            let minuend = int_at(registers, *left);
            let subtrahend = int_at(registers, *right);
            let difference = vale_text::sub(minuend, subtrahend);
            land(registers, place, *to, *at, difference)
        }
        Instr::Mul {
            to,
            left,
            right,
            at,
        } => {
            let multiplicand = int_at(registers, *left);
            let multiplier = int_at(registers, *right);
            let product = vale_text::mul(multiplicand, multiplier);
            land(registers, place, *to, *at, product)
        }
        Instr::Div {
            to,
            left,
            right,
            at,
        } => {
            let dividend = int_at(registers, *left);
            let divisor = int_at(registers, *right);
            let quotient = vale_text::div(dividend, divisor);
            land(registers, place, *to, *at, quotient)
        }
        Instr::Rem {
            to,
            left,
            right,
            at,
        } => {
            let numerator = int_at(registers, *left);
            let modulus = int_at(registers, *right);
            let remainder = vale_text::rem(numerator, modulus);
            land(registers, place, *to, *at, remainder)
        }
        Instr::Not { to, from } => {
            let truth = truth_at(registers, *from);
            set_truth(registers, *to, !truth);
            *place += 1;
            Stop::Going
        }
        _ => unreachable!(),
    }
}
