// Jumps and ticks.
ghost use Rattle.std.specs.Prelude.{◌≡◌, ◌+◌, ◌<◌, ◌≤◌, ◌^◌, ◌||◌, List, nat_lt, slice_get, true};
ghost use Rattle.vale_code.specs.Instructions.{is_tick};
ghost use Rattle.vale_turn.specs.View.{IfStopped, Stays};
ghost use Rattle.vale_object_cells.specs.declared.register.Register.{Register as ARegister};
ghost use Rattle.vale_object_numbers.specs.Numbers.{HasRuleOf, Leaps, ObeysOf, is_jump};

use vale_code::Instr;
use vale_object_cells::{Register, truth_at};
use vale_turn::Stop;

// Whether a jump spends no tick: it leads on, or to a `tick`.
#[inline(always)]
fn is_free(body: &[Instr], place: usize, target: usize) -> bool
    ensures { result ≡ (nat_lt place target || is_tick (slice_get body.now target)) }
{
    if place < target {
        return true;
    }
    match body.get(target) {
        Some(Instr::Tick) => true,
        _ => false,
    }
}

// A jump.
#[inline(always)]
fn leap(body: &[Instr], place: &mut usize, left: &mut u64, target: u32) -> Stop
    ensures step { (registers : List ARegister) → Leaps body.now registers target place.old left.old result place.new left.new }
    ensures ticks { left.new ≤ left.old }
    ensures kept { IfStopped result (left.new ≡ left.old) }
    ensures stays { Stays result }
{
    let target = target as usize;
    if is_free(body, *place, target) {
        *place = target;
        return Stop::Going;
    }
    if *left == 0 {
        return Stop::Cut;
    }
    *left -= 1;
    *place = target;
    Stop::Going
}

/// A jump, or an instruction that spends a tick.
#[inline(always)]
pub fn obey_jump(
    body: &[Instr],
    registers: &[Register],
    place: &mut usize,
    left: &mut u64,
    instr: &Instr,
) -> Stop
    requires jump { is_jump instr.now ≡ true }
    requires place { place.old + 1 < 2 ^ 64 }
    requires right { HasRuleOf body.now registers.now place.old left.old instr.now }
    ensures step { ObeysOf body.now instr.now registers.now place.old left.old result place.new left.new }
    ensures ticks { left.new ≤ left.old }
    ensures kept { IfStopped result (left.new ≡ left.old) }
    ensures stays { Stays result }
{
    match instr {
        Instr::Jump { target } => leap(body, place, left, *target),
        Instr::Unless { condition, target } => {
            if truth_at(registers, *condition) {
                *place += 1;
                return Stop::Going;
            }
            leap(body, place, left, *target)
        }
        Instr::Tick => {
            if *left == 0 {
                return Stop::Cut;
            }
            *left -= 1;
            *place += 1;
            Stop::Going
        }
        _ => unreachable!(),
    }
}
