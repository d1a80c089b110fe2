// One instruction within a function.
ghost use Rattle.std.specs.Prelude.{◌≡◌, ℕ, ◌+◌, ◌<◌, ◌≤◌, ◌^◌, ◌||◌, nat_lt, Bool, Some, true, length, slice_get, List};
ghost use Rattle.vale_code.specs.Instructions.{answered, comparison_of, is_tick, jump};
ghost use Rattle.vale_code.specs.Parts.{Parts};
ghost use Rattle.vale_code.specs.Registers.{read};
ghost use Rattle.vale_code.specs.declared.instr.Instr.{Instr};
ghost use Rattle.vale_text.specs.Steps.{gives_int};
ghost use Rattle.vale_registers.specs.Cells.{HoldsValue, values_in, HasRegister};
ghost use Rattle.vale_registers.specs.declared.cell.Cell.{Cell};
ghost use Rattle.vale_turn.specs.Comparing.{compared};
ghost use Rattle.vale_turn.specs.Served.{is_served, register_of};
ghost use Rattle.vale_turn.specs.View.{HasRule, IfStopped, IsAside, IsBody, Leaving, Obeyed, Scene, Stays, active, next_of, state_at};

use crate::compare::{matched, ordered};
use crate::stop::Stop;
use vale_base::{Spot, TrapKind};
use vale_code::Instr;
use vale_registers::{Cell, Shape, int_at, set_int, set_truth, shape_at, truth_at};

// A value goes to another register; texts are copied aside.
#[inline(always)]
fn copy(cells: &mut [Cell], place: &mut usize, to: u32, from: u32) -> Stop
    requires room { to < length cells.old }
    requires place { place.old + 1 < 2 ^ 64 }
    requires value { HoldsValue cells.old from }
    ensures step { (code : Parts) (function ticks : ℕ) (s : Scene) → Obeyed function s result
        (next_of code function s place.old cells.old ticks (Instr.Copy to from)) place.new cells.new ticks }
    ensures same { IfStopped result ((place.new ≡ place.old) × (cells.new ≡ cells.old)) }
    ensures aside { IsAside result }
{
    match shape_at(cells, from) {
        Shape::Int => {
            let number = int_at(cells, from);
            set_int(cells, to, number);
            *place += 1;
            Stop::Going
        }
        Shape::Truth => {
            let truth = truth_at(cells, from);
            set_truth(cells, to, truth);
            *place += 1;
            Stop::Going
        }
        Shape::Text => Stop::Aside,
        Shape::Empty => unreachable!(),
    }
}

// What an operation comes to goes to a register, or is a trap.
#[inline(always)]
fn land(
    cells: &mut [Cell],
    place: &mut usize,
    to: u32,
    at: Spot,
    outcome: Result<i64, TrapKind>,
) -> Stop
    requires room { to < length cells.old }
    requires place { place.old + 1 < 2 ^ 64 }
    ensures step { (function left : ℕ) (s : Scene) → Obeyed function s result
        (answered (active function s place.old cells.old) (Some to) (values_in s.text cells.old) at s.below (state_at s left) (gives_int (state_at s left) outcome)) place.new cells.new left }
    ensures same { IfStopped result ((place.new ≡ place.old) × (cells.new ≡ cells.old)) }
    ensures stays { Stays result }
{
    match outcome {
        Ok(number) => {
            set_int(cells, to, number);
            *place += 1;
            Stop::Going
        }
        Err(kind) => Stop::Trap(kind, at),
    }
}

// Whether a jump spends no tick: it leads on, or to a `tick`.
#[inline(always)]
fn is_free(body: &[Instr], place: usize, target: usize) -> bool
    ensures { result ≡ (nat_lt place target || is_tick (slice_get body.now target)) }
{
    if place < target {
        return true;
    }
    if target >= body.len() {
        return false;
    }
    match &body[target] {
        Instr::Tick => true,
        _ => false,
    }
}

#[inline(always)]
fn leap(body: &[Instr], place: &mut usize, left: &mut u64, target: u32) -> Stop
    ensures step { (code : Parts) (function : ℕ) (s : Scene) (cells : List Cell) → IsBody code function body.now → left.old ≤ s.given → Obeyed function s result
        (jump code (active function s place.old cells) target s.below (state_at s left.old)) place.new cells left.new }
    ensures ticks { left.new ≤ left.old }
    ensures same { IfStopped result ((place.new ≡ place.old) × (left.new ≡ left.old)) }
    ensures stays { Stays result }
{
    let target = target as usize;
    if !is_free(body, *place, target) {
        if *left == 0 {
            return Stop::Cut;
        }
        *left -= 1;
    }
    *place = target;
    Stop::Going
}

// Whether a comparison holds of what two registers hold goes to a register; texts are compared aside.
#[inline(always)]
fn compare(
    cells: &mut [Cell],
    place: &mut usize,
    to: u32,
    choice: u8,
    left: u32,
    right: u32,
) -> Stop
    requires room { to < length cells.old }
    requires place { place.old + 1 < 2 ^ 64 }
    requires right { (t : ℕ → List ℕ) × (b : Bool) × (compared (comparison_of choice) (read (values_in t cells.old) left) (read (values_in t cells.old) right) ≡ Some b) }
    ensures step { (code : Parts) (function ticks : ℕ) (s : Scene) → Obeyed function s result
        (next_of code function s place.old cells.old ticks (Instr.Cmp to choice left right)) place.new cells.new ticks }
    ensures same { IfStopped result ((place.new ≡ place.old) × (cells.new ≡ cells.old)) }
    ensures aside { IsAside result }
{
    match shape_at(cells, left) {
        Shape::Int => {
            let first = int_at(cells, left);
            let second = int_at(cells, right);
            let truth = ordered(choice, first, second);
            set_truth(cells, to, truth);
            *place += 1;
            Stop::Going
        }
        Shape::Truth => {
            let former = truth_at(cells, left);
            let latter = truth_at(cells, right);
            let truth = matched(choice, former, latter);
            set_truth(cells, to, truth);
            *place += 1;
            Stop::Going
        }
        Shape::Text => Stop::Aside,
        Shape::Empty => unreachable!(),
    }
}

/// One instruction within a function, where a rule gives its step.
#[inline(always)]
pub fn obey(
    body: &[Instr],
    instr: &Instr,
    cells: &mut [Cell],
    place: &mut usize,
    left: &mut u64,
) -> Stop
    requires served { is_served instr.now ≡ true }
    requires room { HasRegister (register_of instr.now) (length cells.old) }
    requires place { place.old + 1 < 2 ^ 64 }
    requires right { HasRule body.now place.old cells.old left.old instr.now }
    ensures step { (code : Parts) (function : ℕ) (s : Scene) → IsBody code function body.now → left.old ≤ s.given
        → Obeyed function s result (next_of code function s place.old cells.old left.old instr.now) place.new cells.new left.new }
    ensures ticks { left.new ≤ left.old }
    ensures leaves { Leaving result instr.now }
    ensures same { IfStopped result ((place.new ≡ place.old) × (cells.new ≡ cells.old) × (left.new ≡ left.old)) }
{
    match instr {
        Instr::Int { to, number } => {
            set_int(cells, *to, *number);
            *place += 1;
            Stop::Going
        }
        Instr::Truth { to, choice } => {
            set_truth(cells, *to, *choice == 1);
            *place += 1;
            Stop::Going
        }
        Instr::Copy { to, from } => copy(cells, place, *to, *from),
        Instr::Add {
            to,
            left,
            right,
            at,
        } => {
            let outcome = vale_text::add(int_at(cells, *left), int_at(cells, *right));
            land(cells, place, *to, *at, outcome)
        }
        Instr::Sub {
            to,
            left,
            right,
            at,
        } => {
            let outcome = vale_text::sub(int_at(cells, *left), int_at(cells, *right));
            land(cells, place, *to, *at, outcome)
        }
        Instr::Mul {
            to,
            left,
            right,
            at,
        } => {
            let outcome = vale_text::mul(int_at(cells, *left), int_at(cells, *right));
            land(cells, place, *to, *at, outcome)
        }
        Instr::Div {
            to,
            left,
            right,
            at,
        } => {
            let outcome = vale_text::div(int_at(cells, *left), int_at(cells, *right));
            land(cells, place, *to, *at, outcome)
        }
        Instr::Rem {
            to,
            left,
            right,
            at,
        } => {
            let outcome = vale_text::rem(int_at(cells, *left), int_at(cells, *right));
            land(cells, place, *to, *at, outcome)
        }
        Instr::Cmp {
            to,
            choice,
            left,
            right,
        } => compare(cells, place, *to, *choice, *left, *right),
        Instr::Not { to, from } => {
            let truth = truth_at(cells, *from);
            set_truth(cells, *to, !truth);
            *place += 1;
            Stop::Going
        }
        Instr::Jump { target } => leap(body, place, left, *target),
        Instr::Unless { condition, target } => {
            if truth_at(cells, *condition) {
                *place += 1;
                return Stop::Going;
            }
            leap(body, place, left, *target)
        }
        Instr::Tick => {
            if *left == 0 {
                return Stop::Cut;
            }
            *left -= 1;
            *place += 1;
            Stop::Going
        }
        Instr::Text { .. } => Stop::Aside,
        Instr::Join { .. } => Stop::Aside,
        Instr::TextLen { .. } => Stop::Aside,
        Instr::Slice { .. } => Stop::Aside,
        Instr::Byte { .. } => Stop::Aside,
        Instr::TextOf { .. } => Stop::Aside,
        Instr::IsNum { .. } => Stop::Aside,
        Instr::Num { .. } => Stop::Aside,
        Instr::Print { .. } => Stop::Aside,
        Instr::Call { .. } => Stop::Enters,
        Instr::Ret { from } => Stop::Leaves(Some(*from)),
        Instr::RetVoid => Stop::Leaves(None),
        _ => unreachable!(),
    }
}
