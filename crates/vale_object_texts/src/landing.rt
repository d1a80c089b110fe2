// Where the texts of registers lie, and where what an operation comes to goes.
ghost use Rattle.std.specs.Prelude.{◌≡◌, ℕ, ◌+◌, ◌<◌, ◌^◌, IfOk, List, Ok, OnOk, Result, length};
ghost use Rattle.vale_base.specs.declared.spot.Spot.{Spot as ASpot};
ghost use Rattle.vale_base.specs.declared.trap.TrapKind.{TrapKind as AKind};
ghost use Rattle.vale_text.specs.Gives.{Gives};
ghost use Rattle.vale_text.specs.Steps.{gives_int, gives_text};
ghost use Rattle.vale_registers.specs.Texts.{text_at};
ghost use Rattle.vale_turn.specs.View.{Stays};
ghost use Rattle.vale_object_cells.specs.Cells.{cells_from, cells_in};
ghost use Rattle.vale_object_texts.specs.Texts.{Lands};

use std::alloc::Global;
use vale_base::{Fail, Memory, Spot, Text, TrapKind};
use vale_heap::Cell;
use vale_object_cells::{Register, receive, set_int};
use vale_registers::Row;
use vale_turn::Stop;

// The text of a register, where it holds one.
#[inline(always)]
pub(crate) fn text_in(texts: &Row, base: usize, register: u32) -> &Text
    requires { base + register < 2 ^ 64 }
    ensures { result.now ≡ text_at texts.now (base + register) }
{
    texts.text(base + register as usize)
}

// What an operation comes to goes to a register, or is a trap.
#[inline(always)]
pub(crate) fn land_int(
    registers: &mut [Register],
    place: &mut usize,
    to: u32,
    at: Spot,
    outcome: Result<i64, TrapKind>,
) -> Stop
    requires room { to < length registers.old }
    requires place { place.old + 1 < 2 ^ 64 }
    ensures step { (t : ℕ → List ℕ) → Lands to at (λ s. gives_int s outcome) (cells_in t registers.old) place.old result (cells_in t registers.new) place.new }
    ensures stays { Stays result }
{
    match outcome {
        Ok(number) => {
            set_int(registers, to, number);
            *place += 1;
            Stop::Going
        }
        Err(kind) => Stop::Trap(kind, at),
    }
}

// A text that was made goes to a register.
#[inline(always)]
pub(crate) fn take_text(
    alloc: Global,
    registers: &mut [Register],
    texts: &mut Row,
    base: usize,
    place: &mut usize,
    to: u32,
    text: Text,
) -> Result<Stop, Memory>
    requires room { to < length registers.old }
    requires few { base + length registers.old < 2 ^ 64 }
    requires place { place.old + 1 < 2 ^ 64 }
    ensures step { IfOk result (λ told. (at : ASpot) → Lands to at (λ s. gives_text s (Ok text)) (cells_from base texts.old registers.old) place.old told (cells_from base texts.new registers.new) place.new) }
    ensures others { OnOk result ((i : ℕ) → i < base → text_at texts.new i ≡ text_at texts.old i) }
    ensures stays { IfOk result (λ told. Stays told) }
{
    match receive(alloc, registers, texts, base, to, Cell::Text(text)) {
        Ok(()) => {
            *place += 1;
            Ok(Stop::Going)
        }
        Err(fault) => Err(fault),
    }
}

// The same of what an operation comes to, which may be a trap.
#[inline(always)]
pub(crate) fn land_text(
    alloc: Global,
    registers: &mut [Register],
    texts: &mut Row,
    base: usize,
    place: &mut usize,
    to: u32,
    at: Spot,
    outcome: Result<Text, Fail<TrapKind>>,
) -> Result<Stop, Memory>
    requires room { to < length registers.old }
    requires few { base + length registers.old < 2 ^ 64 }
    requires place { place.old + 1 < 2 ^ 64 }
    ensures step { IfOk result (λ told. (meaning : Result (List ℕ) AKind) → Gives outcome meaning
        → Lands to at (λ s. gives_text s meaning) (cells_from base texts.old registers.old) place.old told (cells_from base texts.new registers.new) place.new) }
    ensures others { OnOk result ((i : ℕ) → i < base → text_at texts.new i ≡ text_at texts.old i) }
    ensures stays { IfOk result (λ told. Stays told) }
{
    match outcome {
        Ok(text) => take_text(alloc, registers, texts, base, place, to, text),
        Err(fault) => match fault {
            Fail::Memory => Err(Memory),
            Fail::Is(kind) => Ok(Stop::Trap(kind, at)),
        },
    }
}
