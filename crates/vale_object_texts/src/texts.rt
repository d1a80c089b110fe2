// Instructions that make a text.
ghost use Rattle.std.specs.Prelude.{◌≡◌, ℕ, ◌+◌, ◌<◌, ◌^◌, IfOk, OnOk, Some, length, slice_get, true};
ghost use Rattle.vale_code.specs.declared.instr.Instr.{Instr as AnInstr};
ghost use Rattle.vale_registers.specs.Cells.{HasRegister};
ghost use Rattle.vale_registers.specs.Texts.{text_at};
ghost use Rattle.vale_heap.specs.HeapState.{HeapState};
ghost use Rattle.vale_turn.specs.Served.{register_of};
ghost use Rattle.vale_turn.specs.View.{Stays};
ghost use Rattle.vale_object_cells.specs.Cells.{cells_from};
ghost use Rattle.vale_object_turn.specs.Steps.{HasRule, Obeys};
ghost use Rattle.vale_object_texts.specs.Texts.{HasRuleIn, ObeysIn, makes_text};

use crate::landing::{land_text, take_text, text_in};
use std::alloc::Global;
use vale_base::{Memory, Text};
use vale_code::{Code, Instr};
use vale_object_cells::{Register, int_at};
use vale_registers::Row;
use vale_turn::Stop;

// A text of a code.
fn text_numbered(code: &Code, number: u32) -> &Text
    requires { number < length code.now.texts }
    ensures { slice_get code.now.texts number ≡ Some result.now }
{
    &code.texts.as_slice()[number as usize]
}

/// A copy of a text of the code goes to a register.
pub fn obey_quote(
    alloc: Global,
    code: &Code,
    registers: &mut [Register],
    texts: &mut Row,
    base: usize,
    place: &mut usize,
    to: u32,
    text: u32,
) -> Result<Stop, Memory>
    requires room { to < length registers.old }
    requires few { base + length registers.old < 2 ^ 64 }
    requires place { place.old + 1 < 2 ^ 64 }
    requires right { (heap : HeapState) × (left : ℕ) × HasRuleIn code.now heap (cells_from base texts.old registers.old) place.old left (AnInstr.Text to text) }
    ensures step { IfOk result (λ told. (heap : HeapState) (left : ℕ) → ObeysIn code.now (AnInstr.Text to text) heap (cells_from base texts.old registers.old) place.old left told heap (cells_from base texts.new registers.new) place.new left) }
    ensures others { OnOk result ((i : ℕ) → i < base → text_at texts.new i ≡ text_at texts.old i) }
    ensures stays { IfOk result (λ told. Stays told) }
{
    let quoted = text_numbered(code, text);
    match Text::from_slice(alloc, quoted.as_slice()) {
        Ok(copy) => take_text(alloc, registers, texts, base, place, to, copy),
        Err(fault) => Err(fault),
    }
}

/// An instruction that makes a text of what registers hold.
pub fn obey_text(
    alloc: Global,
    registers: &mut [Register],
    texts: &mut Row,
    base: usize,
    place: &mut usize,
    instr: &Instr,
) -> Result<Stop, Memory>
    requires makes { makes_text instr.now ≡ true }
    requires room { HasRegister (register_of instr.now) (length registers.old) }
    requires few { base + length registers.old < 2 ^ 64 }
    requires place { place.old + 1 < 2 ^ 64 }
    requires right { (heap : HeapState) × (left : ℕ) × HasRule heap (cells_from base texts.old registers.old) place.old left instr.now }
    ensures step { IfOk result (λ told. (heap : HeapState) (left : ℕ) → Obeys instr.now heap (cells_from base texts.old registers.old) place.old left told heap (cells_from base texts.new registers.new) place.new left) }
    ensures others { OnOk result ((i : ℕ) → i < base → text_at texts.new i ≡ text_at texts.old i) }
    ensures stays { IfOk result (λ told. Stays told) }
{
    match instr {
        Instr::Join {
            to,
            left,
            right,
            at,
        } => {
            let first = text_in(texts, base, *left);
            let second = text_in(texts, base, *right);
            let joined = vale_text::join(alloc, first, second);
            land_text(alloc, registers, texts, base, place, *to, *at, joined)
        }
        Instr::Slice {
            to,
            from,
            first,
            end,
            at,
        } => {
            let whole = text_in(texts, base, *from);
            let begin = int_at(registers, *first);
            let limit = int_at(registers, *end);
            let part = vale_text::slice(alloc, whole, begin, limit);
            land_text(alloc, registers, texts, base, place, *to, *at, part)
        }
        Instr::TextOf { to, from } => {
            let number = int_at(registers, *from);
            match vale_text::text_of(alloc, number) {
                Ok(digits) => take_text(alloc, registers, texts, base, place, *to, digits),
                Err(fault) => Err(fault),
            }
        }
        _ => unreachable!(),
    }
}
