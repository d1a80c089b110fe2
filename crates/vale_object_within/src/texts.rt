// Instructions that make texts, or read them.
ghost use Rattle.std.specs.Prelude.{◌≡◌, ℕ, ◌+◌, ◌<◌, ◌^◌, IfOk, List, OnOk, length, true};
ghost use Rattle.vale_code.specs.declared.instr.Instr.{Instr as AnInstr};
ghost use Rattle.vale_heap.specs.HeapState.{HeapState};
ghost use Rattle.vale_registers.specs.Texts.{text_at};
ghost use Rattle.vale_turn.specs.View.{Stays};
ghost use Rattle.vale_object_cells.specs.Cells.{cells_from};
ghost use Rattle.vale_object_within.specs.Within.{HasRoomFor, HasRuleWithin, ObeysWithin, is_on_text};

use std::alloc::Global;
use vale_base::Memory;
use vale_code::{Code, Instr};
use vale_object_cells::Register;
use vale_object_texts::{obey_quote, obey_reading, obey_text};
use vale_registers::Row;
use vale_turn::Stop;

// An instruction that makes a text or reads one.
pub(crate) fn obey_on_text(
    alloc: Global,
    code: &Code,
    registers: &mut [Register],
    texts: &mut Row,
    base: usize,
    place: &mut usize,
    instr: &Instr,
) -> Result<Stop, Memory>
    requires on_text { is_on_text instr.now ≡ true }
    requires room { HasRoomFor instr.now (length registers.old) }
    requires few { base + length registers.old < 2 ^ 64 }
    requires place { place.old + 1 < 2 ^ 64 }
    requires right { (body : List AnInstr) × (heap : HeapState) × (left : ℕ) × HasRuleWithin code.now body heap (cells_from base texts.old registers.old) place.old left instr.now }
    ensures step { IfOk result (λ told. (body : List AnInstr) (heap : HeapState) (left : ℕ) → ObeysWithin code.now body instr.now heap (cells_from base texts.old registers.old) place.old left told heap (cells_from base texts.new registers.new) place.new left) }
    ensures others { OnOk result ((i : ℕ) → i < base → text_at texts.new i ≡ text_at texts.old i) }
    ensures stays { IfOk result (λ told. Stays told) }
{
    match instr {
        Instr::Text { to, text } => {
            obey_quote(alloc, code, registers, texts, base, place, *to, *text)
        }
        Instr::Join { .. } | Instr::Slice { .. } | Instr::TextOf { .. } => {
            obey_text(alloc, registers, texts, base, place, instr)
        }
        Instr::TextLen { .. } | Instr::Byte { .. } | Instr::IsNum { .. } | Instr::Num { .. } => {
            Ok(obey_reading(registers, texts, base, place, instr))
        }
        _ => unreachable!(),
    }
}
