// Instructions that read a text into a number or a truth.
ghost use Rattle.std.specs.Prelude.{◌≡◌, ℕ, ◌+◌, ◌<◌, ◌^◌, length, pos, true};
ghost use Rattle.vale_registers.specs.Cells.{HasRegister};
ghost use Rattle.vale_heap.specs.HeapState.{HeapState};
ghost use Rattle.vale_turn.specs.Served.{register_of};
ghost use Rattle.vale_turn.specs.View.{Stays};
ghost use Rattle.vale_object_cells.specs.Cells.{cells_from};
ghost use Rattle.vale_object_turn.specs.Steps.{HasRule, Obeys};
ghost use Rattle.vale_object_texts.specs.Texts.{reads_text};

use crate::landing::{land_int, text_in};
use vale_base::Text;
use vale_code::Instr;
use vale_object_cells::{Register, int_at, set_int, set_truth};
use vale_registers::Row;
use vale_turn::Stop;

// The length of a text.
fn count_of(text: &Text) -> i64
    ensures { result ≡ pos (length text.now) }
{
    text.as_slice().len() as i64
}

/// An instruction that reads a text into a number or a truth. No text changes.
pub fn obey_reading(
    registers: &mut [Register],
    texts: &Row,
    base: usize,
    place: &mut usize,
    instr: &Instr,
) -> Stop
    requires reading { reads_text instr.now ≡ true }
    requires room { HasRegister (register_of instr.now) (length registers.old) }
    requires few { base + length registers.old < 2 ^ 64 }
    requires place { place.old + 1 < 2 ^ 64 }
    requires right { (heap : HeapState) × (left : ℕ) × HasRule heap (cells_from base texts.now registers.old) place.old left instr.now }
    ensures step { (heap : HeapState) (left : ℕ) → Obeys instr.now heap (cells_from base texts.now registers.old) place.old left result heap (cells_from base texts.now registers.new) place.new left }
    ensures stays { Stays result }
{
    match instr {
        Instr::TextLen { to, from } => {
            let measured = text_in(texts, base, *from);
            let count = count_of(measured);
            set_int(registers, *to, count);
            *place += 1;
            Stop::Going
        }
        Instr::Byte {
            to,
            from,
            index,
            at,
        } => {
            let source = text_in(texts, base, *from);
            let position = int_at(registers, *index);
            let byte = vale_text::byte(source, position);
            land_int(registers, place, *to, *at, byte)
        }
        Instr::IsNum { to, from } => {
            let tested = text_in(texts, base, *from);
            let truth = vale_text::is_number(tested);
            set_truth(registers, *to, truth);
            *place += 1;
            Stop::Going
        }
        Instr::Num { to, from, at } => {
            let digits = text_in(texts, base, *from);
            let number = vale_text::number(digits);
            land_int(registers, place, *to, *at, number)
        }
        _ => unreachable!(),
    }
}
