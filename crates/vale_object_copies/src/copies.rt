// Values that are copied.
ghost use Rattle.std.specs.Prelude.{◌≡◌, ℕ, ◌+◌, ◌<◌, ◌^◌, IfOk, OnOk, length, slice_set};
ghost use Rattle.vale_registers.specs.Texts.{text_at};
ghost use Rattle.vale_code.specs.declared.instr.Instr.{Instr};
ghost use Rattle.vale_heap.specs.HeapState.{HeapState};
ghost use Rattle.vale_object_cells.specs.Cells.{cells_from, held};
ghost use Rattle.vale_object_turn.specs.Steps.{HasRule, Obeys};
ghost use Rattle.vale_object_copies.specs.Copies.{HoldsCopied};

use vale_base::Memory;
use vale_object_cells::{
    Register, Shape, int_at, place_at, set_int, set_reference, set_text, set_truth, shape_at,
    truth_at,
};
use vale_registers::Row;
use vale_turn::Stop;

// A register gets what another holds. A text is shared.
#[inline(always)]
fn duplicate(
    registers: &mut [Register],
    texts: &mut Row,
    base: usize,
    to: u32,
    from: u32,
) -> Result<(), Memory>
    requires room { to < length registers.old }
    requires few { base + length registers.old < 2 ^ 64 }
    requires copied { HoldsCopied registers.old from }
    ensures cells { OnOk result (cells_from base texts.new registers.new ≡ slice_set (cells_from base texts.old registers.old) to (held (cells_from base texts.old registers.old) from)) }
    ensures others { OnOk result ((i : ℕ) → i < base → text_at texts.new i ≡ text_at texts.old i) }
{
    match shape_at(registers, from) {
        Shape::Int => {
            let number = int_at(registers, from);
            set_int(registers, to, number);
            Ok(())
        }
        Shape::Truth => {
            let truth = truth_at(registers, from);
            set_truth(registers, to, truth);
            Ok(())
        }
        Shape::Text => match texts.share(base + from as usize, base + to as usize) {
            Ok(()) => {
                set_text(registers, to);
                Ok(())
            }
            Err(fault) => Err(fault),
        },
        Shape::Ref => {
            let place = place_at(registers, from);
            set_reference(registers, to, place);
            Ok(())
        }
        _ => unreachable!(),
    }
}

/// A number, a truth, a text or a reference goes to another register, and stays where it is.
pub fn obey_copy(
    registers: &mut [Register],
    texts: &mut Row,
    base: usize,
    place: &mut usize,
    to: u32,
    from: u32,
) -> Result<Stop, Memory>
    requires room { to < length registers.old }
    requires few { base + length registers.old < 2 ^ 64 }
    requires place { place.old + 1 < 2 ^ 64 }
    requires right { (heap : HeapState) × (left : ℕ) × HasRule heap (cells_from base texts.old registers.old) place.old left (Instr.Copy to from) }
    ensures step { IfOk result (λ told. (heap : HeapState) (left : ℕ) → Obeys (Instr.Copy to from) heap (cells_from base texts.old registers.old) place.old left told heap (cells_from base texts.new registers.new) place.new left) }
    ensures others { OnOk result ((i : ℕ) → i < base → text_at texts.new i ≡ text_at texts.old i) }
{
    match duplicate(registers, texts, base, to, from) {
        Ok(()) => {
            *place += 1;
            Ok(Stop::Going)
        }
        Err(fault) => Err(fault),
    }
}
