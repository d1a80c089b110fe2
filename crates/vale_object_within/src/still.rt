// Instructions that leave all objects as they are.
ghost use Rattle.std.specs.Prelude.{◌≡◌, ℕ, ◌+◌, ◌<◌, ◌≤◌, ◌^◌, IfOk, OnOk, length, true};
ghost use Rattle.vale_registers.specs.Texts.{text_at};
ghost use Rattle.vale_turn.specs.View.{IfStopped, Stays};
ghost use Rattle.vale_object_cells.specs.Cells.{cells_from};
ghost use Rattle.vale_object_within.specs.Within.{HasRoomFor, HasRuleWithin, ObeysWithin, is_still};

use crate::texts::obey_on_text;
use std::alloc::Global;
use vale_base::Memory;
use vale_code::{Code, Instr};
use vale_heap::Heap;
use vale_object_cells::Register;
use vale_object_compares::obey_compare;
use vale_object_copies::obey_copy;
use vale_object_numbers::{obey_jump, obey_number};
use vale_object_turn::{obey_look, obey_reference};
use vale_registers::Row;
use vale_turn::Stop;

// An instruction that leaves all objects as they are.
#[inline(always)]
pub(crate) fn obey_still(
    alloc: Global,
    code: &Code,
    body: &[Instr],
    heap: &Heap,
    registers: &mut [Register],
    texts: &mut Row,
    base: usize,
    place: &mut usize,
    left: &mut u64,
    instr: &Instr,
) -> Result<Stop, Memory>
    requires still { is_still instr.now ≡ true }
    requires room { HasRoomFor instr.now (length registers.old) }
    requires few { base + length registers.old < 2 ^ 64 }
    requires place { place.old + 1 < 2 ^ 64 }
    requires right { HasRuleWithin code.now body.now heap.now (cells_from base texts.old registers.old) place.old left.old instr.now }
    ensures step { IfOk result (λ told. ObeysWithin code.now body.now instr.now heap.now (cells_from base texts.old registers.old) place.old left.old told heap.now (cells_from base texts.new registers.new) place.new left.new) }
    ensures others { OnOk result ((i : ℕ) → i < base → text_at texts.new i ≡ text_at texts.old i) }
    ensures ticks { left.new ≤ left.old }
    ensures kept { IfOk result (λ told. IfStopped told (left.new ≡ left.old)) }
    ensures stays { IfOk result (λ told. Stays told) }
{
    match instr {
        Instr::Int { .. }
        | Instr::Truth { .. }
        | Instr::Add { .. }
        | Instr::Sub { .. }
        | Instr::Mul { .. }
        | Instr::Div { .. }
        | Instr::Rem { .. }
        | Instr::Not { .. } => Ok(obey_number(registers, place, instr)),
        Instr::Jump { .. } | Instr::Unless { .. } | Instr::Tick => {
            Ok(obey_jump(body, registers, place, left, instr))
        }
        Instr::Copy { to, from } => obey_copy(registers, texts, base, place, *to, *from),
        Instr::Cmp {
            to,
            choice,
            left: one,
            right,
        } => Ok(obey_compare(registers, texts, base, place, *to, *choice, *one, *right)),
        Instr::Move { .. } | Instr::Borrow { .. } | Instr::Frozen { .. } | Instr::Upcast { .. } =>
            Ok(obey_reference(registers, place, instr)),
        Instr::LoadOwn { .. }
        | Instr::Load { .. }
        | Instr::LoadLive { .. }
        | Instr::ElemOwn { .. }
        | Instr::Elem { .. }
        | Instr::ElemLive { .. }
        | Instr::Len { .. }
        | Instr::LenLive { .. } => obey_look(alloc, heap, registers, texts, base, place, instr),
        _ => obey_on_text(alloc, code, registers, texts, base, place, instr),
    }
}
