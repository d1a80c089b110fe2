// Fields of objects.
ghost use Rattle.std.specs.Prelude.{◌≡◌, ℕ, ◌+◌, ◌<◌, ◌^◌, IfOk, OnOk, length};
ghost use Rattle.vale_registers.specs.Texts.{text_at};
ghost use Rattle.vale_heap.specs.HeapState.{KeepsFrames};
ghost use Rattle.vale_object_cells.specs.Cells.{cells_from};
ghost use Rattle.vale_object_steps.specs.Doing.{loads, swaps};
ghost use Rattle.vale_object_steps.specs.Views.{CanDo, Follows};

use crate::effect::Effect;
use std::alloc::Global;
use vale_base::{Memory, TrapKind};
use vale_heap::Heap;
use vale_object_cells::{Register, keep, lend, place_at, receive};
use vale_registers::Row;

/// A field of an object goes to a register.
pub fn load(
    alloc: Global,
    heap: &Heap,
    registers: &mut [Register],
    texts: &mut Row,
    base: usize,
    to: u32,
    object: u32,
    field: u32,
) -> Result<Effect, Memory>
    requires room { to < length registers.old }
    requires few { base + length registers.old < 2 ^ 64 }
    requires right { CanDo (loads to object field) heap.now (cells_from base texts.old registers.old) }
    ensures step { IfOk result (λ came. Follows (loads to object field) heap.now (cells_from base texts.old registers.old) came heap.now (cells_from base texts.new registers.new)) }
    ensures others { OnOk result ((i : ℕ) → i < base → text_at texts.new i ≡ text_at texts.old i) }
{
    let place = place_at(registers, object);
    match heap.look(None, place) {
        Some(body) => {
            let cell = &body.cells.as_slice()[field as usize];
            match lend(alloc, registers, texts, base, to, cell) {
                Ok(()) => Ok(Effect::Done),
                Err(fault) => Err(fault),
            }
        }
        None => Ok(Effect::Trap(TrapKind::DeadReference)),
    }
}

/// A field of an object is another value now, which a register gives; the value that was there goes to a register.
pub fn swap(
    alloc: Global,
    heap: &mut Heap,
    registers: &mut [Register],
    texts: &mut Row,
    base: usize,
    to: u32,
    object: u32,
    field: u32,
    value: u32,
) -> Result<Effect, Memory>
    requires room { to < length registers.old }
    requires few { base + length registers.old < 2 ^ 64 }
    requires right { CanDo (swaps to object field value) heap.old (cells_from base texts.old registers.old) }
    ensures step { IfOk result (λ came. Follows (swaps to object field value) heap.old (cells_from base texts.old registers.old) came heap.new (cells_from base texts.new registers.new)) }
    ensures keeps { KeepsFrames heap.old heap.new }
    ensures others { OnOk result ((i : ℕ) → i < base → text_at texts.new i ≡ text_at texts.old i) }
{
    let place = place_at(registers, object);
    match heap.change(place) {
        Some(body) => match keep(alloc, registers, texts, base, value) {
            Ok(cell) => {
                let was = body.cells.replace(field as usize, cell);
                match receive(alloc, registers, texts, base, to, was) {
                    Ok(()) => Ok(Effect::Done),
                    Err(fault) => Err(fault),
                }
            }
            Err(fault) => Err(fault),
        },
        None => Ok(Effect::Trap(TrapKind::DeadReference)),
    }
}
