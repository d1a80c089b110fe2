// Elements of arrays.
ghost use Rattle.std.specs.Prelude.{◌≡◌, ℕ, ◌+◌, ◌<◌, ◌^◌, IfOk, List, OnOk, length, pos};
ghost use Rattle.vale_registers.specs.Texts.{text_at};
ghost use Rattle.vale_heap.specs.HeapState.{KeepsFrames};
ghost use Rattle.vale_object_cells.specs.Cells.{cells_from, cells_in};
ghost use Rattle.vale_object_steps.specs.Doing.{counts, exchanges, pops, pushes, reads};
ghost use Rattle.vale_object_steps.specs.Indices.{found_index};
ghost use Rattle.vale_object_steps.specs.Views.{CanDo, Follows};

use crate::effect::Effect;
use std::alloc::Global;
use vale_base::{Memory, TrapKind, WIDTH_LIMIT};
use vale_heap::{Cells, Heap};
use vale_object_cells::{Register, int_at, keep, lend, place_at, receive, set_int};
use vale_registers::Row;

// The place among so many elements that an index names, if it names one.
#[inline(always)]
fn position(index: i64, count: usize) -> Option<usize>
    ensures { result ≡ found_index index count }
{
    if index < 0 || index as u64 >= count as u64 {
        return None;
    }
    Some(index as usize)
}

/// An element of an array goes to a register.
pub fn element(
    alloc: Global,
    heap: &Heap,
    registers: &mut [Register],
    texts: &mut Row,
    base: usize,
    to: u32,
    object: u32,
    index: u32,
) -> Result<Effect, Memory>
    requires room { to < length registers.old }
    requires few { base + length registers.old < 2 ^ 64 }
    requires right { CanDo (reads to object index) heap.now (cells_from base texts.old registers.old) }
    ensures step { IfOk result (λ came. Follows (reads to object index) heap.now (cells_from base texts.old registers.old) came heap.now (cells_from base texts.new registers.new)) }
    ensures others { OnOk result ((i : ℕ) → i < base → text_at texts.new i ≡ text_at texts.old i) }
{
    let place = place_at(registers, object);
    match heap.look(None, place) {
        Some(body) => {
            let number = int_at(registers, index);
            let cells = body.cells.as_slice();
            match position(number, cells.len()) {
                Some(at) => match lend(alloc, registers, texts, base, to, &cells[at]) {
                    Ok(()) => Ok(Effect::Done),
                    Err(fault) => Err(fault),
                },
                None => Ok(Effect::Trap(TrapKind::IndexOutOfRange)),
            }
        }
        None => Ok(Effect::Trap(TrapKind::DeadReference)),
    }
}

// How many cells there are.
fn count_of(cells: &Cells) -> i64
    ensures { result ≡ pos (length cells.now) }
{
    cells.as_slice().len() as i64
}

/// How many elements an array has goes to a register.
pub fn count(heap: &Heap, registers: &mut [Register], to: u32, object: u32) -> Effect
    requires room { to < length registers.old }
    requires right { (t : ℕ → List ℕ) × CanDo (counts to object) heap.now (cells_in t registers.old) }
    ensures step { (t : ℕ → List ℕ) → Follows (counts to object) heap.now (cells_in t registers.old) result heap.now (cells_in t registers.new) }
{
    let place = place_at(registers, object);
    match heap.look(None, place) {
        Some(body) => {
            let number = count_of(&body.cells);
            set_int(registers, to, number);
            Effect::Done
        }
        None => Effect::Trap(TrapKind::DeadReference),
    }
}

/// An element of an array is another value now, which a register gives; the value that was there goes to a register.
pub fn exchange(
    alloc: Global,
    heap: &mut Heap,
    registers: &mut [Register],
    texts: &mut Row,
    base: usize,
    to: u32,
    object: u32,
    index: u32,
    value: u32,
) -> Result<Effect, Memory>
    requires room { to < length registers.old }
    requires few { base + length registers.old < 2 ^ 64 }
    requires right { CanDo (exchanges to object index value) heap.old (cells_from base texts.old registers.old) }
    ensures step { IfOk result (λ came. Follows (exchanges to object index value) heap.old (cells_from base texts.old registers.old) came heap.new (cells_from base texts.new registers.new)) }
    ensures keeps { KeepsFrames heap.old heap.new }
    ensures others { OnOk result ((i : ℕ) → i < base → text_at texts.new i ≡ text_at texts.old i) }
{
    let place = place_at(registers, object);
    match heap.change(place) {
        Some(body) => {
            let number = int_at(registers, index);
            match position(number, body.cells.len()) {
                Some(at) => match keep(alloc, registers, texts, base, value) {
                    Ok(cell) => {
                        let was = body.cells.replace(at, cell);
                        match receive(alloc, registers, texts, base, to, was) {
                            Ok(()) => Ok(Effect::Done),
                            Err(fault) => Err(fault),
                        }
                    }
                    Err(fault) => Err(fault),
                },
                None => Ok(Effect::Trap(TrapKind::IndexOutOfRange)),
            }
        }
        None => Ok(Effect::Trap(TrapKind::DeadReference)),
    }
}

/// The value of a register goes behind the elements of an array.
pub fn push(
    alloc: Global,
    heap: &mut Heap,
    registers: &mut [Register],
    texts: &Row,
    base: usize,
    object: u32,
    value: u32,
) -> Result<Effect, Memory>
    requires few { base + length registers.old < 2 ^ 64 }
    requires right { CanDo (pushes object value) heap.old (cells_from base texts.now registers.old) }
    ensures step { IfOk result (λ came. Follows (pushes object value) heap.old (cells_from base texts.now registers.old) came heap.new (cells_from base texts.now registers.new)) }
    ensures keeps { KeepsFrames heap.old heap.new }
{
    let place = place_at(registers, object);
    match heap.change(place) {
        Some(body) => {
            if body.cells.len() >= WIDTH_LIMIT {
                return Ok(Effect::Trap(TrapKind::ArrayTooLong));
            }
            match keep(alloc, registers, texts, base, value) {
                Ok(cell) => match body.cells.push(cell) {
                    Ok(()) => Ok(Effect::Done),
                    Err(fault) => Err(fault),
                },
                Err(fault) => Err(fault),
            }
        }
        None => Ok(Effect::Trap(TrapKind::DeadReference)),
    }
}

/// The last element of an array goes to a register.
pub fn pop(
    alloc: Global,
    heap: &mut Heap,
    registers: &mut [Register],
    texts: &mut Row,
    base: usize,
    to: u32,
    object: u32,
) -> Result<Effect, Memory>
    requires room { to < length registers.old }
    requires few { base + length registers.old < 2 ^ 64 }
    requires right { CanDo (pops to object) heap.old (cells_from base texts.old registers.old) }
    ensures step { IfOk result (λ came. Follows (pops to object) heap.old (cells_from base texts.old registers.old) came heap.new (cells_from base texts.new registers.new)) }
    ensures keeps { KeepsFrames heap.old heap.new }
    ensures others { OnOk result ((i : ℕ) → i < base → text_at texts.new i ≡ text_at texts.old i) }
{
    let place = place_at(registers, object);
    match heap.change(place) {
        Some(body) => match body.cells.pop() {
            Some(last) => match receive(alloc, registers, texts, base, to, last) {
                Ok(()) => Ok(Effect::Done),
                Err(fault) => Err(fault),
            },
            None => Ok(Effect::Trap(TrapKind::EmptyPop)),
        },
        None => Ok(Effect::Trap(TrapKind::DeadReference)),
    }
}
