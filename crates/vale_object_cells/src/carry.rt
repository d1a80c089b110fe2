// Cells go from objects to registers and back, with their texts.
ghost use Rattle.std.specs.Prelude.{◌≡◌, ℕ, ◌+◌, ◌<◌, ◌^◌, IfOk, OnOk, Some, length, slice_set};
ghost use Rattle.vale_registers.specs.Texts.{text_at};
ghost use Rattle.vale_object_cells.specs.Cells.{HoldsCell, cells_from, held, kept_cells, lent_cell};

use crate::register::{
    Register, Shape, empty, int_at, place_at, set_int, set_iso, set_own, set_reference, set_text,
    set_truth, shape_at, truth_at,
};
use std::alloc::Global;
use vale_base::{Memory, Text};
use vale_heap::Cell;
use vale_registers::Row;

// A text goes to a register.
fn put_text(
    alloc: Global,
    registers: &mut [Register],
    texts: &mut Row,
    base: usize,
    to: u32,
    text: Text,
) -> Result<(), Memory>
    requires room { to < length registers.old }
    requires few { base + length registers.old < 2 ^ 64 }
    ensures cells { OnOk result (cells_from base texts.new registers.new ≡ slice_set (cells_from base texts.old registers.old) to (Some (Cell.Text text))) }
    ensures others { OnOk result ((i : ℕ) → i < base → text_at texts.new i ≡ text_at texts.old i) }
{
    match texts.put(alloc, base + to as usize, text) {
        Ok(()) => {
            set_text(registers, to);
            Ok(())
        }
        Err(fault) => Err(fault),
    }
}

/// A register gets what others get of a cell: of an owner and an isolate a reference.
pub fn lend(
    alloc: Global,
    registers: &mut [Register],
    texts: &mut Row,
    base: usize,
    to: u32,
    cell: &Cell,
) -> Result<(), Memory>
    requires room { to < length registers.old }
    requires few { base + length registers.old < 2 ^ 64 }
    ensures cells { OnOk result (cells_from base texts.new registers.new ≡ slice_set (cells_from base texts.old registers.old) to (Some (lent_cell cell.now))) }
    ensures others { OnOk result ((i : ℕ) → i < base → text_at texts.new i ≡ text_at texts.old i) }
{
    match cell {
        Cell::Int(number) => {
            set_int(registers, to, *number);
            Ok(())
        }
        Cell::Truth(truth) => {
            set_truth(registers, to, *truth);
            Ok(())
        }
        Cell::Text(text) => match Text::from_slice(alloc, text.as_slice()) {
            Ok(copy) => put_text(alloc, registers, texts, base, to, copy),
            Err(fault) => Err(fault),
        },
        Cell::Own(place) => {
            set_reference(registers, to, *place);
            Ok(())
        }
        Cell::Ref(place) => {
            set_reference(registers, to, *place);
            Ok(())
        }
        Cell::Iso(place) => {
            set_reference(registers, to, *place);
            Ok(())
        }
    }
}

/// A register gets a cell.
pub fn receive(
    alloc: Global,
    registers: &mut [Register],
    texts: &mut Row,
    base: usize,
    to: u32,
    cell: Cell,
) -> Result<(), Memory>
    requires room { to < length registers.old }
    requires few { base + length registers.old < 2 ^ 64 }
    ensures cells { OnOk result (cells_from base texts.new registers.new ≡ slice_set (cells_from base texts.old registers.old) to (Some cell)) }
    ensures others { OnOk result ((i : ℕ) → i < base → text_at texts.new i ≡ text_at texts.old i) }
{
    match cell {
        Cell::Int(number) => {
            set_int(registers, to, number);
            Ok(())
        }
        Cell::Truth(truth) => {
            set_truth(registers, to, truth);
            Ok(())
        }
        Cell::Text(text) => put_text(alloc, registers, texts, base, to, text),
        Cell::Own(place) => {
            set_own(registers, to, place);
            Ok(())
        }
        Cell::Ref(place) => {
            set_reference(registers, to, place);
            Ok(())
        }
        Cell::Iso(place) => {
            set_iso(registers, to, place);
            Ok(())
        }
    }
}

/// The cell of what a register holds, which is kept: an owner or an isolate leaves the register empty.
pub fn keep(
    alloc: Global,
    registers: &mut [Register],
    texts: &Row,
    base: usize,
    from: u32,
) -> Result<Cell, Memory>
    requires there { HoldsCell registers.old from }
    requires few { base + length registers.old < 2 ^ 64 }
    ensures cell { IfOk result (λ cell. held (cells_from base texts.now registers.old) from ≡ Some cell) }
    ensures cells { OnOk result (cells_from base texts.now registers.new ≡ kept_cells (held (cells_from base texts.now registers.old) from) from (cells_from base texts.now registers.old)) }
{
    match shape_at(registers, from) {
        Shape::Int => {
            let number = int_at(registers, from);
            Ok(Cell::Int(number))
        }
        Shape::Truth => {
            let truth = truth_at(registers, from);
            Ok(Cell::Truth(truth))
        }
        Shape::Text => {
            let text = texts.text(base + from as usize);
            match Text::from_slice(alloc, text.as_slice()) {
                Ok(copy) => Ok(Cell::Text(copy)),
                Err(fault) => Err(fault),
            }
        }
        Shape::Own => {
            let owned = place_at(registers, from);
            empty(registers, from);
            Ok(Cell::Own(owned))
        }
        Shape::Ref => {
            let referred = place_at(registers, from);
            Ok(Cell::Ref(referred))
        }
        Shape::Iso => {
            let root = place_at(registers, from);
            empty(registers, from);
            Ok(Cell::Iso(root))
        }
        Shape::Empty => unreachable!(),
    }
}
