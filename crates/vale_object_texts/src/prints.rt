// What is printed of registers.
ghost use Rattle.std.specs.Prelude.{◌≡◌, ℕ, ◌+◌, ◌<◌, ◌^◌, ◌++◌, ◌∷◌, [], Bool, IfOk, List, OnErr, Some, if◌then◌else◌, length};
ghost use Rattle.vale_state_spec.specs.State.{shown};
ghost use Rattle.vale_state_spec.specs.World.{Truth as a_truth};
ghost use Rattle.vale_code.specs.Instructions.{truth_of};
ghost use Rattle.vale_code.specs.declared.instr.Instr.{Instr};
ghost use Rattle.vale_heap.specs.HeapState.{HeapState};
ghost use Rattle.vale_heap.specs.declared.body.Place.{Place as APlace};
ghost use Rattle.vale_turn.specs.View.{Stays};
ghost use Rattle.vale_object_cells.specs.Cells.{cells_from};
ghost use Rattle.vale_object_turn.specs.Steps.{HasRule};
ghost use Rattle.vale_object_texts.specs.Printing.{HasPrinted, shown_in};

use crate::landing::text_in;
use std::alloc::Global;
use vale_base::{Memory, Piece, Text};
use vale_object_cells::{Register, Shape, int_at, shape_at, truth_at};
use vale_registers::Row;
use vale_turn::Stop;

// The bytes of a truth.
fn truth_bytes(alloc: Global, truth: bool) -> Result<Vec<u8>, Memory>
    ensures { IfOk result (λ bytes. shown (a_truth truth) ≡ Some bytes.items) }
{
    if truth {
        return Ok(Vec::from_slice(alloc, b"true")?);
    }
    Ok(Vec::from_slice(alloc, b"false")?)
}

// The bytes, with a line feed where one is wanted.
fn ended(bytes: Vec<u8>, line: bool) -> Result<Vec<u8>, Memory>
    ensures { IfOk result (λ all. all.items ≡ (if line then bytes.items ++ 10 ∷ [] else bytes.items)) }
{
    let mut bytes = bytes;
    if line {
        bytes.push(b'\n')?;
    }
    Ok(bytes)
}

// A copy of a text's bytes, with room for one more.
fn roomy(alloc: Global, text: &Text) -> Result<Vec<u8>, Memory>
    ensures { IfOk result (λ bytes. bytes.items ≡ text.now) }
{
    let mut bytes = Vec::with_capacity(alloc, text.as_slice().len() + 1)?;
    bytes.extend_from_slice(text.as_slice())?;
    Ok(bytes)
}

// Whether a line feed is wanted.
fn is_line(choice: u8) -> bool
    requires { (b : Bool) × (truth_of choice ≡ Some b) }
    ensures { truth_of choice ≡ Some result }
{
    choice == 1
}

// The bytes that are printed of a register.
#[inline(always)]
fn shown_bytes(
    alloc: Global,
    registers: &[Register],
    texts: &Row,
    base: usize,
    from: u32,
) -> Result<Vec<u8>, Memory>
    requires few { base + length registers.now < 2 ^ 64 }
    requires right { (names : List APlace) × (bytes : List ℕ) × (shown_in names (cells_from base texts.now registers.now) from ≡ Some bytes) }
    ensures { IfOk result (λ bytes. (names : List APlace) → shown_in names (cells_from base texts.now registers.now) from ≡ Some bytes.items) }
{
    match shape_at(registers, from) {
        Shape::Int => {
            let number = int_at(registers, from);
            let digits = vale_text::text_of(alloc, number)?;
            Ok(digits.into_vec())
        }
        Shape::Truth => {
            let truth = truth_at(registers, from);
            truth_bytes(alloc, truth)
        }
        Shape::Text => {
            let text = text_in(texts, base, from);
            roomy(alloc, text)
        }
        _ => unreachable!(),
    }
}

/// What a register holds is printed after so many ticks, with a line feed where the choice is 1. Where memory is wanting, nothing
/// is printed.
pub fn obey_print(
    alloc: Global,
    registers: &[Register],
    texts: &Row,
    base: usize,
    place: &mut usize,
    pieces: &mut Vec<Piece>,
    spent: u64,
    from: u32,
    choice: u8,
) -> Result<Stop, Memory>
    requires few { base + length registers.now < 2 ^ 64 }
    requires place { place.old + 1 < 2 ^ 64 }
    requires right { (heap : HeapState) × (left : ℕ) × HasRule heap (cells_from base texts.now registers.now) place.old left (Instr.Print from choice) }
    ensures step { IfOk result (λ told. HasPrinted (Instr.Print from choice) (cells_from base texts.now registers.now) place.old spent pieces.old.items told place.new pieces.new.items) }
    ensures stays { IfOk result (λ told. Stays told) }
    ensures kept { OnErr result (pieces.new.items ≡ pieces.old.items) }
{
    let line = is_line(choice);
    let shown = shown_bytes(alloc, registers, texts, base, from)?;
    let bytes = Text::from_vec(ended(shown, line)?);
    let piece = Piece { tick: spent, bytes };
    match pieces.push(piece) {
        Ok(()) => {}
        Err(_) => return Err(Memory),
    }
    *place += 1;
    Ok(Stop::Going)
}
