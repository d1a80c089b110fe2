// What is printed.
ghost use Rattle.std.specs.Prelude.{◌≡◌, ◌+◌, ◌<◌, ◌≤◌, ◌^◌, ◌++◌, ◌∷◌, [], Bool, List, Some, None, IfOk, if◌then◌else◌, length};
ghost use Rattle.vale_base.specs.declared.piece.Piece.{Piece};
ghost use Rattle.vale_state_spec.specs.State.{print_text};
ghost use Rattle.vale_state_spec.specs.World.{Truth as a_truth};
ghost use Rattle.vale_code.specs.Instructions.{certain, truth_of};
ghost use Rattle.vale_code.specs.Parts.{Parts};
ghost use Rattle.vale_code.specs.Registers.{read};
ghost use Rattle.vale_code.specs.declared.instr.Instr.{Instr};
ghost use Rattle.vale_machine.specs.Aside.{KeepsFrames, next_in};
ghost use Rattle.vale_machine.specs.Printing.{IsShown, shown_in};
ghost use Rattle.vale_machine.specs.View.{Stepped, active, below, registers_of, state_of};

use crate::machine::{Machine, Step};
use std::alloc::Global;
use vale_base::{Memory, Piece, Text};
use vale_registers::{Shape, shape_at};

// The bytes of a truth.
fn truth_bytes(alloc: Global, truth: bool) -> Result<Vec<u8>, Memory>
    ensures { IfOk result (λ bytes. shown_in (Some (a_truth truth)) ≡ Some bytes.items) }
{
    if truth {
        return Ok(Vec::from_slice(alloc, b"true")?);
    }
    Ok(Vec::from_slice(alloc, b"false")?)
}

// The bytes, with a line feed where one is wanted.
fn ended(bytes: Vec<u8>, line: bool) -> Result<Vec<u8>, Memory>
    ensures { IfOk result (λ all. all.items ≡ (if line then bytes.items ++ 10 ∷ [] else bytes.items)) }
{
    let mut bytes = bytes;
    if line {
        bytes.push(b'\n')?;
    }
    Ok(bytes)
}

// A copy of bytes, with room for one more.
fn roomy(alloc: Global, text: &Text) -> Result<Vec<u8>, Memory>
    ensures { IfOk result (λ bytes. bytes.items ≡ text.now) }
{
    let mut bytes = Vec::with_capacity(alloc, text.as_slice().len() + 1)?;
    bytes.extend_from_slice(text.as_slice())?;
    Ok(bytes)
}

// Whether a line feed is wanted.
fn is_line(choice: u8) -> bool
    requires { (b : Bool) × (truth_of choice ≡ Some b) }
    ensures { truth_of choice ≡ Some result }
{
    choice == 1
}

impl Machine {
    // The bytes that are printed of a register.
    fn shown(&self, from: u32) -> Result<Vec<u8>, Memory>
        requires base { self.now.top.base ≤ self.now.end }
        requires end { self.now.end ≤ length self.now.cells.items }
        requires shown { IsShown self.now from }
        ensures { IfOk result (λ bytes. shown_in (read (registers_of self.now) from) ≡ Some bytes.items) }
    {
        match shape_at(self.registers(), from) {
            Shape::Int => {
                let number = self.int(from);
                let text = vale_text::text_of(self.alloc, number)?;
                Ok(text.into_vec())
            }
            Shape::Truth => {
                let truth = self.truth(from);
                truth_bytes(self.alloc, truth)
            }
            Shape::Text => {
                let text = self.text(from);
                roomy(self.alloc, text)
            }
            Shape::Empty => unreachable!(),
        }
    }

    // Bytes are printed now.
    fn put_out(&mut self, bytes: Vec<u8>, line: bool) -> Step
        requires place { self.old.top.place + 1 < 2 ^ 64 }
        requires ticks { self.old.left ≤ self.old.given }
        ensures step { (code : Parts) (taken : List Piece) → Stepped code taken result
            (certain (active code self.old) None (registers_of self.old) (below code self.old) (state_of taken self.old) (print_text line (Some bytes.items) (state_of taken self.old))) self.new }
        ensures keeps { KeepsFrames result self.old self.new }
    {
        let bytes = match ended(bytes, line) {
            Ok(bytes) => bytes,
            Err(_) => return Step::Memory,
        };
        let piece = Piece {
            tick: self.given - self.left,
            bytes: Text::from_vec(bytes),
        };
        match self.pieces.push(piece) {
            Ok(()) => {}
            Err(_) => return Step::Memory,
        }
        self.top.place += 1;
        Step::Going
    }

    // What a register holds is printed, with a line feed where the choice is 1.
    pub(crate) fn print(&mut self, from: u32, choice: u8) -> Step
        requires base { self.old.top.base ≤ self.old.end }
        requires end { self.old.end ≤ length self.old.cells.items }
        requires place { self.old.top.place + 1 < 2 ^ 64 }
        requires ticks { self.old.left ≤ self.old.given }
        requires shown { IsShown self.old from }
        requires choice { (b : Bool) × (truth_of choice ≡ Some b) }
        ensures step { (code : Parts) (taken : List Piece) → Stepped code taken result (next_in code taken self.old (Instr.Print from choice)) self.new }
        ensures keeps { KeepsFrames result self.old self.new }
    {
        let line = is_line(choice);
        match self.shown(from) {
            Ok(bytes) => self.put_out(bytes, line),
            Err(_) => Step::Memory,
        }
    }
}
