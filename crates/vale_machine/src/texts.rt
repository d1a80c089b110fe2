// What an instruction that is done aside reads, and where the value goes that it comes to.
ghost use Rattle.std.specs.Prelude.{◌≡◌, ℕ, ◌+◌, ◌-◌, ◌<◌, ◌≤◌, ◌^◌, List, OnOk, Result, Some, length};
ghost use Rattle.vale_base.specs.declared.piece.Piece.{Piece};
ghost use Rattle.vale_base.specs.declared.trap.TrapKind.{TrapKind};
ghost use Rattle.vale_state_spec.specs.World.{Int as an_int, Text as a_text, Truth as a_truth};
ghost use Rattle.vale_code.specs.Instructions.{answered, onward};
ghost use Rattle.vale_code.specs.Parts.{Parts};
ghost use Rattle.vale_code.specs.Registers.{put, read};
ghost use Rattle.vale_registers.specs.Cells.{HoldsInt, HoldsText, HoldsTruth};
ghost use Rattle.vale_text.specs.Gives.{Gives};
ghost use Rattle.vale_text.specs.Steps.{gives_int, gives_text};
ghost use Rattle.vale_machine.specs.Aside.{Gets, KeepsFrames, Receives, text_cell};
ghost use Rattle.vale_machine.specs.declared.machine.Step.{Step};
ghost use Rattle.vale_machine.specs.View.{HasMemory, Stepped, active, below, own_cells, registers_of, state_of};

use crate::machine::{Machine, Step};
use vale_base::{Fail, Memory, Spot, Text, TrapKind};
use vale_registers::{Cell, Shape, int_at, truth_at};

impl Machine {
    // The cells of the innermost function.
    pub(crate) fn registers(&self) -> &[Cell]
        requires base { self.now.top.base ≤ self.now.end }
        requires end { self.now.end ≤ length self.now.cells.items }
        ensures { result.now ≡ own_cells self.now }
    {
        let row = &self.cells[..self.end];
        &row[self.top.base..]
    }

    // The number in a register of the innermost function.
    pub(crate) fn int(&self, register: u32) -> i64
        requires base { self.now.top.base ≤ self.now.end }
        requires end { self.now.end ≤ length self.now.cells.items }
        requires holds { HoldsInt (own_cells self.now) register }
        ensures { read (registers_of self.now) register ≡ Some (an_int result) }
    {
        int_at(self.registers(), register)
    }

    // The truth in a register of the innermost function.
    pub(crate) fn truth(&self, register: u32) -> bool
        requires base { self.now.top.base ≤ self.now.end }
        requires end { self.now.end ≤ length self.now.cells.items }
        requires holds { HoldsTruth (own_cells self.now) register }
        ensures { read (registers_of self.now) register ≡ Some (a_truth result) }
    {
        truth_at(self.registers(), register)
    }

    // The text in a register of the innermost function.
    pub(crate) fn text(&self, register: u32) -> &Text
        requires base { self.now.top.base ≤ self.now.end }
        requires end { self.now.end ≤ length self.now.cells.items }
        requires holds { HoldsText (own_cells self.now) register }
        ensures { read (registers_of self.now) register ≡ Some (a_text result.now) }
    {
        self.texts.text(self.top.base + register as usize)
    }

    // A cell goes to a register, and the next instruction is the one after.
    fn receive(&mut self, to: u32, cell: Cell)
        requires base { self.old.top.base ≤ self.old.end }
        requires end { self.old.end ≤ length self.old.cells.items }
        requires room { to < self.old.end - self.old.top.base }
        requires place { self.old.top.place + 1 < 2 ^ 64 }
        ensures { Receives to cell self.old self.new }
    {
        self.cells[self.top.base + to as usize] = cell;
        self.top.place += 1;
    }

    // The same of a cell whose text is there.
    fn receive_text(&mut self, to: u32)
        requires base { self.old.top.base ≤ self.old.end }
        requires end { self.old.end ≤ length self.old.cells.items }
        requires room { to < self.old.end - self.old.top.base }
        requires place { self.old.top.place + 1 < 2 ^ 64 }
        ensures { Receives to text_cell self.old self.new }
    {
        self.receive(
            to,
            Cell {
                shape: Shape::Text,
                truth: false,
                number: 0,
            },
        );
    }

    // A register gets a number, and the next instruction is the one after.
    pub(crate) fn get_int(&mut self, to: u32, number: i64)
        requires base { self.old.top.base ≤ self.old.end }
        requires end { self.old.end ≤ length self.old.cells.items }
        requires room { to < self.old.end - self.old.top.base }
        requires place { self.old.top.place + 1 < 2 ^ 64 }
        ensures { Gets (put (registers_of self.old) to (Some (an_int number))) self.old self.new }
    {
        self.receive(
            to,
            Cell {
                shape: Shape::Int,
                truth: false,
                number,
            },
        );
    }

    // The same of a truth.
    pub(crate) fn get_truth(&mut self, to: u32, truth: bool)
        requires base { self.old.top.base ≤ self.old.end }
        requires end { self.old.end ≤ length self.old.cells.items }
        requires room { to < self.old.end - self.old.top.base }
        requires place { self.old.top.place + 1 < 2 ^ 64 }
        ensures { Gets (put (registers_of self.old) to (Some (a_truth truth))) self.old self.new }
    {
        self.receive(
            to,
            Cell {
                shape: Shape::Truth,
                truth,
                number: 0,
            },
        );
    }

    // The same of a text.
    pub(crate) fn get_text(&mut self, to: u32, text: Text) -> Result<(), Memory>
        requires base { self.old.top.base ≤ self.old.end }
        requires end { self.old.end ≤ length self.old.cells.items }
        requires room { to < self.old.end - self.old.top.base }
        requires place { self.old.top.place + 1 < 2 ^ 64 }
        ensures gets { OnOk result (Gets (put (registers_of self.old) to (Some (a_text text))) self.old self.new) }
        ensures keeps { KeepsFrames Step.Memory self.old self.new }
    {
        self.texts
            .put(self.alloc, self.top.base + to as usize, text)?;
        self.receive_text(to);
        Ok(())
    }

    // A register gets the text of another, and the next instruction is the one after.
    pub(crate) fn share_text(&mut self, to: u32, from: u32) -> Result<(), Memory>
        requires base { self.old.top.base ≤ self.old.end }
        requires end { self.old.end ≤ length self.old.cells.items }
        requires room { to < self.old.end - self.old.top.base }
        requires holds { HoldsText (own_cells self.old) from }
        requires place { self.old.top.place + 1 < 2 ^ 64 }
        ensures gets { OnOk result (Gets (put (registers_of self.old) to (read (registers_of self.old) from)) self.old self.new) }
        ensures keeps { KeepsFrames Step.Memory self.old self.new }
    {
        self.texts
            .share(self.top.base + from as usize, self.top.base + to as usize)?;
        self.receive_text(to);
        Ok(())
    }

    // A text that was made goes to a register, where there is memory.
    pub(crate) fn take_text(&mut self, to: u32, text: Text) -> Step
        requires base { self.old.top.base ≤ self.old.end }
        requires end { self.old.end ≤ length self.old.cells.items }
        requires room { to < self.old.end - self.old.top.base }
        requires place { self.old.top.place + 1 < 2 ^ 64 }
        ensures step { (code : Parts) (taken : List Piece) → Stepped code taken result
            (onward (active code self.old) (put (registers_of self.old) to (Some (a_text text))) (below code self.old) (state_of taken self.old)) self.new }
        ensures keeps { KeepsFrames result self.old self.new }
    {
        match self.get_text(to, text) {
            Ok(()) => Step::Going,
            Err(_) => Step::Memory,
        }
    }

    // What an operation comes to goes to a register, or is a trap.
    pub(crate) fn land_int(&mut self, to: u32, at: Spot, outcome: Result<i64, TrapKind>) -> Step
        requires base { self.old.top.base ≤ self.old.end }
        requires end { self.old.end ≤ length self.old.cells.items }
        requires room { to < self.old.end - self.old.top.base }
        requires place { self.old.top.place + 1 < 2 ^ 64 }
        ensures step { (code : Parts) (taken : List Piece) → Stepped code taken result
            (answered (active code self.old) (Some to) (registers_of self.old) at (below code self.old) (state_of taken self.old) (gives_int (state_of taken self.old) outcome)) self.new }
        ensures memory { HasMemory result }
        ensures keeps { KeepsFrames result self.old self.new }
    {
        match outcome {
            Ok(number) => {
                self.get_int(to, number);
                Step::Going
            }
            Err(kind) => Step::Trap(kind, at),
        }
    }

    // The same of one that makes a text.
    pub(crate) fn land_text(
        &mut self,
        to: u32,
        at: Spot,
        outcome: Result<Text, Fail<TrapKind>>,
    ) -> Step
        requires base { self.old.top.base ≤ self.old.end }
        requires end { self.old.end ≤ length self.old.cells.items }
        requires room { to < self.old.end - self.old.top.base }
        requires place { self.old.top.place + 1 < 2 ^ 64 }
        ensures step { (code : Parts) (taken : List Piece) (meaning : Result (List ℕ) TrapKind) → Gives outcome meaning → Stepped code taken result
            (answered (active code self.old) (Some to) (registers_of self.old) at (below code self.old) (state_of taken self.old) (gives_text (state_of taken self.old) meaning)) self.new }
        ensures keeps { KeepsFrames result self.old self.new }
    {
        match outcome {
            Ok(text) => self.take_text(to, text),
            Err(fault) => match fault {
                Fail::Memory => Step::Memory,
                Fail::Is(kind) => Step::Trap(kind, at),
            },
        }
    }
}
