// What an object has: a kind, and a value for each field or element.
ghost use Rattle.std.specs.Prelude.{◌≡◌, ◌+◌, ◌<◌, [], ◌∷◌, ◌++◌, length, IfErr, IfNone, IfSome, OnErr, OnOk, option_to_list, slice_get, slice_set, Some, option_copied};

use std::alloc::{AllocFailed, Global};
use std::marker::Model;
use std::mem;
use vale_base::{Kind, Memory, Text};

/// The place of an object: a frame, a slot of its page, and the slot's generation at which the object was made.
#[derive(Clone, Copy, Debug, PartialEq, Eq)]
pub struct Place {
    /// The page's frame.
    pub frame: u32,
    /// The slot, below 64.
    pub slot: u8,
    /// The slot's generation while the object lives.
    pub generation: u64,
}

/// A value of a field or of an element.
#[derive(Drop)]
pub enum Cell {
    /// A number.
    Int(i64),
    /// A truth.
    Truth(bool),
    /// A text.
    Text(Text),
    /// The owner of the object at a place.
    Own(Place),
    /// A reference to the object at a place. The object may have died.
    Ref(Place),
    /// The isolate whose root is at a place.
    Iso(Place),
}

/// A list of cells.
#[derive(Drop)]
pub struct Cells {
    cells: Vec<Cell>,
}

impl Model for Cells {
    ghost use Rattle.std.specs.Prelude.{List};
    ghost use Rattle.vale_heap.specs.declared.body.Cell.{Cell};

    ghost Value = { List Cell };

    ghost view = { λ c. c.cells.items };
}

impl Cells {
    /// The cells of a list. It takes no memory.
    pub fn from_vec(cells: Vec<Cell>) -> Self
        ensures { result ≡ cells.items }
    {
        Cells { cells }
    }

    /// The list of the cells, given back. It takes no memory.
    pub fn into_vec(self) -> Vec<Cell>
        ensures { result.items ≡ self }
    {
        self.cells
    }

    /// The cells.
    pub fn as_slice(&self) -> &[Cell]
        ensures { result.now ≡ self.now }
    {
        &self.cells
    }

    /// How many cells there are.
    pub fn len(&self) -> usize
        ensures { result ≡ length self.now }
    {
        self.cells.len()
    }

    /// Puts a cell at an index in place of the one that is there, which it answers.
    pub fn replace(&mut self, index: usize, cell: Cell) -> Cell
        requires { index < length self.old }
        ensures was { slice_get self.old index ≡ Some result }
        ensures after { self.new ≡ slice_set self.old index cell }
    {
        mem::replace(&mut self.cells[index], cell)
    }

    /// Puts a cell behind the others.
    pub fn push(&mut self, cell: Cell) -> Result<(), Memory>
        ensures { OnOk result (self.new ≡ self.old ++ cell ∷ []) }
    {
        self.cells.push(cell)?;
        Ok(())
    }

    /// Takes the last cell, if there is one.
    pub fn pop(&mut self) -> Option<Cell>
        ensures some { IfSome result (λ cell. self.old ≡ self.new ++ cell ∷ []) }
        ensures none { IfNone result (self.old ≡ []) }
    {
        self.cells.pop()
    }
}

/// An object: its kind and its values.
#[derive(Drop)]
pub struct Body {
    /// The kind of the object.
    pub kind: Kind,
    /// The fields or the elements, in order.
    pub cells: Cells,
}
