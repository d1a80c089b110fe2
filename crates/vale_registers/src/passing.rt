// Values go from registers to registers, with their texts.
ghost use Rattle.std.specs.Prelude.{◌≡◌, ℕ, ◌+◌, ◌-◌, ◌<◌, ◌≤◌, ◌++◌, ◌^◌, List, None, OnOk, length, replicate, take};
ghost use Rattle.vale_code.specs.Registers.{read};
ghost use Rattle.vale_registers.specs.Cells.{HasRegister, HoldsValue, empty, values_in};
ghost use Rattle.vale_registers.specs.Passing.{AreLaid, AreShared, AreWithin, IsGiven, IsHanded, IsMoved, IsPassed, IsShared};
ghost use Rattle.vale_registers.specs.Texts.{text_at};

use crate::cell::{Cell, Shape};
use crate::row::Row;
use vale_base::Memory;

// A register gets what another one holds, and shares its text.
#[inline(always)]
fn share_cell(
    from: &Cell,
    to: &mut Cell,
    texts: &mut Row,
    source: usize,
    target: usize,
) -> Result<(), Memory>
    ensures { OnOk result (IsShared source target from.now to.new texts.old texts.new) }
{
    match from.shape {
        Shape::Int => {
            to.shape = Shape::Int;
            to.number = from.number;
            Ok(())
        }
        Shape::Truth => {
            to.shape = Shape::Truth;
            to.truth = from.truth;
            Ok(())
        }
        Shape::Text => {
            texts.share(source, target)?;
            to.shape = Shape::Text;
            Ok(())
        }
        Shape::Empty => {
            to.shape = Shape::Empty;
            Ok(())
        }
    }
}

// A register gets what a later one holds, and takes its text.
#[inline(always)]
fn move_cell(from: &Cell, to: &mut Cell, texts: &mut Row, source: usize, target: usize)
    requires { target < source }
    ensures { IsMoved source target from.now to.new texts.old texts.new }
{
    match from.shape {
        Shape::Int => {
            to.shape = Shape::Int;
            to.number = from.number;
        }
        Shape::Truth => {
            to.shape = Shape::Truth;
            to.truth = from.truth;
        }
        Shape::Text => {
            texts.hand(source, target);
            to.shape = Shape::Text;
        }
        Shape::Empty => to.shape = Shape::Empty,
    }
}

// Registers behind a row get what these of it hold.
#[inline(always)]
fn give(
    row: &[Cell],
    to: &mut [Cell],
    texts: &mut Row,
    base: usize,
    args: &[u32],
) -> Result<(), Memory>
    requires within { AreWithin args.now base (length row.now) }
    requires count { length to.old ≡ length args.now }
    requires few { length row.now + length to.old < 2 ^ 64 }
    ensures { OnOk result (AreShared base args.now row.now texts.old to.new texts.new) }
{
    for at in 0..args.len() {
        let from = base + args[at] as usize;
        share_cell(&row[from], &mut to[at], texts, from, row.len() + at)?;
    }
    Ok(())
}

// Registers hold nothing from now on.
#[inline(always)]
fn blank(cells: &mut [Cell])
    ensures { (t : ℕ → List ℕ) → values_in t cells.new ≡ replicate (length cells.old) None }
{
    for at in 0..cells.len() {
        cells[at].shape = Shape::Empty;
    }
}

// The registers behind a row: the first get what these of the row hold, and the others nothing.
#[inline(always)]
fn lay(
    row: &[Cell],
    own: &mut [Cell],
    texts: &mut Row,
    base: usize,
    args: &[u32],
) -> Result<(), Memory>
    requires within { AreWithin args.now base (length row.now) }
    requires count { length args.now ≤ length own.old }
    requires few { length row.now + length own.old < 2 ^ 64 }
    ensures { OnOk result (AreLaid base args.now row.now texts.old own.new texts.new) }
{
    let (given, rest) = own.split_at_mut(args.len());
    match give(row, given, texts, base, args) {
        Ok(()) => {}
        Err(fault) => return Err(fault),
    }
    blank(rest);
    Ok(())
}

// The same of registers that lie behind the row up to the top.
#[inline(always)]
fn lay_behind(
    cells: &mut [Cell],
    texts: &mut Row,
    base: usize,
    top: usize,
    args: &[u32],
) -> Result<(), Memory>
    requires top { top + length args.now ≤ length cells.old }
    requires within { AreWithin args.now base top }
    ensures { OnOk result (IsPassed base top (length cells.old) args.now cells.old texts.old cells.new texts.new) }
{
    let (row, own) = cells.split_at_mut(top);
    lay(row, own, texts, base, args)
}

// The same of the first of some cells.
#[inline(always)]
fn lay_within(
    cells: &mut [Cell],
    texts: &mut Row,
    base: usize,
    top: usize,
    end: usize,
    args: &[u32],
) -> Result<(), Memory>
    requires top { top + length args.now ≤ end }
    requires end { end ≤ length cells.old }
    requires within { AreWithin args.now base top }
    ensures { OnOk result (IsPassed base top end args.now cells.old texts.old cells.new texts.new) }
{
    let (used, _) = cells.split_at_mut(end);
    lay_behind(used, texts, base, top, args)
}

/// The registers from the top to the end are those of a function that is called: the first get what these of the frame from the
/// base on hold, and share its texts; the others hold nothing.
#[inline(always)]
pub fn pass(
    cells: &mut Vec<Cell>,
    texts: &mut Row,
    base: usize,
    top: usize,
    end: usize,
    args: &[u32],
) -> Result<(), Memory>
    requires top { top + length args.now ≤ end }
    requires end { end ≤ length cells.old.items }
    requires within { AreWithin args.now base top }
    ensures passed { OnOk result (IsPassed base top end args.now cells.old.items texts.old cells.new.items texts.new) }
    ensures size { length cells.new.items ≡ length cells.old.items }
{
    lay_within(cells, texts, base, top, end, args)
}

/// Empty cells behind all cells, until there are so many.
#[inline(never)]
pub fn fill(cells: &mut Vec<Cell>, count: usize) -> Result<(), Memory>
    requires { length cells.old.items ≤ count }
    ensures { OnOk result (cells.new.items ≡ cells.old.items ++ replicate (count - length cells.old.items) empty) }
{
    let cell = Cell {
        shape: Shape::Empty,
        truth: false,
        number: 0,
    };
    cells.resize(count, cell)?;
    Ok(())
}

/// Room for so many cells; those that are there stay.
#[inline(always)]
pub fn reserve(cells: &mut Vec<Cell>, count: usize) -> Result<(), Memory>
    ensures size { OnOk result (count ≤ length cells.new.items) }
    ensures same { OnOk result (take (length cells.old.items) cells.new.items ≡ cells.old.items) }
{
    if count <= cells.len() {
        return Ok(());
    }
    fill(cells, count)
}

// The same of a register of the first of some cells.
#[inline(always)]
fn hand_within(cells: &mut [Cell], texts: &mut Row, top: usize, to: usize, from: usize)
    requires from { from < length cells.old }
    requires above { top ≤ from }
    requires to { to < top }
    requires value { HoldsValue cells.old from }
    ensures { IsGiven top to from cells.old texts.old cells.new texts.new }
{
    let (lower, upper) = cells.split_at_mut(top);
    move_cell(&upper[from - top], &mut lower[to], texts, from, to);
}

/// What a register above the top holds goes to one of the frame from the base on, under the top, where there is one. Its text
/// goes with it.
#[inline(always)]
pub fn hand(
    cells: &mut Vec<Cell>,
    texts: &mut Row,
    base: usize,
    top: usize,
    dest: Option<u32>,
    from: usize,
)
    requires from { from < length cells.old.items }
    requires above { top ≤ from }
    requires room { HasRegister dest (top - base) }
    requires value { HoldsValue cells.old.items from }
    ensures { IsHanded base top dest (read (values_in (text_at texts.old) cells.old.items) from) cells.old.items texts.old cells.new.items texts.new }
{
    match dest {
        Some(to) => hand_within(cells, texts, top, base + to as usize, from),
        None => {}
    }
}
