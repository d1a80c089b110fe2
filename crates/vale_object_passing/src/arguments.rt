// Arguments of calls.
ghost use Rattle.std.specs.Prelude.{◌≡◌, ℕ, ◌+◌, ◌-◌, ◌<◌, ◌≤◌, ◌^◌, [], IsSome, List, None, OnOk, Some, false, length, replicate, take, true};
ghost use Rattle.vale_heap.specs.declared.body.Cell.{Cell as ACell};
ghost use Rattle.vale_object_cells.specs.Cells.{HoldsCell, HoldsPlace, cell_in, cells_from, cells_in, held};
ghost use Rattle.vale_registers.specs.Texts.{text_at};
ghost use Rattle.vale_object_passing.specs.Giving.{give_from, given_as, is_frozen};
ghost use Rattle.vale_object_passing.specs.Passing.{AreEntered, AreEnteredAbove, AreGiven, AreLaid, IsGiven, IsPassed, cells_of, object_cells};

use vale_base::Memory;
use vale_code::Ty;
use vale_heap::Place;
use vale_object_cells::{Register, Shape, empty, place_at, set_reference};
use vale_registers::Row;

// Whether a parameter of a type is a reference into frozen data.
#[inline(always)]
fn is_frozen(ty: &Ty) -> bool
    ensures { result ≡ is_frozen ty.now }
{
    match ty {
        Ty::Frozen(_) => true,
        _ => false,
    }
}

// A register gets what one of a frame holds; an owner or an isolate leaves that one empty.
#[inline(always)]
fn keep(
    frame: &mut [Register],
    to: &mut Register,
    texts: &mut Row,
    base: usize,
    from: u32,
    target: usize,
) -> Result<(), Memory>
    requires there { HoldsCell frame.old from }
    requires above { base + length frame.old ≤ target }
    requires few { target < 2 ^ 64 }
    ensures { OnOk result (IsGiven false base from target frame.old texts.old frame.new to.new texts.new) }
{
    let held = frame[from as usize];
    *to = held;
    match held.shape {
        Shape::Own => {
            empty(frame, from);
            Ok(())
        }
        Shape::Iso => {
            empty(frame, from);
            Ok(())
        }
        Shape::Text => texts.share(base + from as usize, target),
        Shape::Int => Ok(()),
        Shape::Truth => Ok(()),
        Shape::Ref => Ok(()),
        Shape::Empty => Ok(()),
    }
}

// A register gets a reference to what one of a frame leads to.
#[inline(always)]
fn refer(frame: &[Register], to: &mut Register, from: u32)
    requires place { HoldsPlace frame.now from }
    ensures { (t : ℕ → List ℕ) (x : List ℕ) → cell_in to.new x ≡ given_as true (held (cells_in t frame.now) from) }
{
    let place = place_at(frame, from);
    to.shape = Shape::Ref;
    to.frame = place.frame;
    to.slot = place.slot;
    to.generation = place.generation;
}

// A parameter, a frozen one or another, gets what a register of a frame holds.
#[inline(always)]
fn give(
    frozen: bool,
    frame: &mut [Register],
    to: &mut Register,
    texts: &mut Row,
    base: usize,
    from: u32,
    target: usize,
) -> Result<(), Memory>
    requires there { (t : ℕ → List ℕ) × (c : ACell) × (given_as frozen (held (cells_in t frame.old) from) ≡ Some c) }
    requires above { base + length frame.old ≤ target }
    requires few { target < 2 ^ 64 }
    ensures { OnOk result (IsGiven frozen base from target frame.old texts.old frame.new to.new texts.new) }
{
    if frozen {
        refer(frame, to, from);
        return Ok(());
    }
    keep(frame, to, texts, base, from, target)
}

// Parameters get what these registers of a frame hold.
fn give_all(
    frame: &mut [Register],
    own: &mut [Register],
    texts: &mut Row,
    base: usize,
    first: usize,
    types: &[Ty],
    args: &[u32],
) -> Result<(), Memory>
    requires given { IsSome (give_from [] types.now args.now (cells_from base texts.old frame.old)) }
    requires count { length own.old ≡ length args.now }
    requires above { base + length frame.old ≤ first }
    requires few { first + length own.old < 2 ^ 64 }
    ensures { OnOk result (AreGiven base first types.now args.now frame.old texts.old frame.new own.new texts.new) }
{
    for at in 0..args.len() {
        let frozen = is_frozen(&types[at]);
        give(
            frozen,
            frame,
            &mut own[at],
            texts,
            base,
            args[at],
            first + at,
        )?;
    }
    Ok(())
}

/// Registers hold nothing from now on.
pub fn blank(registers: &mut [Register])
    ensures { (t : ℕ → List ℕ) → cells_in t registers.new ≡ replicate (length registers.old) None }
{
    for at in 0..registers.len() {
        registers[at].shape = Shape::Empty;
    }
}

// The first registers of a function get what these of a frame hold, and the others nothing.
#[inline(always)]
fn lay(
    frame: &mut [Register],
    own: &mut [Register],
    texts: &mut Row,
    base: usize,
    first: usize,
    types: &[Ty],
    args: &[u32],
) -> Result<(), Memory>
    requires given { IsSome (give_from [] types.now args.now (cells_from base texts.old frame.old)) }
    requires count { length args.now ≤ length own.old }
    requires above { base + length frame.old ≤ first }
    requires few { first + length own.old < 2 ^ 64 }
    ensures { OnOk result (AreLaid base first types.now args.now frame.old texts.old frame.new own.new texts.new) }
{
    let (given, rest) = own.split_at_mut(args.len());
    match give_all(frame, given, texts, base, first, types, args) {
        Ok(()) => {}
        Err(fault) => return Err(fault),
    }
    blank(rest);
    Ok(())
}

// The same, behind a reference to the object of a method.
#[inline(always)]
fn lay_behind(
    frame: &mut [Register],
    own: &mut [Register],
    texts: &mut Row,
    base: usize,
    first: usize,
    object: Option<Place>,
    types: &[Ty],
    args: &[u32],
) -> Result<(), Memory>
    requires given { IsSome (give_from [] types.now args.now (cells_from base texts.old frame.old)) }
    requires count { length (object_cells object) + length args.now ≤ length own.old }
    requires above { base + length frame.old ≤ first }
    requires few { first + length own.old < 2 ^ 64 }
    ensures { OnOk result (AreEntered base first object types.now args.now frame.old texts.old frame.new own.new texts.new) }
{
    match object {
        None => lay(frame, own, texts, base, first, types, args),
        Some(place) => {
            let (receiver, rest) = own.split_at_mut(1);
            set_reference(receiver, 0, place);
            lay(frame, rest, texts, base, first + 1, types, args)
        }
    }
}

// The same of registers from a base on.
#[inline(always)]
fn lay_above(
    registers: &mut [Register],
    texts: &mut Row,
    base: usize,
    top: usize,
    object: Option<Place>,
    types: &[Ty],
    args: &[u32],
) -> Result<(), Memory>
    requires base { base ≤ top }
    requires top { top + length (object_cells object) + length args.now ≤ base + length registers.old }
    requires few { base + length registers.old < 2 ^ 64 }
    requires given { IsSome (give_from [] types.now args.now (cells_from base texts.old (take (top - base) registers.old))) }
    ensures { OnOk result (AreEnteredAbove base top object types.now args.now registers.old texts.old registers.new texts.new) }
{
    let (frame, own) = registers.split_at_mut(top - base);
    lay_behind(frame, own, texts, base, top, object, types, args)
}

// The same of registers among some.
#[inline(always)]
fn lay_within(
    registers: &mut [Register],
    texts: &mut Row,
    base: usize,
    top: usize,
    end: usize,
    object: Option<Place>,
    types: &[Ty],
    args: &[u32],
) -> Result<(), Memory>
    requires base { base ≤ top }
    requires top { top + length (object_cells object) + length args.now ≤ end }
    requires end { end ≤ length registers.old }
    requires given { IsSome (give_from [] types.now args.now (cells_of base top texts.old registers.old)) }
    ensures { OnOk result (IsPassed base top end object types.now args.now registers.old texts.old registers.new texts.new) }
{
    let (used, _) = registers.split_at_mut(end);
    let (_, above) = used.split_at_mut(base);
    lay_above(above, texts, base, top, object, types, args)
}

/// The registers from the top to the end are those of a function that is called: first a reference to the object, where a method
/// is called of one, then what these registers of the frame from the base up to the top hold, as parameters of these types get it;
/// the others hold nothing.
#[inline(always)]
pub fn pass(
    registers: &mut Vec<Register>,
    texts: &mut Row,
    base: usize,
    top: usize,
    end: usize,
    object: Option<Place>,
    types: &[Ty],
    args: &[u32],
) -> Result<(), Memory>
    requires base { base ≤ top }
    requires top { top + length (object_cells object) + length args.now ≤ end }
    requires end { end ≤ length registers.old.items }
    requires given { IsSome (give_from [] types.now args.now (cells_of base top texts.old registers.old.items)) }
    ensures passed { OnOk result (IsPassed base top end object types.now args.now registers.old.items texts.old registers.new.items texts.new) }
    ensures size { length registers.new.items ≡ length registers.old.items }
{
    lay_within(registers, texts, base, top, end, object, types, args)
}
