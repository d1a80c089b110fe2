// Objects that are made, and objects that are taken apart.
ghost use Rattle.std.specs.Prelude.{◌≡◌, ℕ, ◌+◌, ◌<◌, ◌≤◌, ◌^◌, ◌∷◌, [], IfOk, IsErrOf, IsSome, OnOk, Some, length};
ghost use Rattle.vale_registers.specs.Texts.{text_at};
ghost use Rattle.vale_table.specs.Lending.{IsFull};
ghost use Rattle.vale_heap.specs.HeapState.{HasNoRoom, IsRoot, KeepsFrames, KnowsFrames, OfHand};
ghost use Rattle.vale_heap.specs.declared.body.Place.{Place as APlace};
ghost use Rattle.vale_object_cells.specs.Cells.{cells_from, held, place_in};
ghost use Rattle.vale_object_steps.specs.Doing.{makes, opens};
ghost use Rattle.vale_object_steps.specs.Keeping.{AreBelow, fill_from, keep_from};
ghost use Rattle.vale_object_steps.specs.Lent.{FollowsLent, StillLent};
ghost use Rattle.vale_object_steps.specs.Views.{CanDo, Follows};
ghost use Rattle.vale_object_steps.specs.declared.effect.Effect.{Effect};

use crate::effect::Want;
use std::alloc::Global;
use vale_base::{Kind, Memory};
use vale_heap::{Body, Cells, Heap};
use vale_object_cells::{Register, empty, keep, place_at, receive, set_own};
use vale_registers::Row;
use vale_table::Lender;

// What these registers hold is kept.
fn keep_all(
    alloc: Global,
    registers: &mut [Register],
    texts: &Row,
    base: usize,
    args: &[u32],
) -> Result<Cells, Memory>
    requires few { base + length registers.old < 2 ^ 64 }
    requires there { IsSome (keep_from [] args.now (cells_from base texts.now registers.old)) }
    ensures { IfOk result (λ cells. keep_from [] args.now (cells_from base texts.now registers.old) ≡ Some (record { cells = cells; after = cells_from base texts.now registers.new })) }
{
    let mut cells = Vec::with_capacity(alloc, args.len())?;
    for at in 0..args.len() {
        let cell = keep(alloc, registers, texts, base, args[at])?;
        cells.push(cell)?;
    }
    Ok(Cells::from_vec(cells))
}

/// An object is made of what registers hold, which is kept; its owner goes to a register. A page is wanting only where no page of
/// the innermost region and no spare page has room, and all frames are out.
pub fn make<L: Lender<Body>>(
    alloc: Global,
    heap: &mut Heap,
    lender: &mut L,
    registers: &mut [Register],
    texts: &Row,
    base: usize,
    to: u32,
    kind: Kind,
    args: &[u32],
) -> Result<(), Want>
    requires room { to < length registers.old }
    requires few { base + length registers.old < 2 ^ 64 }
    requires frames { L.frames lender.old ≤ length heap.old.seats }
    requires known { KnowsFrames heap.old (L.out lender.old) }
    requires right { CanDo (makes to kind args.now) heap.old (cells_from base texts.now registers.old) }
    ensures step { OnOk result (FollowsLent (L.out lender.old) (L.floors lender.old) (makes to kind args.now) heap.old (cells_from base texts.now registers.old) heap.new (cells_from base texts.now registers.new)) }
    ensures refused { IsErrOf result Want.Page → HasNoRoom heap.old × IsFull (L.frames lender.old) (L.out lender.new) }
    ensures full { IsErrOf result Want.Page → HasNoRoom heap.new }
    ensures lent { StillLent heap.old heap.new (L.frames lender.old) (L.frames lender.new) (L.out lender.old) (L.out lender.new) (L.floors lender.old) (L.floors lender.new) }
    ensures of_hand { OfHand heap.old (L.hand lender.old) → OfHand heap.new (L.hand lender.new) }
{
    match keep_all(alloc, registers, texts, base, args) {
        Ok(cells) => match heap.make(lender, Body { kind, cells }) {
            Ok(place) => {
                set_own(registers, to, place);
                return Ok(());
            }
            Err(_) => return Err(Want::Page),
        },
        Err(_) => return Err(Want::Memory),
    }
}

// Cells go to registers.
fn receive_all(
    alloc: Global,
    registers: &mut [Register],
    texts: &mut Row,
    base: usize,
    to: &[u32],
    cells: Cells,
) -> Result<(), Memory>
    requires room { AreBelow to.now (length registers.old) }
    requires few { base + length registers.old < 2 ^ 64 }
    requires many { length to.now ≡ length cells }
    ensures cells { OnOk result (cells_from base texts.new registers.new ≡ fill_from to.now cells (cells_from base texts.old registers.old)) }
    ensures others { OnOk result ((i : ℕ) → i < base → text_at texts.new i ≡ text_at texts.old i) }
{
    let mut at = 0;
    for cell in cells.into_vec() {
        receive(alloc, registers, texts, base, to[at], cell)?;
        at += 1;
    }
    Ok(())
}

/// An owner's object, which is the root of no isolate, dies, and its values go to registers.
pub fn open(
    alloc: Global,
    heap: &mut Heap,
    registers: &mut [Register],
    texts: &mut Row,
    base: usize,
    to: &[u32],
    from: u32,
) -> Result<(), Memory>
    requires room { AreBelow to.now (length registers.old) }
    requires few { base + length registers.old < 2 ^ 64 }
    requires right { CanDo (opens to.now from) heap.old (cells_from base texts.old registers.old) }
    requires no_root { (p : APlace) → place_in (held (cells_from base texts.old registers.old) from) ≡ Some p → IsRoot heap.old p → ⊥ }
    ensures step { OnOk result (Follows (opens to.now from) heap.old (cells_from base texts.old registers.old) Effect.Done heap.new (cells_from base texts.new registers.new)) }
    ensures keeps { KeepsFrames heap.old heap.new }
    ensures others { OnOk result ((i : ℕ) → i < base → text_at texts.new i ≡ text_at texts.old i) }
{
    let place = place_at(registers, from);
    match heap.end(place) {
        Some(body) => {
            empty(registers, from);
            receive_all(alloc, registers, texts, base, to, body.cells)
        }
        None => unreachable!(),
    }
}
