// Instructions that make an object, or take one apart. Each spends a tick.
ghost use Rattle.std.specs.Prelude.{◌≡◌, ℕ, ◌+◌, ◌<◌, ◌≤◌, ◌^◌, IfOk, IsErrOf, OnOk, Some, length};
ghost use Rattle.vale_registers.specs.Texts.{text_at};
ghost use Rattle.vale_code.specs.declared.instr.Instr.{Instr};
ghost use Rattle.vale_table.specs.Lending.{IsFull};
ghost use Rattle.vale_turn.specs.View.{IfStopped, Stays};
ghost use Rattle.vale_heap.specs.HeapState.{HasNoRoom, IsRoot, KeepsFrames, KnowsFrames, OfHand};
ghost use Rattle.vale_heap.specs.declared.body.Place.{Place as APlace};
ghost use Rattle.vale_object_cells.specs.Cells.{cells_from, held, place_in};
ghost use Rattle.vale_object_steps.specs.Keeping.{AreBelow};
ghost use Rattle.vale_object_steps.specs.Lent.{StillLent};
ghost use Rattle.vale_object_turn.specs.Steps.{HasRule, Obeys, ObeysLent};

use std::alloc::Global;
use vale_base::{Kind, Memory};
use vale_heap::{Body, Heap};
use vale_object_cells::Register;
use vale_object_steps::{Want, make, open};
use vale_registers::Row;
use vale_table::Lender;
use vale_turn::Stop;

/// An object is made of what registers hold, and its owner goes to a register. A page is wanting only where no page of the
/// innermost region and no spare page has room, and all frames are out.
pub fn obey_make<L: Lender<Body>>(
    alloc: Global,
    heap: &mut Heap,
    lender: &mut L,
    registers: &mut [Register],
    texts: &Row,
    base: usize,
    place: &mut usize,
    left: &mut u64,
    to: u32,
    kind: Kind,
    args: &[u32],
) -> Result<Stop, Want>
    requires room { to < length registers.old }
    requires few { base + length registers.old < 2 ^ 64 }
    requires place { place.old + 1 < 2 ^ 64 }
    requires frames { L.frames lender.old ≤ length heap.old.seats }
    requires known { KnowsFrames heap.old (L.out lender.old) }
    requires right { HasRule heap.old (cells_from base texts.now registers.old) place.old left.old (Instr.Make to kind args.now) }
    ensures step { IfOk result (λ told. ObeysLent (L.out lender.old) (L.floors lender.old) (Instr.Make to kind args.now) heap.old (cells_from base texts.now registers.old) place.old left.old told heap.new (cells_from base texts.now registers.new) place.new left.new) }
    ensures refused { IsErrOf result Want.Page → HasNoRoom heap.old × IsFull (L.frames lender.old) (L.out lender.new) }
    ensures full { IsErrOf result Want.Page → HasNoRoom heap.new }
    ensures lent { StillLent heap.old heap.new (L.frames lender.old) (L.frames lender.new) (L.out lender.old) (L.out lender.new) (L.floors lender.old) (L.floors lender.new) }
    ensures of_hand { OfHand heap.old (L.hand lender.old) → OfHand heap.new (L.hand lender.new) }
    ensures ticks { left.new ≤ left.old }
    ensures kept { IfOk result (λ told. IfStopped told (left.new ≡ left.old)) }
    ensures stays { IfOk result (λ told. Stays told) }
{
    if *left == 0 {
        return Ok(Stop::Cut);
    }
    match make(alloc, heap, lender, registers, texts, base, to, kind, args) {
        Ok(()) => {
            *left -= 1;
            *place += 1;
            return Ok(Stop::Going);
        }
        Err(want) => return Err(want),
    }
}

/// An owner's object, which is the root of no isolate, dies, and its values go to registers.
pub fn obey_open(
    alloc: Global,
    heap: &mut Heap,
    registers: &mut [Register],
    texts: &mut Row,
    base: usize,
    place: &mut usize,
    left: &mut u64,
    to: &[u32],
    from: u32,
) -> Result<Stop, Memory>
    requires room { AreBelow to.now (length registers.old) }
    requires few { base + length registers.old < 2 ^ 64 }
    requires place { place.old + 1 < 2 ^ 64 }
    requires right { HasRule heap.old (cells_from base texts.old registers.old) place.old left.old (Instr.Open to.now from) }
    requires no_root { (p : APlace) → place_in (held (cells_from base texts.old registers.old) from) ≡ Some p → IsRoot heap.old p → ⊥ }
    ensures step { IfOk result (λ told. Obeys (Instr.Open to.now from) heap.old (cells_from base texts.old registers.old) place.old left.old told heap.new (cells_from base texts.new registers.new) place.new left.new) }
    ensures keeps { KeepsFrames heap.old heap.new }
    ensures others { OnOk result ((i : ℕ) → i < base → text_at texts.new i ≡ text_at texts.old i) }
    ensures ticks { left.new ≤ left.old }
    ensures kept { IfOk result (λ told. IfStopped told (left.new ≡ left.old)) }
    ensures stays { IfOk result (λ told. Stays told) }
{
    if *left == 0 {
        return Ok(Stop::Cut);
    }
    match open(alloc, heap, registers, texts, base, to, from) {
        Ok(()) => {
            *left -= 1;
            *place += 1;
            Ok(Stop::Going)
        }
        Err(fault) => Err(fault),
    }
}
