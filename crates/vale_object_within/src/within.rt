// Instructions within a function.
ghost use Rattle.std.specs.Prelude.{◌≡◌, ℕ, ◌+◌, ◌<◌, ◌≤◌, ◌^◌, IfOk, IsErrOf, Ok, OnOk, length, true};
ghost use Rattle.vale_registers.specs.Texts.{text_at};
ghost use Rattle.vale_table.specs.Lending.{IsFull};
ghost use Rattle.vale_heap.specs.HeapState.{HasNoRoom, KnowsFrames, OfHand};
ghost use Rattle.vale_turn.specs.View.{IfStopped, Stays};
ghost use Rattle.vale_object_cells.specs.Cells.{cells_from};
ghost use Rattle.vale_object_steps.specs.Lent.{StillLent};
ghost use Rattle.vale_object_within.specs.Within.{FitsOpened, HasRoomFor, HasRuleWithin, ObeysWithinLent, is_within};

use crate::still::obey_still;
use std::alloc::Global;
use vale_base::Memory;
use vale_code::{Code, Instr};
use vale_heap::{Body, Heap};
use vale_object_cells::Register;
use vale_object_steps::Want;
use vale_object_turn::{obey_change, obey_make, obey_open};
use vale_registers::Row;
use vale_table::Lender;
use vale_turn::Stop;

// What an instruction comes to that wants nothing but memory.
#[inline(always)]
fn wanting(came: Result<Stop, Memory>) -> Result<Stop, Want>
    ensures ok { IfOk result (λ told. came ≡ Ok told) }
    ensures no_page { IsErrOf result Want.Page → ⊥ }
{
    match came {
        Ok(stop) => Ok(stop),
        Err(_) => Err(Want::Memory),
    }
}

/// An instruction that goes on within its function, where a rule gives its step. A page is wanting only where no page of the
/// innermost region and no spare page has room, and all frames are out.
pub fn obey_within<L: Lender<Body>>(
    alloc: Global,
    code: &Code,
    body: &[Instr],
    heap: &mut Heap,
    lender: &mut L,
    registers: &mut [Register],
    texts: &mut Row,
    base: usize,
    place: &mut usize,
    left: &mut u64,
    instr: &Instr,
) -> Result<Stop, Want>
    requires within { is_within instr.now ≡ true }
    requires room { HasRoomFor instr.now (length registers.old) }
    requires few { base + length registers.old < 2 ^ 64 }
    requires place { place.old + 1 < 2 ^ 64 }
    requires frames { L.frames lender.old ≤ length heap.old.seats }
    requires known { KnowsFrames heap.old (L.out lender.old) }
    requires opened { FitsOpened heap.old (cells_from base texts.old registers.old) instr.now }
    requires right { HasRuleWithin code.now body.now heap.old (cells_from base texts.old registers.old) place.old left.old instr.now }
    ensures step { IfOk result (λ told. ObeysWithinLent (L.out lender.old) (L.floors lender.old) code.now body.now instr.now heap.old (cells_from base texts.old registers.old) place.old left.old told heap.new (cells_from base texts.new registers.new) place.new left.new) }
    ensures refused { IsErrOf result Want.Page → HasNoRoom heap.old × IsFull (L.frames lender.old) (L.out lender.new) }
    ensures full { IsErrOf result Want.Page → HasNoRoom heap.new }
    ensures lent { StillLent heap.old heap.new (L.frames lender.old) (L.frames lender.new) (L.out lender.old) (L.out lender.new) (L.floors lender.old) (L.floors lender.new) }
    ensures of_hand { OfHand heap.old (L.hand lender.old) → OfHand heap.new (L.hand lender.new) }
    ensures others { OnOk result ((i : ℕ) → i < base → text_at texts.new i ≡ text_at texts.old i) }
    ensures ticks { left.new ≤ left.old }
    ensures kept { IfOk result (λ told. IfStopped told (left.new ≡ left.old)) }
    ensures stays { IfOk result (λ told. Stays told) }
{
    match instr {
        Instr::Make { to, kind, args } => obey_make(
            alloc,
            heap,
            lender,
            registers,
            texts,
            base,
            place,
            left,
            *to,
            *kind,
            args.as_slice(),
        ),
        Instr::Open { to, from } => wanting(obey_open(
            alloc,
            heap,
            registers,
            texts,
            base,
            place,
            left,
            to.as_slice(),
            *from,
        )),
        Instr::SwapOwn { .. }
        | Instr::Swap { .. }
        | Instr::SwapElOwn { .. }
        | Instr::SwapEl { .. }
        | Instr::Push { .. }
        | Instr::Pop { .. } => wanting(obey_change(
            alloc, heap, registers, texts, base, place, instr,
        )),
        _ => wanting(obey_still(
            alloc, code, body, heap, registers, texts, base, place, left, instr,
        )),
    }
}
