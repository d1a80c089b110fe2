// A stretch of steps within one function.
ghost use Rattle.std.specs.Prelude.{◌≡◌, ℕ, ◌+◌, ◌<◌, ◌≤◌, ◌^◌, IfOk, IsErrOf, OnOk, length};
ghost use Rattle.vale_registers.specs.Texts.{text_at};
ghost use Rattle.vale_table.specs.Lending.{IsFull};
ghost use Rattle.vale_heap.specs.HeapState.{HasNoRoom, KnowsFrames, OfHand};
ghost use Rattle.vale_object_cells.specs.Cells.{cells_from};
ghost use Rattle.vale_object_steps.specs.Lent.{StillLent};
ghost use Rattle.vale_object_steps.specs.Views.{View};
ghost use Rattle.vale_object_turn.specs.Steps.{Scene, config};
ghost use Rattle.vale_object_stretch.specs.Stretch.{AreFit, Ended, IsUnderWay};

use crate::once::once;
use std::alloc::Global;
use vale_code::Code;
use vale_heap::{Body, Heap};
use vale_object_cells::Register;
use vale_object_steps::Want;
use vale_registers::Row;
use vale_table::Lender;
use vale_turn::{Stop, function_of, instr_at};

/// Runs a function from a place on, up to where another is entered, this one is left, an object is destroyed, something is
/// printed, or the run ends. A page is wanting only where no page of the innermost region and no spare page has room, and all
/// frames are out.
pub fn go<L: Lender<Body>>(
    alloc: Global,
    code: &Code,
    function: u32,
    heap: &mut Heap,
    lender: &mut L,
    registers: &mut [Register],
    texts: &mut Row,
    base: usize,
    place: &mut usize,
    left: &mut u64,
) -> Result<Stop, Want>
    requires there { function < length code.now.funcs }
    requires fit { AreFit code.now function (length registers.old) }
    requires few { base + length registers.old < 2 ^ 64 }
    requires frames { L.frames lender.old ≤ length heap.old.seats }
    requires known { KnowsFrames heap.old (L.out lender.old) }
    requires under_way { (s : Scene) × (v : View) × IsUnderWay code.now function (L.out lender.old) (L.floors lender.old) s v heap.old (cells_from base texts.old registers.old) place.old left.old }
    ensures ends { IfOk result (λ told. (s : Scene) (v : View) → IsUnderWay code.now function (L.out lender.old) (L.floors lender.old) s v heap.old (cells_from base texts.old registers.old) place.old left.old
        → Ended code.now s v (config s v place.old (cells_from base texts.old registers.old)) told heap.new (cells_from base texts.new registers.new) place.new left.new) }
    ensures refused { IsErrOf result Want.Page → HasNoRoom heap.new × IsFull (L.frames lender.old) (L.out lender.new) }
    ensures lent { StillLent heap.old heap.new (L.frames lender.old) (L.frames lender.new) (L.out lender.old) (L.out lender.new) (L.floors lender.old) (L.floors lender.new) }
    ensures of_hand { OfHand heap.old (L.hand lender.old) → OfHand heap.new (L.hand lender.new) }
    ensures others { OnOk result ((i : ℕ) → i < base → text_at texts.new i ≡ text_at texts.old i) }
    ensures ticks { left.new ≤ left.old }
{
    let body = function_of(code, function).body.as_slice();
    'turns: loop {
        let instr = instr_at(body, *place);
        let stop = once(
            alloc, code, body, heap, lender, registers, texts, base, place, left, instr,
        )?;
        match stop {
            Stop::Going => {}
            _ => return Ok(stop),
        }
    }
}
