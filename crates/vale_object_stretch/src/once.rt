// One instruction.
ghost use Rattle.std.specs.Prelude.{◌≡◌, ℕ, ◌+◌, ◌<◌, ◌≤◌, ◌^◌, IfOk, IsErrOf, OnOk, length, true};
ghost use Rattle.vale_registers.specs.Texts.{text_at};
ghost use Rattle.vale_table.specs.Lending.{IsFull};
ghost use Rattle.vale_heap.specs.HeapState.{HasNoRoom, KnowsFrames, OfHand};
ghost use Rattle.vale_turn.specs.View.{IfStopped};
ghost use Rattle.vale_object_cells.specs.Cells.{cells_from};
ghost use Rattle.vale_object_steps.specs.Lent.{StillLent};
ghost use Rattle.vale_object_within.specs.Within.{FitsOpened, HasRuleWithin};
ghost use Rattle.vale_object_stretch.specs.Stretch.{IsFit, Leaving, Obeyed};

use std::alloc::Global;
use vale_code::{Code, Instr};
use vale_heap::{Body, Heap};
use vale_object_cells::Register;
use vale_object_steps::Want;
use vale_object_within::obey_within;
use vale_registers::Row;
use vale_table::Lender;
use vale_turn::Stop;

// One instruction of a function with this body: it is obeyed, or left to be done elsewhere.
#[inline(always)]
pub(crate) fn once<L: Lender<Body>>(
    alloc: Global,
    code: &Code,
    body: &[Instr],
    heap: &mut Heap,
    lender: &mut L,
    registers: &mut [Register],
    texts: &mut Row,
    base: usize,
    place: &mut usize,
    left: &mut u64,
    instr: &Instr,
) -> Result<Stop, Want>
    requires fit { IsFit instr.now (length registers.old) }
    requires few { base + length registers.old < 2 ^ 64 }
    requires place { place.old + 1 < 2 ^ 64 }
    requires frames { L.frames lender.old ≤ length heap.old.seats }
    requires known { KnowsFrames heap.old (L.out lender.old) }
    requires opened { FitsOpened heap.old (cells_from base texts.old registers.old) instr.now }
    requires right { HasRuleWithin code.now body.now heap.old (cells_from base texts.old registers.old) place.old left.old instr.now }
    ensures step { IfOk result (λ told. Obeyed (L.out lender.old) (L.floors lender.old) code.now body.now instr.now heap.old (cells_from base texts.old registers.old) place.old left.old told heap.new (cells_from base texts.new registers.new) place.new left.new) }
    ensures leaving { IfOk result (λ told. Leaving told instr.now) }
    ensures refused { IsErrOf result Want.Page → HasNoRoom heap.old × IsFull (L.frames lender.old) (L.out lender.new) }
    ensures full { IsErrOf result Want.Page → HasNoRoom heap.new }
    ensures lent { StillLent heap.old heap.new (L.frames lender.old) (L.frames lender.new) (L.out lender.old) (L.out lender.new) (L.floors lender.old) (L.floors lender.new) }
    ensures of_hand { OfHand heap.old (L.hand lender.old) → OfHand heap.new (L.hand lender.new) }
    ensures others { OnOk result ((i : ℕ) → i < base → text_at texts.new i ≡ text_at texts.old i) }
    ensures ticks { left.new ≤ left.old }
    ensures kept { IfOk result (λ told. IfStopped told (left.new ≡ left.old)) }
{
    match instr {
        Instr::Call { .. } => Ok(Stop::Enters),
        Instr::Ret { from } => Ok(Stop::Leaves(Some(*from))),
        Instr::RetVoid => Ok(Stop::Leaves(None)),
        Instr::Destroy { .. } | Instr::Print { .. } => Ok(Stop::Aside),
        _ => obey_within(
            alloc, code, body, heap, lender, registers, texts, base, place, left, instr,
        ),
    }
}
