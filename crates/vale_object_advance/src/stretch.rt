// Steps within the innermost function.
ghost use Rattle.std.specs.Prelude.{◌≡◌, ℕ, ◌+◌, ◌-◌, ◌<◌, ◌≤◌, ◌^◌, IfOk, IsErrOf, OnOk, drop, length, take};
ghost use Rattle.vale_registers.specs.Texts.{text_at};
ghost use Rattle.vale_table.specs.Lending.{IsFull};
ghost use Rattle.vale_heap.specs.HeapState.{HasNoRoom, KnowsFrames, OfHand};
ghost use Rattle.vale_object_cells.specs.Cells.{cells_from};
ghost use Rattle.vale_object_steps.specs.Lent.{StillLent};
ghost use Rattle.vale_object_steps.specs.Views.{View};
ghost use Rattle.vale_object_turn.specs.Steps.{Scene, config};
ghost use Rattle.vale_object_stretch.specs.Stretch as stretch;
ghost use Rattle.vale_object_stretch.specs.Stretch.{AreFit};
ghost use Rattle.vale_object_passing.specs.Passing.{cells_of};
ghost use Rattle.vale_object_advance.specs.Advance.{AllFit, Ended, IsSameBut, IsUnderWay, config_of};

use std::alloc::Global;
use vale_code::Code;
use vale_heap::{Body, Heap};
use vale_object_cells::Register;
use vale_object_flow::Control;
use vale_object_steps::Want;
use vale_object_stretch::go;
use vale_registers::Row;
use vale_table::Lender;
use vale_turn::Stop;

// Steps of a function whose registers are those from a base on.
#[inline(always)]
fn go_above<L: Lender<Body>>(
    alloc: Global,
    code: &Code,
    function: u32,
    heap: &mut Heap,
    lender: &mut L,
    registers: &mut [Register],
    texts: &mut Row,
    base: usize,
    place: &mut usize,
    left: &mut u64,
) -> Result<Stop, Want>
    requires there { function < length code.now.funcs }
    requires base { base ≤ length registers.old }
    requires fit { AreFit code.now function (length registers.old - base) }
    requires frames { L.frames lender.old ≤ length heap.old.seats }
    requires known { KnowsFrames heap.old (L.out lender.old) }
    requires under_way { (s : Scene) × (v : View) × stretch.IsUnderWay code.now function (L.out lender.old) (L.floors lender.old) s v heap.old (cells_from base texts.old (drop base registers.old)) place.old left.old }
    ensures ends { IfOk result (λ told. (s : Scene) (v : View) → stretch.IsUnderWay code.now function (L.out lender.old) (L.floors lender.old) s v heap.old (cells_from base texts.old (drop base registers.old)) place.old left.old
        → stretch.Ended code.now s v (config s v place.old (cells_from base texts.old (drop base registers.old))) told heap.new (cells_from base texts.new (drop base registers.new)) place.new left.new) }
    ensures refused { IsErrOf result Want.Page → HasNoRoom heap.new × IsFull (L.frames lender.old) (L.out lender.new) }
    ensures lent { StillLent heap.old heap.new (L.frames lender.old) (L.frames lender.new) (L.out lender.old) (L.out lender.new) (L.floors lender.old) (L.floors lender.new) }
    ensures of_hand { OfHand heap.old (L.hand lender.old) → OfHand heap.new (L.hand lender.new) }
    ensures others { OnOk result ((i : ℕ) → i < base → text_at texts.new i ≡ text_at texts.old i) }
    ensures below { take base registers.new ≡ take base registers.old }
    ensures ticks { left.new ≤ left.old }
{
    let (_, own) = registers.split_at_mut(base);
    go(
        alloc, code, function, heap, lender, own, texts, base, place, left,
    )
}

// The same of registers up to an end.
#[inline(always)]
fn go_within<L: Lender<Body>>(
    alloc: Global,
    code: &Code,
    function: u32,
    heap: &mut Heap,
    lender: &mut L,
    registers: &mut [Register],
    texts: &mut Row,
    base: usize,
    end: usize,
    place: &mut usize,
    left: &mut u64,
) -> Result<Stop, Want>
    requires there { function < length code.now.funcs }
    requires base { base ≤ end }
    requires end { end ≤ length registers.old }
    requires fit { AreFit code.now function (end - base) }
    requires frames { L.frames lender.old ≤ length heap.old.seats }
    requires known { KnowsFrames heap.old (L.out lender.old) }
    requires under_way { (s : Scene) × (v : View) × stretch.IsUnderWay code.now function (L.out lender.old) (L.floors lender.old) s v heap.old (cells_of base end texts.old registers.old) place.old left.old }
    ensures ends { IfOk result (λ told. (s : Scene) (v : View) → stretch.IsUnderWay code.now function (L.out lender.old) (L.floors lender.old) s v heap.old (cells_of base end texts.old registers.old) place.old left.old
        → stretch.Ended code.now s v (config s v place.old (cells_of base end texts.old registers.old)) told heap.new (cells_of base end texts.new registers.new) place.new left.new) }
    ensures refused { IsErrOf result Want.Page → HasNoRoom heap.new × IsFull (L.frames lender.old) (L.out lender.new) }
    ensures lent { StillLent heap.old heap.new (L.frames lender.old) (L.frames lender.new) (L.out lender.old) (L.out lender.new) (L.floors lender.old) (L.floors lender.new) }
    ensures of_hand { OfHand heap.old (L.hand lender.old) → OfHand heap.new (L.hand lender.new) }
    ensures others { OnOk result ((i : ℕ) → i < base → text_at texts.new i ≡ text_at texts.old i) }
    ensures below { take base (take end registers.new) ≡ take base (take end registers.old) }
    ensures ticks { left.new ≤ left.old }
{
    let (row, _) = registers.split_at_mut(end);
    go_above(
        alloc, code, function, heap, lender, row, texts, base, place, left,
    )
}

// The same of a row.
#[inline(always)]
fn go_in_row<L: Lender<Body>>(
    alloc: Global,
    code: &Code,
    function: u32,
    heap: &mut Heap,
    lender: &mut L,
    registers: &mut Vec<Register>,
    texts: &mut Row,
    base: usize,
    end: usize,
    place: &mut usize,
    left: &mut u64,
) -> Result<Stop, Want>
    requires there { function < length code.now.funcs }
    requires base { base ≤ end }
    requires end { end ≤ length registers.old.items }
    requires fit { AreFit code.now function (end - base) }
    requires frames { L.frames lender.old ≤ length heap.old.seats }
    requires known { KnowsFrames heap.old (L.out lender.old) }
    requires under_way { (s : Scene) × (v : View) × stretch.IsUnderWay code.now function (L.out lender.old) (L.floors lender.old) s v heap.old (cells_of base end texts.old registers.old.items) place.old left.old }
    ensures ends { IfOk result (λ told. (s : Scene) (v : View) → stretch.IsUnderWay code.now function (L.out lender.old) (L.floors lender.old) s v heap.old (cells_of base end texts.old registers.old.items) place.old left.old
        → stretch.Ended code.now s v (config s v place.old (cells_of base end texts.old registers.old.items)) told heap.new (cells_of base end texts.new registers.new.items) place.new left.new) }
    ensures refused { IsErrOf result Want.Page → HasNoRoom heap.new × IsFull (L.frames lender.old) (L.out lender.new) }
    ensures lent { StillLent heap.old heap.new (L.frames lender.old) (L.frames lender.new) (L.out lender.old) (L.out lender.new) (L.floors lender.old) (L.floors lender.new) }
    ensures of_hand { OfHand heap.old (L.hand lender.old) → OfHand heap.new (L.hand lender.new) }
    ensures others { OnOk result ((i : ℕ) → i < base → text_at texts.new i ≡ text_at texts.old i) }
    ensures below { take base (take end registers.new.items) ≡ take base (take end registers.old.items) }
    ensures size { length registers.new.items ≡ length registers.old.items }
    ensures ticks { left.new ≤ left.old }
{
    go_within(
        alloc, code, function, heap, lender, registers, texts, base, end, place, left,
    )
}

/// Runs the innermost function up to where another is entered, this one is left, an object is destroyed, something is printed, or
/// the run ends. A page is wanting only where no page of the innermost region and no spare page has room, and all frames are out.
#[inline(always)]
pub fn run_on<L: Lender<Body>>(
    alloc: Global,
    code: &Code,
    heap: &mut Heap,
    lender: &mut L,
    control: &mut Control,
    left: &mut u64,
) -> Result<Stop, Want>
    requires fits { AllFit code.now }
    requires base { control.old.top.base ≤ control.old.end }
    requires end { control.old.end ≤ length control.old.registers.items }
    requires frames { L.frames lender.old ≤ length heap.old.seats }
    requires known { KnowsFrames heap.old (L.out lender.old) }
    requires under_way { (v : View) × IsUnderWay code.now (L.out lender.old) (L.floors lender.old) v heap.old control.old left.old }
    ensures ends { IfOk result (λ told. (v : View) → IsUnderWay code.now (L.out lender.old) (L.floors lender.old) v heap.old control.old left.old → Ended code.now v (config_of code.now v control.old) told heap.new control.new left.new) }
    ensures same { IsSameBut control.old control.new }
    ensures size { length control.new.registers.items ≡ length control.old.registers.items }
    ensures refused { IsErrOf result Want.Page → HasNoRoom heap.new × IsFull (L.frames lender.old) (L.out lender.new) }
    ensures lent { StillLent heap.old heap.new (L.frames lender.old) (L.frames lender.new) (L.out lender.old) (L.out lender.new) (L.floors lender.old) (L.floors lender.new) }
    ensures of_hand { OfHand heap.old (L.hand lender.old) → OfHand heap.new (L.hand lender.new) }
    ensures ticks { left.new ≤ left.old }
{
    let mut place = control.top.place;
    let came = go_in_row(
        alloc,
        code,
        control.top.function,
        heap,
        lender,
        &mut control.registers,
        &mut control.texts,
        control.top.base,
        control.end,
        &mut place,
        left,
    );
    control.top.place = place;
    came
}
