// Steps within the innermost function.
ghost use Rattle.std.specs.Prelude.{◌≡◌, ◌-◌, ◌<◌, ◌≤◌, List, drop, length, take};
ghost use Rattle.vale_base.specs.declared.piece.Piece.{Piece};
ghost use Rattle.vale_turn.specs.Served.{AreFit};
ghost use Rattle.vale_turn.specs.View.{EndsBy, IfStopped, IsSafe, Leads, OnceBy, Scene, config};
ghost use Rattle.vale_machine.specs.Lawful.{IsRunnable};
ghost use Rattle.vale_machine.specs.UnderWay.{EndsSo, TookOne};
ghost use Rattle.vale_machine.specs.View.{GoesOn, IsPlaced, config_of};

use crate::machine::Machine;
use vale_code::Code;
use vale_registers::Cell;
use vale_turn::{Stop, go, once};

// The same of registers that are the last of some cells, from the base on.
#[inline(always)]
fn go_above(
    code: &Code,
    function: u32,
    cells: &mut [Cell],
    base: usize,
    place: &mut usize,
    left: &mut u64,
) -> Stop
    requires known { function < length code.now.funcs }
    requires base { base ≤ length cells.old }
    requires fit { AreFit code.now function (length cells.old - base) }
    requires safe { (s : Scene) × (left.old ≤ s.given) × IsSafe code.now (config function s place.old (drop base cells.old) left.old) }
    ensures leads { (s : Scene) → left.old ≤ s.given
        → Leads code.now (config function s place.old (drop base cells.old) left.old) (config function s place.new (drop base cells.new) left.new) }
    ensures ends { (s : Scene) → left.old ≤ s.given → EndsBy code.now function s result place.new (drop base cells.new) left.new }
    ensures below { take base cells.new ≡ take base cells.old }
    ensures ticks { left.new ≤ left.old }
{
    let (_, registers) = cells.split_at_mut(base);
    go(code, function, registers, place, left)
}

// The same of the first of some cells.
#[inline(always)]
fn go_within(
    code: &Code,
    function: u32,
    cells: &mut [Cell],
    base: usize,
    end: usize,
    place: &mut usize,
    left: &mut u64,
) -> Stop
    requires known { function < length code.now.funcs }
    requires base { base ≤ end }
    requires end { end ≤ length cells.old }
    requires fit { AreFit code.now function (end - base) }
    requires safe { (s : Scene) × (left.old ≤ s.given) × IsSafe code.now (config function s place.old (drop base (take end cells.old)) left.old) }
    ensures leads { (s : Scene) → left.old ≤ s.given
        → Leads code.now (config function s place.old (drop base (take end cells.old)) left.old) (config function s place.new (drop base (take end cells.new)) left.new) }
    ensures ends { (s : Scene) → left.old ≤ s.given → EndsBy code.now function s result place.new (drop base (take end cells.new)) left.new }
    ensures below { take base (take end cells.new) ≡ take base (take end cells.old) }
    ensures ticks { left.new ≤ left.old }
{
    let (row, _) = cells.split_at_mut(end);
    go_above(code, function, row, base, place, left)
}

// One instruction of the same.
fn once_above(
    code: &Code,
    function: u32,
    cells: &mut [Cell],
    base: usize,
    place: &mut usize,
    left: &mut u64,
) -> Stop
    requires known { function < length code.now.funcs }
    requires base { base ≤ length cells.old }
    requires fit { AreFit code.now function (length cells.old - base) }
    requires safe { (s : Scene) × (left.old ≤ s.given) × IsSafe code.now (config function s place.old (drop base cells.old) left.old) }
    ensures step { (s : Scene) → left.old ≤ s.given
        → OnceBy code.now function s result (config function s place.old (drop base cells.old) left.old) place.new (drop base cells.new) left.new }
    ensures same { IfStopped result ((place.new ≡ place.old) × (drop base cells.new ≡ drop base cells.old) × (left.new ≡ left.old)) }
    ensures below { take base cells.new ≡ take base cells.old }
    ensures ticks { left.new ≤ left.old }
{
    let (_, registers) = cells.split_at_mut(base);
    once(code, function, registers, place, left)
}

// The same of the first of some cells.
fn once_within(
    code: &Code,
    function: u32,
    cells: &mut [Cell],
    base: usize,
    end: usize,
    place: &mut usize,
    left: &mut u64,
) -> Stop
    requires known { function < length code.now.funcs }
    requires base { base ≤ end }
    requires end { end ≤ length cells.old }
    requires fit { AreFit code.now function (end - base) }
    requires safe { (s : Scene) × (left.old ≤ s.given) × IsSafe code.now (config function s place.old (drop base (take end cells.old)) left.old) }
    ensures step { (s : Scene) → left.old ≤ s.given
        → OnceBy code.now function s result (config function s place.old (drop base (take end cells.old)) left.old) place.new (drop base (take end cells.new)) left.new }
    ensures same { IfStopped result ((place.new ≡ place.old) × (drop base (take end cells.new) ≡ drop base (take end cells.old)) × (left.new ≡ left.old)) }
    ensures below { take base (take end cells.new) ≡ take base (take end cells.old) }
    ensures ticks { left.new ≤ left.old }
{
    let (row, _) = cells.split_at_mut(end);
    once_above(code, function, row, base, place, left)
}

impl Machine {
    // Runs the innermost function up to where a step does more than its cells tell, or ends it.
    #[inline(always)]
    pub(crate) fn run_on(&mut self, code: &Code) -> Stop
        requires runnable { IsRunnable code.now }
        requires placed { IsPlaced code.now self.old.top.function self.old.top.base self.old.end }
        requires end { self.old.end ≤ length self.old.cells.items }
        requires ticks { self.old.left ≤ self.old.given }
        requires safe { (taken : List Piece) × IsSafe code.now (config_of code.now taken self.old) }
        ensures leads { (taken : List Piece) → Leads code.now (config_of code.now taken self.old) (config_of code.now taken self.new) }
        ensures ends { EndsSo code.now result self.new }
        ensures goes { GoesOn self.old self.new }
    {
        let mut place = self.top.place;
        let mut left = self.left;
        let stop = go_within(
            code,
            self.top.function,
            &mut self.cells,
            self.top.base,
            self.end,
            &mut place,
            &mut left,
        );
        self.top.place = place;
        self.left = left;
        stop
    }

    // One instruction within the innermost function.
    pub(crate) fn once(&mut self, code: &Code) -> Stop
        requires runnable { IsRunnable code.now }
        requires placed { IsPlaced code.now self.old.top.function self.old.top.base self.old.end }
        requires end { self.old.end ≤ length self.old.cells.items }
        requires ticks { self.old.left ≤ self.old.given }
        requires safe { (taken : List Piece) × IsSafe code.now (config_of code.now taken self.old) }
        ensures step { (taken : List Piece) → TookOne code.now taken result self.old self.new }
        ensures goes { GoesOn self.old self.new }
    {
        let mut place = self.top.place;
        let mut left = self.left;
        let stop = once_within(
            code,
            self.top.function,
            &mut self.cells,
            self.top.base,
            self.end,
            &mut place,
            &mut left,
        );
        self.top.place = place;
        self.left = left;
        stop
    }
}
