// Turns: of a loop with a condition, and of one over numbers.
ghost use Rattle.std.specs.Prelude.{◌≡◌, ◌+◌, ◌&&◌, ◌∷◌, [], pos, length, IfOk, OnOk};
ghost use Rattle.vale_code.specs.declared.instr.Instr.TheVariants as i;
ghost use Rattle.vale_lowering_objects.specs.Scopes.{closes};
ghost use Rattle.vale_lower_flow.specs.Entries.{entries, gone_of};
ghost use Rattle.vale_lower_flow.specs.Flow.{going, put, back_to, filled, only, ended, if_there, looped, after_of};

use crate::fronts::Front;
use std::alloc::Global;
use vale_base::{Memory, Spot};
use vale_code::Instr;
use vale_lower_flow::{Flow, Gone, Scope, above};

/// The turns of a loop: what was gone before them, and where the jump to the test is held.
#[derive(Drop)]
pub struct Turns {
    pub before: Gone,
    pub start: u32,
}

/// The test of a loop: whether its turns move nothing that the next would find, and its place.
#[derive(Clone, Copy)]
pub struct Test {
    pub closes: bool,
    pub place: u32,
}

/// A loop begins with its turns.
pub fn begin_turns(alloc: Global, flow: &mut Flow) -> Result<Turns, Memory>
    ensures before { IfOk result (λ z. gone_of z.before ≡ (going flow.old).gone) }
    ensures start { IfOk result (λ z. z.start ≡ length (going flow.old).code) }
    ensures begun { OnOk result (going flow.new ≡ put (i.Tick ∷ []) (put (i.Jump 0 ∷ []) (going flow.old))) }
{
    let before = flow.copy_gone(alloc)?;
    let start = flow.hold()?;
    flow.put(Instr::Tick)?;
    Ok(Turns { before, start })
}

impl Turns {
    /// The test begins, with what was gone before the turns.
    pub fn test(&self, alloc: Global, scope: &Scope, flow: &mut Flow) -> Result<Test, Memory>
        ensures closes { IfOk result (λ z. z.closes ≡ closes (entries scope.now) (gone_of self.now.before) (after_of (going flow.old).comes (going flow.old).gone)) }
        ensures place { IfOk result (λ z. z.place ≡ length (going flow.old).code) }
        ensures back { OnOk result (going flow.new ≡ back_to (gone_of self.now.before) (going flow.old)) }
    {
        let closes = flow.closes(scope, &self.before);
        let place = flow.place()?;
        let before = self.before.copy(alloc)?;
        flow.go_back(before);
        Ok(Test { closes, place })
    }

    /// The loop ends after its test.
    pub fn end(
        self,
        flow: &mut Flow,
        test: Test,
        is_value: bool,
        scope: &Scope,
        h: u32,
    ) -> Result<(), Memory>
        ensures { OnOk result (going flow.new ≡ only (is_value && (closes (entries scope.now) (gone_of self.before) (after_of (going flow.old).comes (going flow.old).gone) && test.closes)) self.start h (looped self.start test.place h (gone_of self.before) (going flow.old))) }
    {
        let Turns { before, start } = self;
        let closes = flow.closes(scope, &before);
        flow.end_loop(start, test.place, h, before)?;
        flow.keep(is_value && (closes && test.closes), start, h)
    }
}

/// A condition behind which no run comes, before the turns that no run comes to: what was gone before it and behind it.
#[derive(Drop)]
pub struct Passed {
    pub front: Front,
    pub before: Gone,
    pub now: Gone,
}

/// The turns begin, with what was gone before the condition.
pub fn pass(alloc: Global, front: Front, before: Gone, flow: &mut Flow) -> Result<Passed, Memory>
    ensures front { IfOk result (λ z. z.front ≡ front) }
    ensures before { IfOk result (λ z. gone_of z.before ≡ gone_of before) }
    ensures now { IfOk result (λ z. gone_of z.now ≡ (going flow.old).gone) }
    ensures back { OnOk result (going flow.new ≡ back_to (gone_of before) (going flow.old)) }
{
    let now = flow.copy_gone(alloc)?;
    let again = before.copy(alloc)?;
    flow.go_back(again);
    Ok(Passed { front, before, now })
}

impl Passed {
    /// The turns end.
    pub fn end(self, flow: &mut Flow, is_value: bool, scope: &Scope, h: u32) -> Result<(), Memory>
        ensures { OnOk result (going flow.new ≡ only (is_value && closes (entries scope.now) (gone_of self.before) (after_of (going flow.old).comes (going flow.old).gone)) self.front.start h (ended self.front.mark (back_to (gone_of self.now) (going flow.old)))) }
    {
        let Passed { front, before, now } = self;
        let closes = flow.closes(scope, &before);
        flow.go_back(now);
        front.close(flow, is_value && closes, h)
    }
}

/// A loop over numbers: its first place, and its turns.
#[derive(Drop)]
pub struct Count {
    pub first: u32,
    pub turns: Turns,
}

/// A loop over numbers begins: its counter stands in the register, its bound in the next, and a turn's number in `turn`.
pub fn begin_count(
    alloc: Global,
    flow: &mut Flow,
    h: u32,
    turn: u32,
    at: Spot,
) -> Result<Count, Memory>
    ensures first { IfOk result (λ z. z.first ≡ length (going flow.old).code) }
    ensures before { IfOk result (λ z. gone_of z.turns.before ≡ (going flow.old).gone) }
    ensures start { IfOk result (λ z. z.turns.start ≡ length (put (i.Sub turn h h at ∷ []) (going flow.old)).code) }
    ensures begun { OnOk result (going flow.new ≡ filled turn (put (i.Copy turn h ∷ []) (put (i.Tick ∷ []) (put (i.Jump 0 ∷ []) (put (i.Sub turn h h at ∷ []) (going flow.old)))))) }
{
    let first = flow.place()?;
    let before = flow.copy_gone(alloc)?;
    flow.put(Instr::Sub {
        to: turn,
        left: h,
        right: h,
        at,
    })?;
    let start = flow.hold()?;
    flow.put(Instr::Tick)?;
    flow.put(Instr::Copy { to: turn, from: h })?;
    flow.fill(turn);
    Ok(Count {
        first,
        turns: Turns { before, start },
    })
}

// The counter goes on, where a run comes behind the turn.
#[tactic(auto, using(crate::proofs::EndLaws::counts), unfolding(vale_lower_flow::specs::Flow::going))]
fn go_on(flow: &mut Flow, h: u32, turn: u32, at: Spot) -> Result<(), Memory>
    ensures { OnOk result (going flow.new ≡ if_there (λ place g. i.Int turn (pos 1) ∷ i.Add h h turn at ∷ []) (going flow.old)) }
{
    if !flow.comes {
        return Ok(());
    }
    flow.put(Instr::Int {
        to: turn,
        number: 1,
    })?;
    flow.put(Instr::Add {
        to: h,
        left: h,
        right: turn,
        at,
    })
}

impl Count {
    /// The loop ends after a turn.
    pub fn end(
        self,
        alloc: Global,
        flow: &mut Flow,
        scope: &Scope,
        h: u32,
        turn: u32,
        at: Spot,
    ) -> Result<(), Memory>
        ensures { OnOk result (going flow.new ≡ only (closes (entries scope.now) (gone_of self.turns.before) (after_of (going flow.old).comes (going flow.old).gone)) self.first h
            (looped self.turns.start (length (if_there (λ place g. i.Int turn (pos 1) ∷ i.Add h h turn at ∷ []) (going flow.old)).code) turn (gone_of self.turns.before)
            (put (i.Cmp turn 2 h (h + 1) ∷ []) (back_to (gone_of self.turns.before) (if_there (λ place g. i.Int turn (pos 1) ∷ i.Add h h turn at ∷ []) (going flow.old)))))) }
    {
        let Count { first, turns } = self;
        let Turns { before, start } = turns;
        let closes = flow.closes(scope, &before);
        go_on(flow, h, turn, at)?;
        let test = flow.place()?;
        let again = before.copy(alloc)?;
        flow.go_back(again);
        flow.put(Instr::Cmp {
            to: turn,
            choice: 2,
            left: h,
            right: above(h)?,
        })?;
        flow.end_loop(start, test, turn, before)?;
        flow.keep(closes, first, h)
    }
}
