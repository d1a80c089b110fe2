// Tests, and the sides after them.
ghost use Rattle.std.specs.Prelude.{◌≡◌, ◌∷◌, [], length, IfOk, OnOk};
ghost use Rattle.vale_code.specs.declared.instr.Instr.TheVariants as i;
ghost use Rattle.vale_lowering_objects.specs.Scopes.{closes};
ghost use Rattle.vale_lower_flow.specs.Entries.{entries, gone_of};
ghost use Rattle.vale_lower_flow.specs.Flow.{going, put, only, turned, joined, skipped, side_after, after_of};

use crate::fronts::Front;
use std::alloc::Global;
use vale_base::Memory;
use vale_lower_flow::{Flow, Gone, Scope, Side};
use vale_lower_parts::Branch;

/// A test that is held at its place, and what was gone before what follows it.
#[derive(Drop)]
pub struct HeldTest {
    pub before: Gone,
    pub test: u32,
}

/// A test is held.
pub fn hold_test(alloc: Global, flow: &mut Flow) -> Result<HeldTest, Memory>
    ensures before { IfOk result (λ z. gone_of z.before ≡ (going flow.old).gone) }
    ensures test { IfOk result (λ z. z.test ≡ length (going flow.old).code) }
    ensures held { OnOk result (going flow.new ≡ put (i.Jump 0 ∷ []) (going flow.old)) }
{
    let before = flow.copy_gone(alloc)?;
    let test = flow.hold()?;
    Ok(HeldTest { before, test })
}

impl HeldTest {
    /// What is done only where the test is true ends, where it moves nothing.
    pub fn end_and(self, flow: &mut Flow, scope: &Scope, h: u32) -> Result<(), Memory>
        ensures { OnOk result (going flow.new ≡ only (closes (entries scope.now) (gone_of self.before) (after_of (going flow.old).comes (going flow.old).gone)) self.test h (skipped self.test h (gone_of self.before) (going flow.old))) }
    {
        let HeldTest { before, test } = self;
        let closes = flow.closes(scope, &before);
        flow.skip(test, h, before)?;
        flow.keep(closes, test, h)
    }

    /// The block of a branch ends, whose condition was the part before the test, and the other side begins.
    pub fn end_block(
        self,
        flow: &mut Flow,
        front: Front,
        is_value: bool,
        h: u32,
    ) -> Result<Branch, Memory>
        ensures start { IfOk result (λ b. b.start ≡ front.start) }
        ensures mark { IfOk result (λ b. b.mark ≡ front.mark) }
        ensures is_value { IfOk result (λ b. b.is_value ≡ is_value) }
        ensures test { IfOk result (λ b. b.test ≡ self.test) }
        ensures gone { IfOk result (λ b. gone_of b.side.gone ≡ (going flow.old).gone) }
        ensures comes { IfOk result (λ b. b.side.comes ≡ (going flow.old).comes) }
        ensures jump { IfOk result (λ b. b.side.jump ≡ length (going flow.old).code) }
        ensures turned { OnOk result (going flow.new ≡ turned self.test h (gone_of self.before) (going flow.old)) }
    {
        let HeldTest { before, test } = self;
        let side = flow.turn(test, h, before)?;
        Ok(Branch {
            start: front.start,
            is_value,
            mark: front.mark,
            test,
            side,
        })
    }
}

/// What is done only where a test is false: where the test is held, and how the empty side ended.
#[derive(Drop)]
pub struct OtherSide {
    pub test: u32,
    pub side: Side,
}

/// What is done only where the register is false begins.
#[tactic(auto, using(crate::proofs::EndLaws::jumps))]
pub fn begin_or(alloc: Global, flow: &mut Flow, h: u32) -> Result<OtherSide, Memory>
    ensures test { IfOk result (λ z. z.test ≡ length (going flow.old).code) }
    ensures gone { IfOk result (λ z. gone_of z.side.gone ≡ (going flow.old).gone) }
    ensures comes { IfOk result (λ z. z.side.comes ≡ (put (i.Jump 0 ∷ []) (going flow.old)).comes) }
    ensures jump { IfOk result (λ z. z.side.jump ≡ length (put (i.Jump 0 ∷ []) (going flow.old)).code) }
    ensures turned { OnOk result (going flow.new ≡ turned (length (going flow.old).code) h (going flow.old).gone (put (i.Jump 0 ∷ []) (going flow.old))) }
{
    let held = hold_test(alloc, flow)?;
    let HeldTest { before, test } = held;
    let side = flow.turn(test, h, before)?;
    Ok(OtherSide { test, side })
}

impl OtherSide {
    /// It ends, where it moves nothing.
    pub fn end(self, alloc: Global, flow: &mut Flow, scope: &Scope, h: u32) -> Result<(), Memory>
        ensures { OnOk result (going flow.new ≡ only (closes (entries scope.now) (gone_of self.side.gone) (after_of (going flow.old).comes (going flow.old).gone)) self.test h (joined self.side.comes self.side.jump [] (side_after self.side) (going flow.old))) }
    {
        let OtherSide { test, side } = self;
        let closes = flow.closes(scope, &side.gone);
        flow.join(side, Gone::new(alloc))?;
        flow.keep(closes, test, h)
    }
}
