// What is begun before a part and ended after it.
ghost use Rattle.std.specs.Prelude.{◌≡◌, Some, option_map, IfOk, OnOk};
ghost use Rattle.vale_core.specs.View.{view_view};
ghost use Rattle.vale_lowering_objects.specs.Lowered.{stays_of};
ghost use Rattle.vale_lower_flow.specs.Entries.{entry_of, entries, gone_of};
ghost use Rattle.vale_lower_flow.specs.Flow.{going, emitted};
ghost use Rattle.vale_lower_places.specs.Origins.{view_origin};
ghost use Rattle.vale_lower_parts.specs.Branches.{branch_ended, branches_ended, base_ended, Rest, Leaves, local_started};

use crate::named::{is_direct, is_frozen};
use std::alloc::Global;
use vale_base::Memory;
use vale_core::View;
use vale_lower_flow::{Flow, Gives, Gone, Local, Mark, Scope, Side, above};
use vale_lower_places::{Origin, is_there, origin_of, put_lent};

/// A branch of an `if`: where its condition begins and ends, where its test is held, and how its block ended.
#[derive(Drop)]
pub struct Branch {
    pub start: u32,
    /// Whether the condition gives a value.
    pub is_value: bool,
    pub mark: Mark,
    pub test: u32,
    pub side: Side,
}

impl Branch {
    /// What follows the branch ends.
    #[tactic(auto, unfolding(crate::specs::Branches::branch_ended))]
    pub fn end(
        self,
        alloc: Global,
        flow: &mut Flow,
        h: u32,
        scope: &Scope,
        before: &Gone,
    ) -> Result<(), Memory>
        ensures { OnOk result (going flow.new ≡ branch_ended self h (entries scope.now) (gone_of before.now) (going flow.old)) }
    {
        let Branch {
            start,
            is_value,
            mark,
            test,
            side,
        } = self;
        let meets = flow.may_meet(scope, &side);
        flow.join(side, before.copy(alloc)?)?;
        flow.keep(meets, test, h)?;
        flow.end(mark)?;
        flow.keep(is_value, start, h)
    }
}

/// What a first step starts from: an origin and the next free register, and what was begun for it.
#[derive(Clone, Copy)]
pub struct Base {
    pub origin: Origin,
    pub next: u32,
    pub start: u32,
    /// Whether there is something to start from.
    pub is_there: bool,
    pub mark: Mark,
}

impl Base {
    /// What starts from it ends.
    #[tactic(auto, unfolding(crate::specs::Branches::base_ended))]
    pub fn end(self, flow: &mut Flow, h: u32) -> Result<(), Memory>
        ensures { OnOk result (going flow.new ≡ base_ended self h (going flow.old)) }
    {
        flow.end(self.mark)?;
        flow.keep(self.is_there, self.start, h)
    }
}

// Whether a step takes what the local holds from its register.
fn stays(local: Local, view: &View, changes: bool) -> bool
    ensures { result ≡ stays_of (Some (entry_of local)) (view_view view.now) changes }
{
    !changes && (!local.owned || is_direct(view))
}

// The same from a local: from its register where it stays there, and else from a reference to what it holds.
fn base_at(
    local: Local,
    view: &View,
    changes: bool,
    h: u32,
    flow: &mut Flow,
) -> Result<Base, Memory>
    ensures { IfOk result (λ b. (part : Rest) (after : Leaves) → base_ended b h (emitted (λ place g. part (view_origin b.origin) place b.next g) (after b.next) (going flow.new)) ≡ local_started (view_view view.now) h part after (Some (entry_of local)) changes (going flow.old)) }
{
    let start = flow.place()?;
    if stays(local, view, changes) {
        return Ok(Base {
            origin: origin_of(local),
            next: h,
            start,
            is_there: is_there(local, flow),
            mark: Mark { comes: true, start },
        });
    }
    put_lent(flow, Some(local), Gives::Copied, is_frozen(view), h)?;
    let next = above(h)?;
    let mark = flow.begin(next)?;
    Ok(Base {
        origin: Origin::Reference(h),
        next,
        start,
        is_there: true,
        mark,
    })
}

/// What a first step starts from, where that is a local that is named; no step follows where there is none.
pub fn base_of_local(
    local: Option<Local>,
    view: &View,
    changes: bool,
    h: u32,
    flow: &mut Flow,
) -> Result<Base, Memory>
    ensures { IfOk result (λ b. (part : Rest) (after : Leaves) → base_ended b h (emitted (λ place g. part (view_origin b.origin) place b.next g) (after b.next) (going flow.new)) ≡ local_started (view_view view.now) h part after (option_map entry_of local) changes (going flow.old)) }
{
    match local {
        Some(local) => base_at(local, view, changes, h, flow),
        None => {
            let start = flow.place()?;
            Ok(Base {
                origin: Origin::Reference(h),
                next: h,
                start,
                is_there: false,
                mark: Mark { comes: true, start },
            })
        }
    }
}

/// The branches end, the last first.
#[tactic(auto, using(crate::proofs::FormLaws::ends))]
pub fn end_branches(
    alloc: Global,
    mut branches: Vec<Branch>,
    before: &Gone,
    h: u32,
    scope: &Scope,
    flow: &mut Flow,
) -> Result<(), Memory>
    ensures { OnOk result (going flow.new ≡ branches_ended branches.items h (entries scope.now) (gone_of before.now) (going flow.old)) }
{
    while let Some(branch) = branches.pop() {
        branch.end(alloc, flow, h, scope, before)?;
    }
    Ok(())
}
