// What a walk over a body has found so far.
ghost use Rattle.std.specs.Prelude.{◌≡◌, ◌&&◌, not, length, IfOk, OnOk};
ghost use Rattle.vale_rules_spec.specs.Whole.{is_whole, are_alike};
ghost use Rattle.vale_owner_flow.specs.FlowView.{in_scope, found, nothing, naming, moving, declaring, declaring_all, judged, told, with_first, back_to, closed, loop_ended, kept, sided, branch_ended};

use crate::branches::Branches;
use crate::locals::{Local, are_alike, place_of};
use std::alloc::Global;
use std::mem;
use vale_base::{Memory, Name, Spot};
use vale_syntax::{Fault, NameAt};

fn neither(one: bool, other: bool) -> bool
    ensures { result ≡ (not one && not other) }
{
    !one && !other
}

/// The first fault in the order of the tree, and the locals in scope, the last declared last.
#[derive(Drop)]
pub struct FlowState {
    pub fault: Option<Fault>,
    pub locals: Vec<Local>,
}

impl FlowState {
    /// No fault, and no locals. It takes no memory.
    #[tactic(auto, unfolding(crate::specs::FlowView::found, crate::specs::FlowView::nothing, crate::specs::FlowView::in_scope))]
    pub fn new(alloc: Global) -> Self
        ensures { found result ≡ nothing }
    {
        FlowState {
            fault: None,
            locals: Vec::new(alloc),
        }
    }

    /// A new local, which is whole.
    #[tactic(auto, using(crate::proofs::LocalLaws::one_more), unfolding(crate::specs::FlowView::found, crate::specs::FlowView::declaring))]
    pub fn declare(&mut self, name: NameAt) -> Result<(), Memory>
        ensures { OnOk result (found self.new ≡ declaring name (found self.old)) }
    {
        Ok(
            self.locals.push(Local {
                name: name.name,
                whole: true,
            })?,
        )
    }

    /// New locals, one after another.
    #[tactic(auto, using(crate::proofs::FoundLaws::declarations))]
    pub fn declare_all(&mut self, names: &[NameAt]) -> Result<(), Memory>
        ensures { OnOk result (found self.new ≡ declaring_all names.now (found self.old)) }
    {
        for name in names {
            self.declare(*name)?;
        }
        Ok(())
    }

    /// A rule with this code is kept or broken at the spot.
    #[tactic(auto, unfolding(crate::specs::FlowView::found, crate::specs::FlowView::judged))]
    pub fn judge(&mut self, at: Spot, code: u8, kept: bool)
        ensures { found self.new ≡ judged at code kept (found self.old) }
    {
        if !kept && self.fault.is_none() {
            self.fault = Some(Fault { code, at });
        }
    }

    /// A fault that stands after what is found.
    #[tactic(auto, unfolding(crate::specs::FlowView::found, crate::specs::FlowView::told))]
    pub fn tell(&mut self, fault: Option<Fault>)
        ensures { found self.new ≡ told fault (found self.old) }
    {
        if self.fault.is_none() {
            self.fault = fault;
        }
    }

    /// Another first fault, in place of the one that it gives.
    #[tactic(auto, unfolding(crate::specs::FlowView::found, crate::specs::FlowView::with_first))]
    pub fn exchange(&mut self, fault: Option<Fault>) -> Option<Fault>
        ensures first { result ≡ (found self.old).first }
        ensures changed { found self.new ≡ with_first fault (found self.old) }
    {
        mem::replace(&mut self.fault, fault)
    }

    /// Whether the local that the name stands for is whole. What isn't in scope is.
    #[tactic(auto, using(crate::proofs::LocalLaws::wholes), unfolding(crate::specs::FlowView::found))]
    pub fn is_whole(&self, name: Name) -> bool
        ensures { result ≡ is_whole name.0 (found self.now).locals }
    {
        match place_of(&self.locals, name) {
            Some(at) => self.locals[at].whole,
            None => true,
        }
    }

    /// Whether the local of a destructor is taken apart, by whether anything but a destructuring moves it.
    pub fn is_taken_apart(&self, name: Name, moves: bool) -> bool
        ensures { result ≡ (not moves && not (is_whole name.0 (found self.now).locals)) }
    {
        neither(moves, self.is_whole(name))
    }

    /// The local is moved.
    #[tactic(auto, using(crate::proofs::LocalLaws::moves), unfolding(crate::specs::FlowView::found, crate::specs::FlowView::moving))]
    pub fn move_out(&mut self, name: Name)
        ensures { found self.new ≡ moving name.0 (found self.old) }
    {
        if let Some(at) = place_of(&self.locals, name) {
            self.locals[at].whole = false;
        }
    }

    /// A local is named, which moves it or doesn't.
    #[tactic(auto, using(crate::proofs::FoundLaws::named))]
    pub fn name(&mut self, name: NameAt, is_moved: bool)
        ensures { found self.new ≡ naming name is_moved (found self.old) }
    {
        let whole = self.is_whole(name.name);
        self.judge(name.at, 30, whole);
        if is_moved {
            self.move_out(name.name);
        }
    }

    /// How many locals are in scope.
    #[tactic(auto, using(crate::proofs::LocalLaws::as_many), unfolding(crate::specs::FlowView::found))]
    pub fn count(&self) -> usize
        ensures { result ≡ length (found self.now).locals }
    {
        self.locals.len()
    }

    /// Those that were declared after so many are in scope no more.
    #[tactic(auto, using(crate::proofs::LocalLaws::first_ones), unfolding(crate::specs::FlowView::found, crate::specs::FlowView::closed))]
    pub fn close(&mut self, count: usize)
        ensures { found self.new ≡ closed count (found self.old) }
    {
        self.locals.truncate(count);
    }

    /// The locals once more.
    #[tactic(auto, unfolding(crate::specs::FlowView::found))]
    pub fn copy(&self, alloc: Global) -> Result<Vec<Local>, Memory>
        ensures { IfOk result (λ locals. in_scope locals.items ≡ (found self.now).locals) }
    {
        Ok(Vec::from_slice(alloc, &self.locals)?)
    }

    /// These locals, in place of those that it gives.
    #[tactic(auto, unfolding(crate::specs::FlowView::found, crate::specs::FlowView::back_to))]
    pub fn go_back(&mut self, locals: Vec<Local>) -> Vec<Local>
        ensures after { in_scope result.items ≡ (found self.old).locals }
        ensures back { found self.new ≡ back_to (in_scope locals.items) (found self.old) }
    {
        mem::replace(&mut self.locals, locals)
    }

    /// Whether the same locals are whole as before.
    #[tactic(auto, unfolding(crate::specs::FlowView::found))]
    pub fn is_as(&self, before: &[Local]) -> bool
        ensures { result ≡ are_alike (in_scope before.now) (found self.now).locals }
    {
        are_alike(before, &self.locals)
    }

    /// The end of a loop, by whether its condition leaves the locals as they are, the locals before its body and whether
    /// the body always returns.
    #[tactic(auto, using(crate::proofs::FoundLaws::loop_is))]
    pub fn end_loop(&mut self, at: Spot, stays: bool, start: Vec<Local>, returns: bool)
        ensures { found self.new ≡ loop_ended at stays (in_scope start.items) returns (found self.old) }
    {
        let kept = stays && (returns || self.is_as(&start));
        self.judge(at, 32, kept);
        let _after = self.go_back(start);
    }

    /// The end of an `if`, by the locals before it and its branches.
    #[tactic(auto, using(crate::proofs::FoundLaws::branches))]
    pub fn end_branch(&mut self, at: Spot, before: Vec<Local>, branches: Branches)
        ensures { found self.new ≡ branch_ended at (in_scope before.items) (sided (found self.old) (kept branches)) }
    {
        let Branches { first, alike } = branches;
        self.judge(at, 31, alike);
        let _after = match first {
            Some(locals) => self.go_back(locals),
            None => self.go_back(before),
        };
    }
}
