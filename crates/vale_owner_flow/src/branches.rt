// The branches of an `if`, with which locals its blocks end, and which operators have branches.
ghost use Rattle.std.specs.Prelude.{◌≡◌, false};
ghost use Rattle.vale_owner_flow.specs.FlowView.{in_scope, kept, no_branches, with_branch, may_skip};

use crate::locals::{Local, are_alike};
use vale_syntax::BinaryOp;

/// Whether the operand after it may be left out.
pub fn may_skip(op: BinaryOp) -> bool
    ensures { result ≡ may_skip op }
{
    matches!(op, BinaryOp::Or | BinaryOp::And)
}

/// The locals after the first block that doesn't always return, and whether the others end as it does.
#[derive(Drop)]
pub struct Branches {
    pub first: Option<Vec<Local>>,
    pub alike: bool,
}

impl Branches {
    /// No branch so far.
    #[tactic(auto, unfolding(crate::specs::FlowView::kept, crate::specs::FlowView::no_branches))]
    pub fn none() -> Self
        ensures { kept result ≡ no_branches }
    {
        Branches {
            first: None,
            alike: true,
        }
    }

    /// A block that always returns, or ends with these locals.
    #[tactic(auto, unfolding(crate::specs::FlowView::kept, crate::specs::FlowView::with_branch))]
    pub fn add(&mut self, returns: bool, after: Vec<Local>)
        ensures { kept self.new ≡ with_branch returns (in_scope after.items) (kept self.old) }
    {
        if returns {
            return;
        }
        match &self.first {
            Some(first) => {
                let alike = self.alike && are_alike(first, &after);
                self.alike = alike;
            }
            None => {
                self.first = Some(after);
            }
        }
    }

    /// There is no `else`: the locals may stay as they are.
    pub fn stay(&mut self, before: Vec<Local>)
        ensures { kept self.new ≡ with_branch false (in_scope before.items) (kept self.old) }
    {
        self.add(false, before);
    }
}
