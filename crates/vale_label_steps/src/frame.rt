// The locals of a block while it is gone through.
ghost use Rattle.std.specs.Prelude.{◌≡◌, ◌+◌, ◌||◌, [], ◌∷◌, OnOk};
ghost use Rattle.vale_core.specs.View.{view_ty};
ghost use Rattle.vale_lower_facts.specs.Slots as s;
ghost use Rattle.vale_label_steps.specs.Standing.{framed};

use crate::slots::Local;
use std::alloc::Global;
use vale_base::{Memory, Name};
use vale_core::Ty;
use vale_lower_expr::above;

/// The locals of a block so far, the last last; the next free register; and whether the function has returned on every way
/// before.
#[derive(Drop)]
pub struct Frame {
    pub locals: Vec<Local>,
    pub next: u32,
    pub over: bool,
}

impl Frame {
    ghost use Rattle.std.specs.Prelude.{List};

    /// No locals. It takes no memory.
    pub fn new(alloc: Global, next: u32, over: bool) -> Self
        ensures locals { result.locals.items ≡ [] }
        ensures next { result.next ≡ next }
        ensures over { result.over ≡ over }
    {
        Frame {
            locals: Vec::new(alloc),
            next,
            over,
        }
    }

    /// A local of this type in the next free register.
    #[tactic(auto, using(crate::proofs::SlotLaws::framed_more))]
    pub fn declare(&mut self, name: Name, ty: Ty) -> Result<(), Memory>
        ensures locals { OnOk result ((outer : s.Slots) → framed self.new.locals.items outer ≡ s.local name.0 self.old.next (view_ty ty) ∷ framed self.old.locals.items outer) }
        ensures next { OnOk result (self.new.next ≡ self.old.next + 1) }
        ensures over { OnOk result (self.new.over ≡ self.old.over) }
    {
        let register = self.next;
        self.locals.push(Local { name, register, ty })?;
        self.next = above(register)?;
        Ok(())
    }
}
