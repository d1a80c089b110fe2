// The locals of a block while it is lowered.
ghost use Rattle.std.specs.Prelude.{◌≡◌, ◌+◌, ◌∷◌, ℕ, List, map, OnOk};
ghost use Rattle.vale_code.specs.declared.instr.Instr.{Instr};
ghost use Rattle.vale_core.specs.View.{view_ty};
ghost use Rattle.vale_model.specs.Expressions.{numbers_of};
ghost use Rattle.vale_lowering_objects.specs.Lowered.{all_gives};
ghost use Rattle.vale_lowering_objects.specs.Scopes as s;
ghost use Rattle.vale_lower_flow.specs.Closing.{closed, dropped};
ghost use Rattle.vale_lower_flow.specs.Entries.{framed};
ghost use Rattle.vale_lower_flow.specs.Flow.{Going, going, filled};
ghost use Rattle.vale_lower_flow.specs.Kept.{view_gives};
ghost use Rattle.vale_lower_parts.specs.Located.{Rest, Leaves, located, at_rest};

use crate::named::declared;
use vale_base::{Memory, Name, Spot};
use vale_core::Ty;
use vale_lower_flow::{Closings, Flow, Gives, Local, above};
use vale_syntax::NameAt;

/// The locals of a block so far, the next free register, and what is done at the block's end.
#[derive(Drop)]
pub struct Frame {
    pub locals: Vec<Local>,
    pub next: u32,
    pub closings: Closings,
}

impl Frame {
    /// A local in the next free register, dropped at the block's end.
    #[tactic(auto, using(crate::proofs::BlockLaws::frames))]
    pub fn declare(
        &mut self,
        name: Name,
        gives: Gives,
        end: Spot,
        flow: &mut Flow,
    ) -> Result<(), Memory>
        ensures next { OnOk result (self.new.next ≡ self.old.next + 1) }
        ensures locals { OnOk result ((outer : s.Scope) → framed self.new.locals.items outer ≡ s.entry name.0 self.old.next (view_gives gives) ∷ framed self.old.locals.items outer) }
        ensures filled { OnOk result (going flow.new ≡ filled self.old.next (going flow.old)) }
        ensures closings { OnOk result ((f : Going) → closed self.new.closings f ≡ closed self.old.closings (dropped (s.entry name.0 self.old.next (view_gives gives)) end f)) }
    {
        let local = declared(name, self.next, gives);
        flow.fill(self.next);
        self.closings.drop_local(local, end)?;
        self.locals.push(local)?;
        self.next = above(self.next)?;
        Ok(())
    }

    /// Locals of these names and types, one after another. Where there are more of one than of the other, no step follows.
    pub fn declare_all(
        &mut self,
        names: &[NameAt],
        types: &[Ty],
        end: Spot,
        flow: &mut Flow,
    ) -> Result<(), Memory>
        ensures { OnOk result ((outer : s.Scope) (after : Leaves) (rest : Rest) → closed self.new.closings (at_rest end after rest self.new.next (framed self.new.locals.items outer) (going flow.new)) ≡ closed self.old.closings (located end after rest (numbers_of names.now) (all_gives (map view_ty types.now)) self.old.next (framed self.old.locals.items outer) (going flow.old))) }
    {
        let count = names.len().min(types.len());
        for at in 0..count {
            let gives = Gives::of(&types[at]);
            let start = flow.place()?;
            self.closings.keep(gives.is_value(), start, self.next)?;
            self.declare(names[at].name, gives, end, flow)?;
        }
        let start = flow.place()?;
        self.closings
            .keep(names.len() == types.len(), start, self.next)
    }
}
