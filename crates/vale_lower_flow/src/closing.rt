// What is still to be done at the end of a list of parts.
ghost use Rattle.std.specs.Prelude.{◌≡◌, OnOk};
ghost use Rattle.vale_lower_flow.specs.Closing.{dropped, closed_one, closed};
ghost use Rattle.vale_lower_flow.specs.Entries.{entry_of};
ghost use Rattle.vale_lower_flow.specs.Flow.{Going, going, only, ended};

use crate::flow::{Flow, Mark};
use crate::scope::Local;
use std::alloc::Global;
use vale_base::{Memory, Spot};
use vale_code::Instr;

/// What is done at the end of a part and of all that follows it.
#[derive(Clone, Copy)]
pub enum Closing {
    /// The code from the place on is left out: no step follows there.
    Cut(u32, u32),
    /// What follows a part that always returns, and begins here, ends.
    End(u32),
    /// The local is dropped at the spot.
    Drop(Local, Spot),
}

impl Flow {
    /// A local or a waiting value is dropped, where a run comes.
    #[tactic(auto, using(crate::proofs::ClosingLaws::drops), unfolding(crate::specs::Flow::going, crate::specs::Flow::if_there, crate::specs::Closing::dropped))]
    pub fn drop_local(&mut self, local: Local, at: Spot) -> Result<(), Memory>
        ensures { OnOk result (going self.new ≡ dropped (entry_of local) at (going self.old)) }
    {
        if !self.comes || !local.owned || self.gone.has(local.register) {
            return Ok(());
        }
        self.code.push(Instr::Destroy {
            from: local.register,
            at,
        })?;
        Ok(())
    }

    fn close(&mut self, closing: Closing) -> Result<(), Memory>
        ensures { OnOk result (going self.new ≡ closed_one closing (going self.old)) }
    {
        match closing {
            Closing::Cut(place, h) => self.keep(false, place, h),
            Closing::End(start) => self.end(Mark {
                comes: false,
                start,
            }),
            Closing::Drop(local, at) => self.drop_local(local, at),
        }
    }
}

/// The last of them is done first.
#[derive(Drop)]
pub struct Closings {
    pub all: Vec<Closing>,
}

impl Closings {
    /// None. It takes no memory.
    #[tactic(auto, unfolding(crate::specs::Closing::closed))]
    pub fn new(alloc: Global) -> Self
        ensures { (f : Going) → closed result f ≡ f }
    {
        Closings {
            all: Vec::new(alloc),
        }
    }

    /// The code from the place on stays only where the test holds.
    #[tactic(auto, using(crate::proofs::ClosingLaws::more), unfolding(crate::specs::Closing::closed, crate::specs::Flow::only))]
    pub fn keep(&mut self, test: bool, place: u32, h: u32) -> Result<(), Memory>
        ensures { OnOk result ((f : Going) → closed self.new f ≡ closed self.old (only test place h f)) }
    {
        if !test {
            self.all.push(Closing::Cut(place, h))?;
        }
        Ok(())
    }

    /// What follows the mark ends.
    #[tactic(auto, using(crate::proofs::ClosingLaws::more), unfolding(crate::specs::Closing::closed, crate::specs::Flow::ended))]
    pub fn end(&mut self, mark: Mark) -> Result<(), Memory>
        ensures { OnOk result ((f : Going) → closed self.new f ≡ closed self.old (ended mark f)) }
    {
        if !mark.comes {
            self.all.push(Closing::End(mark.start))?;
        }
        Ok(())
    }

    /// A local is dropped, where a run comes.
    #[tactic(auto, using(crate::proofs::ClosingLaws::more, crate::proofs::ClosingLaws::copied), unfolding(crate::specs::Closing::closed))]
    pub fn drop_local(&mut self, local: Local, at: Spot) -> Result<(), Memory>
        ensures { OnOk result ((f : Going) → closed self.new f ≡ closed self.old (dropped (entry_of local) at f)) }
    {
        if local.owned {
            self.all.push(Closing::Drop(local, at))?;
        }
        Ok(())
    }

    /// All is done, the last first.
    #[tactic(auto, using(crate::proofs::ClosingLaws::more), unfolding(crate::specs::Closing::closed))]
    pub fn close(mut self, flow: &mut Flow) -> Result<(), Memory>
        ensures { OnOk result (going flow.new ≡ closed self (going flow.old)) }
    {
        while let Some(closing) = self.all.pop() {
            flow.close(closing)?;
        }
        Ok(())
    }
}
