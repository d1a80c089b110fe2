// What follows a part, from where it begins to where it ends.
ghost use Rattle.std.specs.Prelude.{◌≡◌, ◌+◌, IfOk, OnOk};
ghost use Rattle.vale_lower_flow.specs.Flow.{going, only, mark_of, begun, ended};

use vale_base::Memory;
use vale_lower_flow::{Flow, Mark, above};

/// A part whose value stands in a register: where it began, and the mark and the next register of what follows it.
#[derive(Clone, Copy)]
pub struct Front {
    pub start: u32,
    pub mark: Mark,
    pub next: u32,
}

impl Front {
    /// What follows the part begins; the part began at the place, and its value stands in the register.
    pub fn after(start: u32, h: u32, flow: &mut Flow) -> Result<Self, Memory>
        ensures start { IfOk result (λ z. z.start ≡ start) }
        ensures next { IfOk result (λ z. z.next ≡ h + 1) }
        ensures mark { IfOk result (λ z. z.mark ≡ mark_of (going flow.old)) }
        ensures begun { OnOk result (going flow.new ≡ begun (h + 1) (going flow.old)) }
    {
        let next = above(h)?;
        let mark = flow.begin(next)?;
        Ok(Front { start, mark, next })
    }

    /// What follows the part ends. The code of both stays only where the test holds.
    pub fn close(self, flow: &mut Flow, ok: bool, h: u32) -> Result<(), Memory>
        ensures { OnOk result (going flow.new ≡ only ok self.start h (ended self.mark (going flow.old))) }
    {
        flow.end(self.mark)?;
        flow.keep(ok, self.start, h)
    }
}
