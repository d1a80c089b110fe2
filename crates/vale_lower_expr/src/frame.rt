// The locals of a block while it is lowered.
ghost use Rattle.std.specs.Prelude.{◌≡◌, ◌+◌, [], ◌∷◌, ◌++◌, OnOk};

use crate::code_buffer::above;
use crate::scope::Local;
use std::alloc::Global;
use vale_base::{Memory, Name};

/// The locals of a block so far, the last last, and the next free register.
#[derive(Drop)]
pub struct Frame {
    pub locals: Vec<Local>,
    pub next: u32,
}

impl Frame {
    /// No locals. It takes no memory.
    pub fn new(alloc: Global, next: u32) -> Self
        ensures locals { result.locals.items ≡ [] }
        ensures next { result.next ≡ next }
    {
        Frame {
            locals: Vec::new(alloc),
            next,
        }
    }

    /// A local in the next free register.
    pub fn declare(&mut self, name: Name) -> Result<(), Memory>
        ensures locals { OnOk result (self.new.locals.items ≡ self.old.locals.items ++ record { name = name; register = self.old.next } ∷ []) }
        ensures next { OnOk result (self.new.next ≡ self.old.next + 1) }
    {
        let register = self.next;
        self.locals.push(Local { name, register })?;
        self.next = above(register)?;
        Ok(())
    }
}
