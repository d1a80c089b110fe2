// The registers whose owners have been moved.
ghost use Rattle.std.specs.Prelude.{◌≡◌, [], ◌∷◌, IfOk, OnOk};
ghost use Rattle.vale_lowering_objects.specs.Scopes.{is_gone, without};
ghost use Rattle.vale_lower_flow.specs.Entries.{gone_of};

use std::alloc::Global;
use vale_base::Memory;

/// The registers that are empty since their owners were moved, the last last.
#[derive(Drop)]
pub struct Gone {
    pub registers: Vec<u32>,
}

impl Gone {
    /// None. It takes no memory.
    #[tactic(auto, unfolding(crate::specs::Entries::gone_of))]
    pub fn new(alloc: Global) -> Self
        ensures { gone_of result ≡ [] }
    {
        Gone {
            registers: Vec::new(alloc),
        }
    }

    /// Whether the owner of this register is gone.
    #[tactic(auto, unfolding(crate::specs::Entries::gone_of))]
    pub fn has(&self, register: u32) -> bool
        ensures { result ≡ is_gone register (gone_of self.now) }
    {
        let registers = self.registers.as_slice();
        for at in 0..registers.len() {
            if registers[at] == register {
                return true;
            }
        }
        false
    }

    /// The owner of this register is moved.
    #[tactic(auto, using(crate::proofs::ScopeLaws::gone_more), unfolding(crate::specs::Entries::gone_of))]
    pub fn take(&mut self, register: u32) -> Result<(), Memory>
        ensures { OnOk result (gone_of self.new ≡ register ∷ gone_of self.old) }
    {
        self.registers.push(register)?;
        Ok(())
    }

    /// The register gets a value.
    #[tactic(auto, using(crate::proofs::ScopeLaws::withouts))]
    pub fn fill(&mut self, register: u32)
        ensures { gone_of self.new ≡ without register (gone_of self.old) }
    {
        if !self.has(register) {
            return;
        }
        self.remove_all(register);
    }

    // The register is none of them any more.
    fn remove_all(&mut self, register: u32)
        ensures { gone_of self.new ≡ without register (gone_of self.old) }
    {
        self.registers.retain(|gone| *gone != register);
    }

    /// The same once more.
    #[tactic(auto, unfolding(crate::specs::Entries::gone_of))]
    pub fn copy(&self, alloc: Global) -> Result<Gone, Memory>
        ensures { IfOk result (λ g. gone_of g ≡ gone_of self.now) }
    {
        Ok(Gone {
            registers: Vec::from_slice(alloc, &self.registers)?,
        })
    }
}
