// Sets of names.
ghost use Rattle.std.specs.Prelude.{◌≡◌, ℕ, ◌==◌, ◌||◌, not, false, IfOk, OnOk};
ghost use Rattle.vale_names.specs.Names.{has};

use std::alloc::Global;
use std::collections::HashSet;
use vale_base::{Memory, Name};

/// A set of names.
#[derive(Drop)]
pub struct Names {
    numbers: HashSet<u32>,
}

impl Names {
    /// No names. It takes no memory.
    pub fn new(alloc: Global) -> Self
        ensures { (n : ℕ) → has result n ≡ false }
    {
        Names {
            numbers: HashSet::new(alloc),
        }
    }

    /// Adds a name, and says whether it wasn't there.
    pub fn insert(&mut self, name: Name) -> Result<bool, Memory>
        ensures was_new { IfOk result (λ was_new. was_new ≡ not (has self.old name.0)) }
        ensures all { OnOk result ((n : ℕ) → has self.new n ≡ (n == name.0 || has self.old n)) }
    {
        Ok(self.numbers.insert(name.0)?)
    }

    /// Whether the name is there.
    pub fn has(&self, name: Name) -> bool
        ensures { result ≡ has self.now name.0 }
    {
        self.numbers.contains(&name.0)
    }
}
