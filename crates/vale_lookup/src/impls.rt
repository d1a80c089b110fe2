// Which interfaces structs implement.
ghost use Rattle.std.specs.Prelude.{◌≡◌, ℕ, ◌||◌, ◌&&◌, ◌==◌, false, OnOk};

use std::alloc::Global;
use std::collections::HashSet;
use vale_base::{Memory, Name};

/// Pairs of an interface and a struct that implements it.
#[derive(Drop)]
pub struct Impls {
    pairs: HashSet<(u32, u32)>,
}

impl Impls {
    ghost use Rattle.vale_lookup.specs.Index.{has_impl};

    /// No pairs. It takes no memory.
    pub fn new(alloc: Global) -> Self
        ensures { (i s : ℕ) → has_impl result i s ≡ false }
    {
        Impls {
            pairs: HashSet::new(alloc),
        }
    }

    /// Adds a pair.
    pub fn add(&mut self, interface: Name, of: Name) -> Result<(), Memory>
        ensures { OnOk result ((i s : ℕ) → has_impl self.new i s ≡ ((interface.0 == i && of.0 == s) || has_impl self.old i s)) }
    {
        self.pairs.insert((interface.0, of.0))?;
        Ok(())
    }

    /// Whether the pair is there.
    pub fn has(&self, interface: Name, of: Name) -> bool
        ensures { result ≡ has_impl self.now interface.0 of.0 }
    {
        self.pairs.contains(&(interface.0, of.0))
    }
}
