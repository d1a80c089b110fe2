// A set of names that grows, with those of them that are still to be looked at.
ghost use Rattle.std.specs.Prelude.{◌≡◌, ℕ, ◌++◌, [], ◌∷◌, false, OnOk, MatchOption, option_to_list, vec_len};
ghost use Rattle.vale_names.specs.Names.{has};

use crate::names::Names;
use std::alloc::Global;
use vale_base::{Memory, Name};

/// A set of names, with those of them that are still to be looked at, each of which is put there once.
#[derive(Drop)]
pub struct Spread {
    found: Names,
    todo: Vec<u32>,
}

impl Spread {
    ghost use Rattle.vale_names.specs.Spread.{finds, Spreads};

    /// No names. It takes no memory.
    pub fn new(alloc: Global) -> Self
        ensures found { (n : ℕ) → finds result n ≡ false }
        ensures todo { result.todo.items ≡ [] }
    {
        Spread {
            found: Names::new(alloc),
            todo: Vec::new(alloc),
        }
    }

    /// Adds a name, to be looked at where it is new.
    #[tactic(auto, using(crate::proofs::SpreadLaws::adds_known))]
    pub fn add(&mut self, name: u32) -> Result<(), Memory>
        ensures { OnOk result (Spreads (name ∷ []) self.old self.new) }
    {
        if self.found.insert(Name(name))? {
            self.todo.push(name)?;
        }
        Ok(())
    }

    /// Adds the names, each to be looked at where it is new.
    pub fn add_all(&mut self, names: &[u32]) -> Result<(), Memory>
        ensures { OnOk result (Spreads names.now self.old self.new) }
    {
        for name in names {
            self.add(*name)?;
        }
        Ok(())
    }

    /// Takes a name that is still to be looked at.
    pub fn next(&mut self) -> Option<u32>
        ensures found { self.new.found ≡ self.old.found }
        ensures todo { self.old.todo.items ≡ self.new.todo.items ++ option_to_list result }
        ensures none { MatchOption result (vec_len self.old.todo ≡ 0) (λ _. Unit {0}) }
    {
        self.todo.pop()
    }

    /// The set alone.
    pub fn into_names(self) -> Names
        ensures { (n : ℕ) → has result n ≡ finds self n }
    {
        self.found
    }
}
