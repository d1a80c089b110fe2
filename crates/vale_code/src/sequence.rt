// A list of parts of a code, which contracts see as the list.
ghost use Rattle.std.specs.Prelude.{◌≡◌, [], ◌∷◌, ◌++◌, length, OnOk};

use std::alloc::Global;
use std::marker::Model;
use vale_base::Memory;

/// A list of parts of a code.
#[derive(Drop)]
pub struct Sequence<T> {
    parts: Vec<T>,
}

impl<T> Model for Sequence<T> {
    ghost use Rattle.std.specs.Prelude.{List};
    ghost use Rattle.std.specs.Coded.{coded_list};

    ghost Value = { List T };

    ghost coded = { coded_list T.code };

    ghost view = { λ s. s.parts.items };
}

impl<T> Sequence<T> {
    /// No parts. It takes no memory.
    pub fn new(alloc: Global) -> Self
        ensures { result ≡ [] }
    {
        Sequence {
            parts: Vec::new(alloc),
        }
    }

    /// These parts. It takes no memory.
    pub fn from_vec(parts: Vec<T>) -> Self
        ensures { result ≡ parts.items }
    {
        Sequence { parts }
    }

    /// The parts.
    pub fn as_slice(&self) -> &[T]
        ensures { result.now ≡ self.now }
    {
        &self.parts
    }

    /// The parts, given back. It takes no memory.
    pub fn into_vec(self) -> Vec<T>
        ensures { result.items ≡ self }
    {
        self.parts
    }

    /// How many parts there are.
    pub fn len(&self) -> usize
        ensures { result ≡ length self.now }
    {
        self.parts.len()
    }
}

impl<T: Drop> Sequence<T> {
    /// Puts a part at the end. Where memory is wanting the list is unchanged.
    pub fn push(&mut self, part: T) -> Result<(), Memory>
        ensures pushed { OnOk result (self.new ≡ self.old ++ part ∷ []) }
    {
        self.parts.push(part)?;
        Ok(())
    }
}
