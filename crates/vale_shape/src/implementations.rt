// Which struct implements which interface.
ghost use Rattle.std.specs.Prelude.{◌≡◌, List, [], ◌∷◌, ◌++◌, not, IfOk};
ghost use Rattle.std.specs.List.{list_any};
ghost use Rattle.vale_code.specs.declared.func.Impl.{Impl as AnyImpl};
ghost use Rattle.vale_cert.specs.Objects.{is_implemented};
ghost use Rattle.vale_cert.specs.Shape.{same_pair};
ghost use Rattle.vale_shape.specs.Known.{Knows};

use std::alloc::Global;
use std::collections::BTreeSet;
use vale_base::{Kind, Memory};
use vale_code::Impl;

/// The pairs of an interface and a struct that implements it, by their numbers.
#[derive(Drop)]
pub struct Implementations {
    pairs: BTreeSet<(u32, u32)>,
}

impl Implementations {
    /// No pairs.
    pub fn new(alloc: Global) -> Self
        ensures { Knows result [] }
    {
        Implementations {
            pairs: BTreeSet::new(alloc),
        }
    }

    /// Whether the struct implements the interface.
    pub fn has(&self, interface: Kind, of: Kind) -> bool
        ensures { (impls : List AnyImpl) → Knows self.now impls → result ≡ is_implemented impls interface of }
    {
        self.pairs.contains(&(interface.0, of.0))
    }

    /// Adds an implementation's pair, and says whether it is new.
    pub fn add(&mut self, item: &Impl) -> Result<bool, Memory>
        ensures added { IfOk result (λ added. (before : List AnyImpl) → Knows self.old before → added ≡ not (list_any (same_pair item.now) before)) }
        ensures knows { IfOk result (λ added. (before : List AnyImpl) → Knows self.old before → Knows self.new (before ++ item.now ∷ [])) }
    {
        Ok(self.pairs.insert((item.interface.0, item.of.0))?)
    }
}
