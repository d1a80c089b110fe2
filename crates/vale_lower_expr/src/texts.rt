// The texts of a code and their numbers.
ghost use Rattle.std.specs.Prelude.{◌≡◌, ℕ, ◌∷◌, ◌++◌, map, length, ◌<◌, IfOk, OnOk, Some, None, bytes_eq, if◌then◌else◌};
ghost use Rattle.std.specs.Borrow.{Bor};
ghost use Rattle.vale_lowering.specs.Scopes.{number_of_text};
ghost use Rattle.vale_lower_expr.specs.Found.{or_else};
ghost use Rattle.vale_lower_expr.specs.Numbered.{text_place, AreNumbered};

use std::alloc::Global;
use std::collections::HashMap;
use vale_base::{Memory, Text};

/// The first place of each text.
#[derive(Drop)]
pub struct Places<'p> {
    places: HashMap<&'p [u8], u32>,
}

impl<'p> Places<'p> {
    ghost use Rattle.std.specs.Prelude.{List};

    /// No places. It takes no memory.
    fn new(alloc: Global) -> Self
        ensures { (q : Bor (List ℕ)) → text_place result q.now ≡ None }
    {
        Places {
            places: HashMap::new(alloc),
        }
    }

    /// Adds the place of a text that has none yet.
    fn add(&mut self, text: &'p [u8], at: u32) -> Result<(), Memory>
        ensures { OnOk result ((q : Bor (List ℕ)) → text_place self.new q.now ≡ or_else (text_place self.old q.now) (if bytes_eq text.now q.now then Some at else None)) }
    {
        if !self.places.contains_key(&text) {
            self.places.insert(text, at)?;
        }
        Ok(())
    }

    fn place(&self, text: &[u8]) -> Option<u32>
        ensures { result ≡ text_place self.now text.now }
    {
        self.places.get(&text).copied()
    }
}

/// Texts, of which one has the number of the first place where it stands.
#[derive(Drop)]
pub struct Texts<'p> {
    all: &'p [Text],
    count: u32,
    places: Places<'p>,
    ghost is_counted: { count ≡ length all.now },
    ghost are_numbered: { AreNumbered all.now places },
}

impl<'p> Texts<'p> {
    ghost use Rattle.vale_lower_expr.specs.Held.{texts_of};

    /// These texts. More than 2^32 - 1 are want of memory.
    pub fn new(alloc: Global, all: &'p [Text]) -> Result<Self, Memory>
        ensures { IfOk result (λ t. texts_of t ≡ all.now) }
    {
        if all.len() > u32::MAX as usize {
            return Err(Memory);
        }
        let places = first_places(alloc, all)?;
        Ok(Texts {
            all,
            count: all.len() as u32,
            places,
        })
    }

    /// The number of a text, or how many there are where it isn't among them.
    pub fn number(&self, text: &[u8]) -> u32
        ensures { result ≡ number_of_text text.now (texts_of self.now) }
    {
        match self.places.place(text) {
            Some(number) => number,
            None => self.count,
        }
    }
}

// Where each of them stands first.
fn first_places<'p>(alloc: Global, all: &'p [Text]) -> Result<Places<'p>, Memory>
    requires { length all.now < 4294967296 }
    ensures { IfOk result (λ p. AreNumbered all.now p) }
{
    let mut places = Places::new(alloc);
    for (at, text) in all.iter().enumerate() {
        places.add(text.as_slice(), at as u32)?;
    }
    Ok(places)
}
