ghost use Rattle.std.specs.Prelude.{◌≡◌};

use std::marker::Model;

/// A value that contracts see as itself, and whose drop is one call.
///
/// A function has the drop of each value that is alive at each of its `?` written out in it, field by field and variant by
/// variant. For a node of a tree that is long, and so is the proof of it.
pub struct Held<T> {
    inner: T,
}

impl<T> Model for Held<T> {
    ghost Value = { T };

    ghost coded = { T.code };

    ghost view = { λ h. h.inner };
}

impl<T: Drop> Drop for Held<T> {
    fn drop(self) {
        let Held { inner: _ } = self;
    }
}

impl<T> Held<T> {
    pub fn get(&self) -> &T
        ensures { result.now ≡ self.now }
    {
        &self.inner
    }

    pub fn into_inner(self) -> T
        ensures { result ≡ self }
    {
        let Held { inner } = self;
        inner
    }
}

impl<T: Drop> Held<T> {
    pub fn new(inner: T) -> Self
        ensures { result ≡ inner }
    {
        Held { inner }
    }
}
