//! Why nothing was read, and what a turn of a list finds.

ghost use Rattle.std.specs.Prelude.{◌≡◌};
ghost use Rattle.vale_reading.specs.declared.stop.Stop.TheVariants.{Memory};

use sqlite_items::{Boxed, Items};
use std::alloc::{AllocError, AllocFailed};
use vale_syntax::{Expr, Stmt, Token};

/// Why nothing was read. A fault has the tokens from it on.
#[derive(Drop)]
pub enum Stop<'t> {
    Memory,
    /// Nothing that was expected stands at the first of these tokens, or at the end.
    Unexpected(&'t [Token]),
    /// The first of these tokens opens a level too many.
    TooDeep(&'t [Token]),
}

/// What was read, and the tokens after it.
pub type Found<'t, X> = Result<(X, &'t [Token]), Stop<'t>>;

/// What was read; where reading stopped, the function that says this stops as well. It is `?` for a function that stops in
/// the same way: without the step from one kind of error to another, which is proved at each place.
#[macro_export]
macro_rules! read {
    ($found:expr) => {
        match $found {
            Ok(found) => found,
            Err(stop) => return Err(stop),
        }
    };
}

/// The statements of a block, and its last expression where there is one.
pub type Statements = (Items<Stmt>, Option<Boxed<Expr>>);

/// What a turn of a list finds: an item, or the list's end.
#[derive(Drop)]
pub enum Turn<X, E> {
    More(X),
    End(E),
}

impl From<vale_base::Memory> for Stop<'_> {
    ghost from_gives = { λ _ e. e ≡ Memory };

    fn from(_: vale_base::Memory) -> Self {
        Stop::Memory
    }
}

impl From<AllocError> for Stop<'_> {
    ghost from_gives = { λ _ e. e ≡ Memory };

    fn from(_: AllocError) -> Self {
        Stop::Memory
    }
}

impl<T: Drop> From<AllocFailed<T>> for Stop<'_> {
    ghost from_gives = { λ _ e. e ≡ Memory };

    fn from(_: AllocFailed<T>) -> Self {
        Stop::Memory
    }
}
