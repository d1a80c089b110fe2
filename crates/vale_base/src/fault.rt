// Want of memory, beside the faults that a call has of its own.
ghost use Rattle.std.specs.Prelude.{◌≡◌};
ghost use Rattle.vale_base.specs.declared.fault.Fail.TheVariants.{Memory};

use std::alloc::{AllocError, AllocFailed};

/// A call wanted memory and got none. No contract says when: it is the one answer that may always come.
#[derive(Clone, Copy, Debug, PartialEq, Eq)]
pub struct Memory;

impl From<AllocError> for Memory {
    fn from(_: AllocError) -> Self {
        Memory
    }
}

impl<T: Drop> From<AllocFailed<T>> for Memory {
    fn from(_: AllocFailed<T>) -> Self {
        Memory
    }
}

/// What a call answers in place of its value: want of memory, or its own fault.
#[derive(Debug, Drop)]
pub enum Fail<F> {
    Memory,
    Is(F),
}

impl<F> From<Memory> for Fail<F> {
    ghost from_gives = { λ _ e. e ≡ Memory };

    fn from(_: Memory) -> Self {
        Fail::Memory
    }
}

impl<F> From<AllocError> for Fail<F> {
    ghost from_gives = { λ _ e. e ≡ Memory };

    fn from(_: AllocError) -> Self {
        Fail::Memory
    }
}

impl<F, T: Drop> From<AllocFailed<T>> for Fail<F> {
    ghost from_gives = { λ _ e. e ≡ Memory };

    fn from(_: AllocFailed<T>) -> Self {
        Fail::Memory
    }
}
