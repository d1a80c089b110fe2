ghost use Rattle.std.specs.Prelude.{◌≡◌, IfOk, OnErr};
ghost use Rattle.vale_code.specs.Sizes.{IsSmall};

use crate::sizes::is_small;
use crate::{Func, Impl, KindInfo, Sequence};
use std::marker::Model;
use vale_base::{Memory, Text};

/// A whole code. Each of its lists has fewer than 2^32 parts, and so have all instructions together, and all kinds,
/// implementations and functions together.
#[derive(Drop)]
pub struct Code {
    pub texts: Sequence<Text>,
    pub kinds: Sequence<KindInfo>,
    pub impls: Sequence<Impl>,
    pub funcs: Sequence<Func>,
    /// The number of the function that a run begins with.
    pub main: u32,
}

impl Model for Code {
    ghost use Rattle.vale_code.specs.Parts.{Parts};
    ghost use Rattle.vale_code.specs.Sizes.{IsSmall};

    ghost Value = { Parts };

    ghost view = { λ c. record { texts = c.texts; kinds = c.kinds; impls = c.impls; funcs = c.funcs; main = c.main } };

    ghost invariant = { λ c. IsSmall c.texts c.kinds c.impls c.funcs };
}

impl Code {
    /// The code of these parts, or `Memory` where a list, all instructions or all kinds, implementations and functions
    /// are 2^32 or more. It takes no memory.
    pub fn new(
        texts: Sequence<Text>,
        kinds: Sequence<KindInfo>,
        impls: Sequence<Impl>,
        funcs: Sequence<Func>,
        main: u32,
    ) -> Result<Self, Memory>
        ensures made { IfOk result (λ c. c ≡ record { texts = texts; kinds = kinds; impls = impls; funcs = funcs; main = main }) }
        ensures too_long { OnErr result (IsSmall texts kinds impls funcs → ⊥) }
    {
        if !is_small(
            texts.as_slice(),
            kinds.as_slice(),
            impls.as_slice(),
            funcs.as_slice(),
        ) {
            return Err(Memory);
        }
        Ok(Code {
            texts,
            kinds,
            impls,
            funcs,
            main,
        })
    }
}

fn is_send<T: Send>() {}

fn is_sync<T: Sync>() {}

// A code may move to another thread and be read from several.
fn crosses_threads() {
    is_send::<Code>();
    is_sync::<Code>();
}
