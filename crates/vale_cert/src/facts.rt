ghost use Rattle.std.specs.Prelude.{◌≡◌, ◌&&◌, false, length, IfOk, OnErr};
ghost use Rattle.std.specs.List.{list_all};
ghost use Rattle.vale_code.specs.Sizes.{is_few};
ghost use Rattle.vale_cert.specs.Small.{label_is_small, facts_are_small, is_small};

use std::marker::Model;
use vale_base::Memory;
use vale_code::{Sequence, Ty};

/// What is known of a register: it is empty, or it holds a value of a type, written at a depth; `live` says that what it
/// leads to is known to be alive.
#[derive(Clone, Copy, Debug, PartialEq, Eq)]
pub enum RegFact {
    Empty,
    Held { ty: Ty, depth: u32, live: bool },
}

/// What is known at a place of a function: the depth, and each of its registers.
#[derive(Drop)]
pub struct Label {
    pub at: u32,
    pub depth: u32,
    pub regs: Sequence<RegFact>,
}

/// The facts of a function: the numbers of those parameters of an iteration function that are known to be alive, and its
/// labels.
#[derive(Drop)]
pub struct FuncFacts {
    pub live: Sequence<u32>,
    pub labels: Sequence<Label>,
}

/// The facts of a code: those of each of its functions. Each list has fewer than 2^32 parts.
#[derive(Drop)]
pub struct Facts {
    pub funcs: Sequence<FuncFacts>,
}

impl Model for Facts {
    ghost use Rattle.std.specs.Prelude.{◌≡◌, List, true};
    ghost use Rattle.vale_cert.specs.Small.{is_small};
    ghost use Rattle.vale_cert.specs.declared.facts.FuncFacts.{FuncFacts};

    ghost Value = { List FuncFacts };

    ghost view = { λ f. f.funcs };

    ghost invariant = { λ f. is_small f.funcs ≡ true };
}

// The number of parts that no list has.
const PARTS_LIMIT: usize = 4_294_967_296;

fn is_few(count: usize) -> bool
    ensures { result ≡ is_few count }
{
    count < PARTS_LIMIT
}

fn labels_are_small(labels: &[Label]) -> bool
    ensures { result ≡ list_all label_is_small labels.now }
{
    for label in labels {
        if !is_few(label.regs.len()) {
            return false;
        }
    }
    true
}

fn facts_are_small(facts: &FuncFacts) -> bool
    ensures { result ≡ facts_are_small facts.now }
{
    is_few(facts.live.len())
        && is_few(facts.labels.len())
        && labels_are_small(facts.labels.as_slice())
}

fn is_small(funcs: &[FuncFacts]) -> bool
    ensures { result ≡ is_small funcs.now }
{
    if !is_few(funcs.len()) {
        return false;
    }
    for facts in funcs {
        if !facts_are_small(facts) {
            return false;
        }
    }
    true
}

impl Facts {
    /// The facts of these functions, or `Memory` where a list is of 2^32 parts or more. It takes no memory.
    pub fn new(funcs: Sequence<FuncFacts>) -> Result<Self, Memory>
        ensures made { IfOk result (λ f. f ≡ funcs) }
        ensures too_long { OnErr result (is_small funcs ≡ false) }
    {
        if !is_small(funcs.as_slice()) {
            return Err(Memory);
        }
        Ok(Facts { funcs })
    }
}
