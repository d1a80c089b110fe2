use crate::{Instr, Sequence, Ty};
use vale_base::Kind;

/// An implementation: for each method of the interface, in order, the number of the function that it is for the struct.
#[derive(Drop)]
pub struct Impl {
    pub interface: Kind,
    pub of: Kind,
    pub funcs: Sequence<u32>,
}

/// A function. Its first registers hold its parameters when it is entered.
#[derive(Drop)]
pub struct Func {
    /// The number of its name among the texts.
    pub name: u32,
    /// 0 plain, 1 pure, 2 the iterations of a parallel loop, 3 the destructor of a struct.
    pub form: u8,
    pub params: Sequence<Ty>,
    pub result: Ty,
    /// How many registers it has.
    pub registers: u32,
    pub body: Sequence<Instr>,
}
