// The machine's parts.
ghost use Rattle.std.specs.Prelude.{◌≡◌};
ghost use Rattle.vale_machine.specs.View.{is_going};

use std::alloc::Global;
use vale_base::{Piece, Spot, TrapKind};
use vale_registers::{Cell, Row};

// A function under way: the spot of its call, the register of the frame below for its value, the place of its next
// instruction, and where its registers begin.
#[derive(Clone, Copy)]
pub struct Frame {
    pub function: u32,
    pub at: Spot,
    pub dest: Option<u32>,
    pub place: usize,
    pub base: usize,
}

/// A machine. The registers of all frames lie in one row, those of the innermost last, and so do their texts. The cells from
/// the end on are no frame's; they are kept for later calls.
#[derive(Drop)]
pub struct Machine {
    pub(crate) alloc: Global,
    pub(crate) cells: Vec<Cell>,
    pub(crate) end: usize,
    pub(crate) texts: Row,
    pub(crate) top: Frame,
    pub(crate) below: Vec<Frame>,
    pub(crate) left: u64,
    pub(crate) given: u64,
    pub(crate) pieces: Vec<Piece>,
}

// What one step comes to.
#[derive(Clone, Copy)]
pub enum Step {
    Going,
    Trap(TrapKind, Spot),
    Done,
    Cut,
    Memory,
}

impl Step {
    // Whether the run goes on.
    #[inline(always)]
    pub(crate) fn is_going(&self) -> bool
        ensures { result ≡ is_going self.now }
    {
        match self {
            Step::Going => true,
            _ => false,
        }
    }
}
