use vale_base::{Kind, Spot};
use vale_heap::Cell;

/// A function under way: the spot of its call, the register of the frame below for its value, the place of its next
/// instruction, and where its registers begin.
#[derive(Clone, Copy)]
pub struct Active {
    pub function: u32,
    pub at: Spot,
    pub dest: Option<u32>,
    pub place: usize,
    pub base: usize,
}

/// A destruction under way: the kind of the dead object, the spot at which its destruction began, and the cells that it held
/// and that are still to be dropped, the next one last.
#[derive(Drop)]
pub struct Leftover {
    pub kind: Kind,
    pub at: Spot,
    pub rest: Vec<Cell>,
}

/// What is under way.
#[derive(Drop)]
pub enum Frame {
    Running(Active),
    Dropping(Leftover),
}
