use crate::{Spot, Text};
use std::marker::Model;

/// Why a program stops by itself (docs/LANGUAGE.md, "Traps").
#[derive(Clone, Copy, Debug, PartialEq, Eq)]
pub enum TrapKind {
    Overflow,
    DivisionByZero,
    DeadReference,
    IndexOutOfRange,
    ArrayTooLong,
    TextTooLong,
    EmptyPop,
    NotANumber,
    CallDepth,
    LoopTooWide,
}

/// A call, a destruction or an iteration that was under way: what it was, and the spot of what began it, which is 1:1
/// for `main`.
#[derive(Drop)]
pub struct FrameAt {
    pub what: Text,
    pub at: Spot,
}

/// Frames, which contracts see as their list.
#[derive(Drop)]
pub struct Frames {
    frames: Vec<FrameAt>,
}

impl Model for Frames {
    ghost use Rattle.std.specs.Prelude.{List};
    ghost use Rattle.vale_base.specs.declared.trap.FrameAt.{FrameAt};

    ghost Value = { List FrameAt };

    ghost view = { λ f. f.frames.items };
}

impl Frames {
    ghost use Rattle.std.specs.Prelude.{◌≡◌};

    /// These frames. It takes no memory.
    pub fn from_vec(frames: Vec<FrameAt>) -> Self
        ensures { result ≡ frames.items }
    {
        Frames { frames }
    }

    /// The frames.
    pub fn as_slice(&self) -> &[FrameAt]
        ensures { result.now ≡ self.now }
    {
        &self.frames
    }
}

/// A trap: why and where the program stopped, the innermost frames, innermost first and at most 64, and how many more
/// there are.
#[derive(Drop)]
pub struct TrapInfo {
    pub kind: TrapKind,
    pub at: Spot,
    pub frames: Frames,
    pub more: u64,
}
