// The frames of a run.
ghost use Rattle.std.specs.Prelude.{◌≡◌, [], ◌∷◌, IfNone, IfSome, OnOk, length};
ghost use Rattle.vale_object_frames.specs.Stacks.{DropsNext, DropsOne, HasDropped, HasNone, IsDropping, IsLeft, is_dropping};
ghost use Rattle.vale_object_frames.specs.declared.frame.Frame.{Frame as AFrame};

use crate::frame::{Active, Frame, Leftover};
use std::alloc::Global;
use std::marker::Model;
use vale_base::{Kind, Memory, Spot};
use vale_heap::{Cell, Cells};
use vale_object_steps::next_owned;

// The next owner or isolate of what a destruction has left, with its spot. What stood before it is left out.
fn next_in(frame: &mut Frame) -> Option<(Cell, Spot)>
    requires { IsDropping (frame.old ∷ []) }
    ensures some { IfSome result (λ next. DropsOne next.0 next.1 frame.old frame.new) }
    ensures none { IfNone result (HasNone frame.old) }
{
    match frame {
        Frame::Dropping(leftover) => match next_owned(&mut leftover.rest) {
            Some(cell) => Some((cell, leftover.at)),
            None => None,
        },
        Frame::Running(_) => unreachable!(),
    }
}

/// The frames of a run; contracts see them from the innermost on.
#[derive(Drop)]
pub struct Stack {
    frames: Vec<Frame>,
}

impl Model for Stack {
    ghost use Rattle.std.specs.Prelude.{List, reverse};
    ghost use Rattle.vale_object_frames.specs.declared.frame.Frame.{Frame};

    ghost Value = { List Frame };

    ghost view = { λ s. reverse s.frames.items };
}

impl Stack {
    /// No frames. It takes no memory.
    pub fn new(alloc: Global) -> Self
        ensures { result ≡ [] }
    {
        Stack {
            frames: Vec::new(alloc),
        }
    }

    /// How many frames there are.
    pub fn len(&self) -> usize
        ensures { result ≡ length self.now }
    {
        self.frames.len()
    }

    // A frame is the innermost.
    #[inline(always)]
    fn lay(&mut self, frame: Frame) -> Result<(), Memory>
        ensures { OnOk result (self.new ≡ frame ∷ self.old) }
    {
        self.frames.push(frame)?;
        Ok(())
    }

    /// A function is the innermost.
    #[inline(always)]
    pub fn cover(&mut self, active: Active) -> Result<(), Memory>
        ensures { OnOk result (self.new ≡ AFrame.Running active ∷ self.old) }
    {
        self.lay(Frame::Running(active))
    }

    /// The destruction of an object that has died is the innermost, with the cells that it held. They are turned round in place.
    pub fn leave_over(&mut self, kind: Kind, at: Spot, cells: Cells) -> Result<(), Memory>
        ensures { OnOk result (IsLeft kind at cells self.old self.new) }
    {
        let mut rest = cells.into_vec();
        rest.reverse();
        self.lay(Frame::Dropping(Leftover { kind, at, rest }))
    }

    /// The innermost frame is taken off, if there is one.
    pub fn uncover(&mut self) -> Option<Frame>
        ensures some { IfSome result (λ frame. self.old ≡ frame ∷ self.new) }
        ensures none { IfNone result ((self.old ≡ []) × (self.new ≡ [])) }
    {
        self.frames.pop()
    }

    /// Whether a destruction is the innermost.
    pub fn is_dropping(&self) -> bool
        ensures { result ≡ is_dropping self.now }
    {
        let count = self.frames.len();
        if count == 0 {
            return false;
        }
        match &self.frames[count - 1] {
            Frame::Dropping(_) => true,
            Frame::Running(_) => false,
        }
    }

    /// The next owner or isolate of the dead object whose destruction is the innermost, with the spot of the destruction. Where
    /// there is none, the destruction is over and the frames under it are left.
    pub fn next_owned(&mut self) -> Option<(Cell, Spot)>
        requires { IsDropping self.old }
        ensures some { IfSome result (λ next. DropsNext next.0 next.1 self.old self.new) }
        ensures none { IfNone result (HasDropped self.old self.new) }
    {
        let last = self.frames.len() - 1;
        match next_in(&mut self.frames[last]) {
            Some(next) => Some(next),
            None => {
                self.frames.truncate(last);
                None
            }
        }
    }
}
