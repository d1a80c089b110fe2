// Functions that are left.
ghost use Rattle.std.specs.Prelude.{◌≤◌, None, Some, length};
ghost use Rattle.vale_code.specs.Parts.{Parts};
ghost use Rattle.vale_object_cells.specs.Cells.{HoldsCell};
ghost use Rattle.vale_object_frames.specs.Frames.{HasRoom};
ghost use Rattle.vale_object_flow.specs.Flow.{Leaves, Rejoins, own_registers};

use crate::control::{Came, Control};
use vale_object_frames::{Active, Frame, Stack};
use vale_object_passing::hand;

/// The frames go on, where a frame above them was left: the innermost function comes off them, or a destruction is the innermost,
/// or there is none.
#[inline(always)]
pub fn rejoin(below: &mut Stack, top: &mut Active) -> Came
    ensures { Rejoins below.old result below.new top.new }
{
    if below.is_dropping() {
        return Came::Dropping;
    }
    match below.uncover() {
        Some(Frame::Running(caller)) => {
            *top = caller;
            Came::Running
        }
        Some(Frame::Dropping(_)) => unreachable!(),
        None => Came::Done,
    }
}

impl Control {
    /// The innermost function is left with what a register of it holds.
    pub fn leave(&mut self, from: u32) -> Came
        requires base { self.old.top.base ≤ self.old.end }
        requires end { self.old.end ≤ length self.old.registers.items }
        requires value { HoldsCell (own_registers self.old) from }
        requires room { HasRoom self.old.top.dest self.old.top.base self.old.below }
        ensures step { (code : Parts) → Leaves code self.old (Some from) result self.new }
        ensures end { self.new.end ≤ length self.new.registers.items }
    {
        let frame = self.top;
        match rejoin(&mut self.below, &mut self.top) {
            Came::Running => {
                hand(
                    &mut self.registers,
                    &mut self.texts,
                    self.top.base,
                    frame.base,
                    frame.dest,
                    frame.base + from as usize,
                );
                self.end = frame.base;
                self.texts.cut(frame.base);
                Came::Running
            }
            Came::Dropping => {
                self.end = frame.base;
                self.texts.cut(frame.base);
                Came::Dropping
            }
            Came::Done => Came::Done,
            _ => unreachable!(),
        }
    }

    /// The innermost function is left with no value.
    pub fn leave_void(&mut self) -> Came
        requires base { self.old.top.base ≤ self.old.end }
        requires end { self.old.end ≤ length self.old.registers.items }
        ensures step { (code : Parts) → Leaves code self.old None result self.new }
        ensures end { self.new.end ≤ length self.new.registers.items }
    {
        let base = self.top.base;
        let came = rejoin(&mut self.below, &mut self.top);
        self.end = base;
        self.texts.cut(base);
        came
    }
}
