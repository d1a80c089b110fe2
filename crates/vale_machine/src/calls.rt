// How functions are entered and left.
ghost use Rattle.std.specs.Prelude.{◌≡◌, ◌+◌, ◌-◌, ◌<◌, ◌≤◌, ◌^◌, List, None, drop, length, reverse};
ghost use Rattle.vale_base.specs.declared.piece.Piece.{Piece};
ghost use Rattle.vale_code.specs.Kinds.{result_to};
ghost use Rattle.vale_code.specs.Parts.{Parts};
ghost use Rattle.vale_code.specs.Registers.{read};
ghost use Rattle.vale_registers.specs.Cells.{HoldsValue};
ghost use Rattle.vale_machine.specs.Calls.{HasGiven, IsCallable, IsUncovered, call_next, leave_next};
ghost use Rattle.vale_machine.specs.View.{HasMemory, HasRoom, IfGoing, IsLaid, KeepsPieces, KeepsTicks, Stepped, own_cells, registers_of};

use crate::machine::{Frame, Machine, Step};
use vale_base::{DEPTH_LIMIT, Spot, TrapKind};
use vale_code::{Code, Ty};
use vale_registers::{hand, pass, reserve};
use vale_turn::function_of;

// A result that isn't void goes to a register.
#[inline(always)]
fn dest_of(result_type: &Ty, to: u32) -> Option<u32>
    ensures { result ≡ result_to result_type.now to }
{
    match result_type {
        Ty::Void => None,
        _ => Some(to),
    }
}

impl Machine {
    // A function is called with the values of these registers.
    #[inline(always)]
    pub(crate) fn call(
        &mut self,
        code: &Code,
        to: u32,
        function: u32,
        args: &[u32],
        at: Spot,
    ) -> Step
        requires laid { IsLaid code.now self.old }
        requires callable { IsCallable code.now function to (self.old.end - self.old.top.base) }
        requires place { self.old.top.place + 1 < 2 ^ 64 }
        requires ticks { self.old.left ≤ self.old.given }
        requires given { HasGiven code.now function args.now (registers_of self.old) }
        ensures step { (taken : List Piece) → Stepped code.now taken result (call_next code.now taken self.old to function args.now at) self.new }
        ensures laid { IfGoing result (IsLaid code.now self.new) }
        ensures ticks { KeepsTicks self.old self.new }
        ensures kept { KeepsPieces result self.old self.new }
    {
        let callee = function_of(code, function);
        if self.below.len() as u64 + 2 > DEPTH_LIMIT {
            return Step::Trap(TrapKind::CallDepth, at);
        }
        if self.left == 0 {
            return Step::Cut;
        }
        let base = self.end;
        let end = base + callee.registers as usize;
        match reserve(&mut self.cells, end) {
            Ok(()) => {}
            Err(_) => return Step::Memory,
        }
        match pass(
            &mut self.cells,
            &mut self.texts,
            self.top.base,
            base,
            end,
            args,
        ) {
            Ok(()) => {}
            Err(_) => return Step::Memory,
        }
        let caller = Frame {
            function: self.top.function,
            at: self.top.at,
            dest: self.top.dest,
            place: self.top.place + 1,
            base: self.top.base,
        };
        match self.below.push(caller) {
            Ok(()) => {}
            Err(_) => return Step::Memory,
        }
        let dest = dest_of(&callee.result, to);
        self.top = Frame {
            function,
            at,
            dest,
            place: 0,
            base,
        };
        self.end = end;
        self.left -= 1;
        Step::Going
    }

    // The innermost function is left with the value of a register.
    #[inline(always)]
    pub(crate) fn ret(&mut self, from: u32) -> Step
        requires base { self.old.top.base ≤ self.old.end }
        requires end { self.old.end ≤ length self.old.cells.items }
        requires value { HoldsValue (own_cells self.old) from }
        requires room { HasRoom self.old.top.dest self.old.top.base (reverse self.old.below.items) }
        ensures step { (code : Parts) (taken : List Piece) → IsLaid code self.old
            → Stepped code taken result (leave_next code taken self.old (read (registers_of self.old) from)) self.new }
        ensures memory { HasMemory result }
        ensures laid { (code : Parts) → IsLaid code self.old → IfGoing result (IsLaid code self.new) }
        ensures ticks { KeepsTicks self.old self.new }
    {
        match self.below.pop() {
            None => Step::Done,
            Some(frame) => {
                let from = self.top.base + from as usize;
                hand(
                    &mut self.cells,
                    &mut self.texts,
                    frame.base,
                    self.top.base,
                    self.top.dest,
                    from,
                );
                self.uncover(frame);
                Step::Going
            }
        }
    }

    // The innermost function is left with no value.
    #[inline(always)]
    pub(crate) fn ret_void(&mut self) -> Step
        requires base { self.old.top.base ≤ self.old.end }
        requires end { self.old.end ≤ length self.old.cells.items }
        ensures step { (code : Parts) (taken : List Piece) → IsLaid code self.old → Stepped code taken result (leave_next code taken self.old None) self.new }
        ensures memory { HasMemory result }
        ensures laid { (code : Parts) → IsLaid code self.old → IfGoing result (IsLaid code self.new) }
        ensures ticks { KeepsTicks self.old self.new }
    {
        match self.below.pop() {
            None => Step::Done,
            Some(frame) => {
                self.uncover(frame);
                Step::Going
            }
        }
    }

    // The registers of the innermost function are no frame's, and another frame is the innermost.
    #[inline(always)]
    fn uncover(&mut self, frame: Frame)
        ensures { IsUncovered frame self.old self.new }
    {
        self.end = self.top.base;
        self.texts.cut(self.top.base);
        self.top = frame;
    }
}
