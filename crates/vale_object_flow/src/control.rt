// Functions that are entered.
ghost use Rattle.std.specs.Prelude.{◌≡◌, ◌+◌, ◌-◌, ◌<◌, ◌≤◌, ◌^◌, [], IfOk, IsSome, None, OnOk, length};
ghost use Rattle.vale_code.specs.Kinds.{result_to};
ghost use Rattle.vale_object_passing.specs.Giving.{give_from};
ghost use Rattle.vale_object_passing.specs.Passing.{IsPassed, cells_of};
ghost use Rattle.vale_object_flow.specs.Flow.{Calls, CanCall, IsCallable};

use vale_base::{DEPTH_LIMIT, Memory, Spot, TrapKind};
use vale_code::{Code, Func, Ty};
use vale_object_cells::Register;
use vale_object_frames::{Active, Stack};
use vale_object_passing::{pass, reserve};
use vale_registers::Row;
use vale_turn::function_of;

/// The registers, texts and frames of a run. The registers from the end on are no frame's; they are kept for later calls. While a
/// function runs, it is the innermost frame, above those of the stack; while an object is destroyed, the stack has all frames.
#[derive(Drop)]
pub struct Control {
    pub registers: Vec<Register>,
    pub texts: Row,
    pub end: usize,
    pub top: Active,
    pub below: Stack,
}

/// What a step across frames comes to: a function runs; an object is destroyed, or what it held; a trap; the run is over; or no
/// tick is left.
#[derive(Clone, Copy)]
pub enum Came {
    Running,
    Dropping,
    Trap(TrapKind, Spot),
    Done,
    Cut,
}

// A result that isn't void goes to a register.
#[inline(always)]
fn dest_of(result_type: &Ty, to: u32) -> Option<u32>
    ensures { result ≡ result_to result_type.now to }
{
    match result_type {
        Ty::Void => None,
        _ => Some(to),
    }
}

impl Control {
    // The registers of a function that is called, with what these registers of the innermost function hold.
    #[inline(always)]
    fn arrange(&mut self, callee: &Func, args: &[u32]) -> Result<(), Memory>
        requires base { self.old.top.base ≤ self.old.end }
        requires end { self.old.end ≤ length self.old.registers.items }
        requires few { length args.now ≤ callee.now.registers }
        requires given { IsSome (give_from [] callee.now.params args.now (cells_of self.old.top.base self.old.end self.old.texts self.old.registers.items)) }
        ensures passed { OnOk result (IsPassed self.old.top.base self.old.end (self.old.end + callee.now.registers) None callee.now.params args.now self.old.registers.items self.old.texts self.new.registers.items self.new.texts) }
        ensures size { OnOk result (self.old.end + callee.now.registers ≤ length self.new.registers.items) }
        ensures same { OnOk result ((self.new.end ≡ self.old.end) × (self.new.top ≡ self.old.top) × (self.new.below ≡ self.old.below)) }
    {
        let end = self.end + callee.registers as usize;
        match reserve(&mut self.registers, end) {
            Ok(()) => {}
            Err(fault) => return Err(fault),
        }
        pass(
            &mut self.registers,
            &mut self.texts,
            self.top.base,
            self.end,
            end,
            None,
            callee.params.as_slice(),
            args,
        )
    }

    /// A plain function is called with what these registers hold, where so many functions, destructions and freezes are under
    /// way.
    pub fn call(
        &mut self,
        code: &Code,
        left: &mut u64,
        depth: usize,
        to: u32,
        function: u32,
        args: &[u32],
        at: Spot,
    ) -> Result<Came, Memory>
        requires base { self.old.top.base ≤ self.old.end }
        requires end { self.old.end ≤ length self.old.registers.items }
        requires callable { IsCallable code.now function args.now to self.old }
        requires place { self.old.top.place + 1 < 2 ^ 64 }
        requires few { depth + 1 < 2 ^ 64 }
        requires right { CanCall code.now self.old to function args.now at }
        ensures step { IfOk result (λ told. Calls code.now depth self.old left.old to function args.now at told self.new left.new) }
        ensures end { OnOk result (self.new.end ≤ length self.new.registers.items) }
        ensures ticks { left.new ≤ left.old }
    {
        if depth as u64 + 1 > DEPTH_LIMIT {
            return Ok(Came::Trap(TrapKind::CallDepth, at));
        }
        if *left == 0 {
            return Ok(Came::Cut);
        }
        let callee = function_of(code, function);
        match self.arrange(callee, args) {
            Ok(()) => {}
            Err(fault) => return Err(fault),
        }
        let caller = Active {
            function: self.top.function,
            at: self.top.at,
            dest: self.top.dest,
            place: self.top.place + 1,
            base: self.top.base,
        };
        match self.below.cover(caller) {
            Ok(()) => {}
            Err(fault) => return Err(fault),
        }
        let dest = dest_of(&callee.result, to);
        let base = self.end;
        self.top = Active {
            function,
            at,
            dest,
            place: 0,
            base,
        };
        self.end = base + callee.registers as usize;
        *left -= 1;
        Ok(Came::Running)
    }
}
