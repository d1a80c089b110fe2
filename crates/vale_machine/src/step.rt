// Stretches of steps, and the steps between them.
ghost use Rattle.std.specs.Prelude.{◌≡◌, ◌+◌, ◌<◌, ◌≤◌, ◌^◌, List, Some, false, length};
ghost use Rattle.vale_base.specs.declared.piece.Piece.{Piece};
ghost use Rattle.vale_code.specs.Instructions.{fetch};
ghost use Rattle.vale_code.specs.Run.{step};
ghost use Rattle.vale_turn.specs.Served.{may_want_at};
ghost use Rattle.vale_turn.specs.declared.stop.Stop.{Stop};
ghost use Rattle.vale_machine.specs.UnderWay.{Advanced, EndsSo, IsFetched, IsRunning};
ghost use Rattle.vale_machine.specs.View.{HasMemory, IfGoing, IsLaid, KeepsPieces, KeepsTicks, Stepped, config_of};

use crate::machine::{Machine, Step};
use vale_code::{Code, Instr};
use vale_turn::{Stop, function_of, instr_at};

// The instruction at a place of a function.
#[inline(always)]
fn fetched(code: &Code, function: u32, place: usize) -> &Instr
    requires { IsFetched code.now function place }
    ensures found { fetch code.now function place ≡ Some result.now }
    ensures place { place + 1 < 2 ^ 64 }
{
    let body = function_of(code, function).body.as_slice();
    instr_at(body, place)
}

impl Machine {
    // The call at the place of the innermost function.
    #[inline(always)]
    fn enter(&mut self, code: &Code) -> Step
        requires running { IsRunning code.now self.old }
        requires ends { EndsSo code.now Stop.Enters self.old }
        ensures step { (taken : List Piece) → Stepped code.now taken result (step code.now (config_of code.now taken self.old)) self.new }
        ensures memory { may_want_at (fetch code.now self.old.top.function self.old.top.place) ≡ false → HasMemory result }
        ensures laid { IfGoing result (IsLaid code.now self.new) }
        ensures ticks { KeepsTicks self.old self.new }
        ensures kept { KeepsPieces result self.old self.new }
    {
        match fetched(code, self.top.function, self.top.place) {
            Instr::Call { to, func, args, at } => {
                self.call(code, *to, *func, args.as_slice(), *at)
            }
            _ => unreachable!(),
        }
    }

    // The instruction at the place of the innermost function, which is done aside from its cells.
    #[inline(never)]
    fn turn_aside(&mut self, code: &Code) -> Step
        requires running { IsRunning code.now self.old }
        requires ends { EndsSo code.now Stop.Aside self.old }
        ensures step { (taken : List Piece) → Stepped code.now taken result (step code.now (config_of code.now taken self.old)) self.new }
        ensures memory { may_want_at (fetch code.now self.old.top.function self.old.top.place) ≡ false → HasMemory result }
        ensures laid { IfGoing result (IsLaid code.now self.new) }
        ensures ticks { KeepsTicks self.old self.new }
        ensures kept { KeepsPieces result self.old self.new }
    {
        let instr = fetched(code, self.top.function, self.top.place);
        self.aside(code, instr)
    }

    // The step at the end of a stretch.
    #[inline(always)]
    pub(crate) fn follow(&mut self, code: &Code, stop: Stop) -> Step
        requires running { IsRunning code.now self.old }
        requires ends { EndsSo code.now stop self.old }
        ensures step { (taken : List Piece) → Stepped code.now taken result (step code.now (config_of code.now taken self.old)) self.new }
        ensures memory { may_want_at (fetch code.now self.old.top.function self.old.top.place) ≡ false → HasMemory result }
        ensures laid { IfGoing result (IsLaid code.now self.new) }
        ensures ticks { KeepsTicks self.old self.new }
        ensures kept { KeepsPieces result self.old self.new }
    {
        match stop {
            Stop::Enters => self.enter(code),
            Stop::Leaves(from) => match from {
                Some(register) => self.ret(register),
                None => self.ret_void(),
            },
            Stop::Aside => self.turn_aside(code),
            Stop::Trap(kind, at) => Step::Trap(kind, at),
            Stop::Cut => Step::Cut,
            Stop::Going => unreachable!(),
        }
    }

    // Steps within the innermost function, and the one that does more or ends the run.
    #[inline(always)]
    pub(crate) fn advance(&mut self, code: &Code) -> Step
        requires { IsRunning code.now self.old }
        ensures step { (taken : List Piece) → Advanced code.now taken result (config_of code.now taken self.old) self.new }
        ensures laid { IfGoing result (IsLaid code.now self.new) }
        ensures ticks { KeepsTicks self.old self.new }
    {
        let stop = self.run_on(code);
        self.follow(code, stop)
    }
}
