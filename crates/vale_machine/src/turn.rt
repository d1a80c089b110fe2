// One turn of the machine.
ghost use Rattle.std.specs.Prelude.{◌≡◌, ◌≤◌, List, false};
ghost use Rattle.vale_base.specs.declared.piece.Piece.{Piece};
ghost use Rattle.vale_code.specs.Frames.{Next};
ghost use Rattle.vale_code.specs.Instructions.{fetch};
ghost use Rattle.vale_code.specs.Run.{step};
ghost use Rattle.vale_text.specs.Progress.{Begins};
ghost use Rattle.vale_turn.specs.Served.{may_want_at};
ghost use Rattle.vale_machine.specs.UnderWay.{Ends, HasFirst, IsRunning, IsStillUnderWay, IsUnderWay, Turned, WantsForTrap};
ghost use Rattle.vale_machine.specs.View.{HasMemory, IsOver, KeepsTicks, Stepped, config_of, state_of};

use crate::machine::{Machine, Step};
use crate::trap::trap_at;
use vale_base::TrapInfo;
use vale_code::Code;
use vale_verifier::Verified;

/// How a run ends, with the ticks that it spent: it is done, or stopped by a trap. A run that is cut spent all its ticks,
/// and one that wants memory says nothing of them.
#[derive(Drop)]
pub enum End {
    Done { ticks: u64 },
    Trap { ticks: u64, info: TrapInfo },
    Cut,
    Memory,
}

/// What a turn comes to.
#[derive(Drop)]
pub enum Turn {
    Going,
    Ended(End),
}

impl Machine {
    // One step of the code's meaning, where the machine hasn't ended.
    pub(crate) fn turn_code(&mut self, code: &Code) -> Turn
        requires { IsRunning code.now self.old }
        ensures step { (taken : List Piece) → Turned code.now taken result (step code.now (config_of code.now taken self.old)) self.new }
        // It wants memory only to make or copy a text, to print, to enter a function, and to tell a trap.
        ensures memory { (taken : List Piece) → may_want_at (fetch code.now self.old.top.function self.old.top.place) ≡ false → WantsForTrap result (step code.now (config_of code.now taken self.old)) }
        ensures under_way { (taken : List Piece) → IsUnderWay code.now taken self.old → IsStillUnderWay code.now taken result self.new }
        ensures ticks { KeepsTicks self.old self.new }
        // No piece is lost.
        ensures pieces { Begins self.old.pieces.items self.new.pieces.items }
    {
        let stop = self.once(code);
        if stop.is_going() {
            return Turn::Going;
        }
        let step = self.follow(code, stop);
        if step.is_going() {
            return Turn::Going;
        }
        Turn::Ended(self.end_of(code, step))
    }

    // How the run ends by a step that doesn't go on.
    #[inline(never)]
    pub(crate) fn end_of(&self, code: &Code, step: Step) -> End
        requires over { IsOver step }
        requires ticks { self.now.left ≤ self.now.given }
        ensures step { (taken : List Piece) (next : Next) → Stepped code.now taken step next self.now → HasFirst step next (state_of taken self.now) → Ends result next (state_of taken self.now) }
        // It wants memory of its own only to tell a trap.
        ensures memory { (taken : List Piece) (next : Next) → HasMemory step → Stepped code.now taken step next self.now → WantsForTrap (Turn.Ended result) next }
    {
        match step {
            Step::Done => End::Done {
                ticks: self.given - self.left,
            },
            Step::Trap(kind, at) => match trap_at(self.alloc, code, self, kind, at) {
                Ok(info) => End::Trap {
                    ticks: self.given - self.left,
                    info,
                },
                Err(_) => End::Memory,
            },
            Step::Cut => End::Cut,
            Step::Memory => End::Memory,
            Step::Going => unreachable!(),
        }
    }

    /// One step of the code's meaning: an instruction, with the entry or the leaving that it leads to. The code is the one
    /// that the machine was started with, and the machine hasn't ended.
    pub fn turn(&mut self, code: &Verified) -> Turn
        requires { IsRunning code.now.code self.old }
        ensures step { (taken : List Piece) → Turned code.now.code taken result (step code.now.code (config_of code.now.code taken self.old)) self.new }
        // It wants memory only to make or copy a text, to print, to enter a function, and to tell a trap.
        ensures memory { (taken : List Piece) → may_want_at (fetch code.now.code self.old.top.function self.old.top.place) ≡ false → WantsForTrap result (step code.now.code (config_of code.now.code taken self.old)) }
        ensures under_way { (taken : List Piece) → IsUnderWay code.now.code taken self.old → IsStillUnderWay code.now.code taken result self.new }
        ensures ticks { KeepsTicks self.old self.new }
        // No piece is lost.
        ensures pieces { Begins self.old.pieces.items self.new.pieces.items }
    {
        self.turn_code(&code.code)
    }
}
