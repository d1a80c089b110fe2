//! What holds of every run of every code: laws of the definitions, each the contract of a function that does nothing.

ghost use Rattle.std.specs.Prelude.{◌≡◌, ◌≢◌, ◌≤◌, ℕ, List, None, slice_get};
ghost use Rattle.vale_state_spec.specs.Outcome.{Cut, Wrong};
ghost use Rattle.vale_state_spec.specs.State.{State, Given};
ghost use Rattle.vale_state_spec.specs.World.{Own, IsDead};
ghost use Rattle.vale_base.specs.declared.spot.Spot.{Spot};
ghost use Rattle.vale_text.specs.Progress.{Begins, StampsRise, NameProgresses};
ghost use Rattle.vale_code.specs.Destroy.{destroy};
ghost use Rattle.vale_code.specs.Frames.{Config, Frame, Over};
ghost use Rattle.vale_code.specs.Parts.{Parts};
ghost use Rattle.vale_code.specs.Run.{Ending, EndsIn, ending_of, run_code, steps, state_in};
ghost use Rattle.vale_code.specs.Sizes.{IsSmall};

use crate::Code;

/// The parts of a code are as few as `Code::new` asks.
pub fn code_is_small(code: &Code)
    ensures { IsSmall code.now.texts code.now.kinds code.now.impls code.now.funcs }
{
    let _main = &code.main;
}

/// Every run of every code ends after some number of steps, and in one way.
pub fn run_ends()
    ensures ends { (code : Parts) (input : Given) (ticks : ℕ) → EndsIn code input ticks (ending_of code input ticks) }
    ensures once { (code : Parts) (input : Given) (ticks : ℕ) (e : Ending)
        → EndsIn code input ticks e → ending_of code input ticks ≡ e }
{}

/// A run spends no more ticks than it may.
pub fn ticks_stay_within()
    ensures { (code : Parts) (input : Given) (ticks : ℕ) → (run_code code input ticks).ticks ≤ ticks }
{}

/// A run that is cut has spent all its ticks.
pub fn cut_where_no_tick_is_left()
    ensures { (code : Parts) (input : Given) (ticks : ℕ)
        → (run_code code input ticks).end ≡ Cut → (run_code code input ticks).ticks ≡ ticks }
{}

/// No piece is stamped earlier than the one before it, and none later than the end.
pub fn stamps_rise()
    ensures { (code : Parts) (input : Given) (ticks : ℕ)
        → StampsRise 0 (run_code code input ticks).pieces (run_code code input ticks).ticks }
{}

/// Whatever steps a code makes: a name whose object died never has one again, and a name that was given is never given
/// to an object of another kind.
pub fn names_never_return()
    ensures { (code : Parts) (n : ℕ) (c : Config) (name : ℕ)
        → NameProgresses (slice_get c.state.world name) (slice_get (state_in (steps code n c)).world name) }
{}

/// An object is dropped at most once: where it has died no rule drops it, and it stays dead.
pub fn the_dead_are_not_dropped()
    ensures { (code : Parts) (name : ℕ) (at : Spot) (frames : List Frame) (s : State)
        → IsDead s.world name → destroy code (Own name) at frames s ≡ Over Wrong None s }
{}

/// With more ticks a run prints what it printed, and goes on from there; one that wasn't cut is the same.
pub fn more_ticks_go_further()
    ensures printed { (code : Parts) (input : Given) (fewer more : ℕ) → fewer ≤ more
        → Begins (run_code code input fewer).pieces (run_code code input more).pieces }
    ensures same { (code : Parts) (input : Given) (fewer more : ℕ) → fewer ≤ more
        → (run_code code input fewer).end ≢ Cut → run_code code input more ≡ run_code code input fewer }
{}
