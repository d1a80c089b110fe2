//! What holds of every run: laws of the definitions, each the contract of a function that does nothing.

ghost use Rattle.std.specs.Prelude.{◌≡◌, ◌≤◌, ℕ, slice_get};
ghost use Rattle.vale_state_spec.specs.Outcome.{Cut, Wrong};
ghost use Rattle.vale_state_spec.specs.State.{State, Calls, Given};
ghost use Rattle.vale_state_spec.specs.World.{IsDead};
ghost use Rattle.vale_base.specs.declared.spot.Spot.{Spot};
ghost use Rattle.vale_rules_spec.specs.Typed.{Typed, Block};
ghost use Rattle.vale_model.specs.Destruction.{Again, destroy};
ghost use Rattle.vale_model.specs.Expressions.{block_run};
ghost use Rattle.vale_text.specs.Progress.{StampsRise, NameProgresses, Begins};
ghost use Rattle.vale_model.specs.Loops.{state_in};
ghost use Rattle.vale_model.specs.Meaning.{level, meaning};
ghost use Rattle.vale_model.specs.Parts.{Parts};
ghost use Rattle.vale_model.specs.Runs.{Locals, ended};

/// A run spends no more ticks than it may.
pub fn ticks_stay_within()
    ensures { (program : Typed) (input : Given) (ticks : ℕ)
        → (meaning program input ticks).ticks ≤ ticks }
{}

/// A run that is cut has spent all its ticks.
pub fn cut_where_no_tick_is_left()
    ensures { (program : Typed) (input : Given) (ticks : ℕ)
        → (meaning program input ticks).end ≡ Cut
        → (meaning program input ticks).ticks ≡ ticks }
{}

/// No piece is stamped earlier than the one before it, and none later than the end.
pub fn stamps_rise()
    ensures { (program : Typed) (input : Given) (ticks : ℕ)
        → StampsRise 0 (meaning program input ticks).pieces (meaning program input ticks).ticks }
{}

/// Whatever a block of a program does: a name whose object died never has one again, and a name that was given is
/// never given to an object of another kind.
pub fn names_never_return()
    ensures { (parts : Parts) (ticks : ℕ) (block : Block) (calls : Calls) (locals : Locals) (s : State)
        → s.left ≤ ticks → (name : ℕ)
        → NameProgresses (slice_get s.world name) (slice_get (state_in (block_run (level parts ticks) block calls locals s)).world name) }
{}

/// An object is dropped at most once: where it has died no rule drops it, and it stays dead.
pub fn the_dead_are_not_dropped()
    ensures { (again : Again) (at : Spot) (name : ℕ) (calls : Calls) (locals : Locals) (s : State)
        → IsDead s.world name → destroy again at name calls locals s ≡ ended Wrong s }
{}

/// With more ticks a run prints what it printed, and goes on from there; one that wasn't cut is the same.
pub fn more_ticks_go_further()
    ensures printed { (program : Typed) (input : Given) (fewer more : ℕ) → fewer ≤ more
        → Begins (meaning program input fewer).pieces (meaning program input more).pieces }
    ensures same { (program : Typed) (input : Given) (fewer more : ℕ) → fewer ≤ more
        → ((meaning program input fewer).end ≡ Cut → ⊥)
        → meaning program input more ≡ meaning program input fewer }
{}
