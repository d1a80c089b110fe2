//! What holds of the code of every program: laws of the definitions, the contract of a function that does nothing.

ghost use Rattle.std.specs.Prelude.{◌≡◌, ℕ};
ghost use Rattle.vale_state_spec.specs.Outcome.{Wrong};
ghost use Rattle.vale_state_spec.specs.State.{no_input};
ghost use Rattle.vale_rules_spec.specs.Typed.{Typed};
ghost use Rattle.vale_model.specs.Meaning.{meaning};
ghost use Rattle.vale_model.specs.Need.{need};
ghost use Rattle.vale_code.specs.Need.{need as code_need};
ghost use Rattle.vale_code.specs.Run.{run_code};
ghost use Rattle.vale_lowering.specs.Lowered.{lowered};

/// Lowered code that doesn't go wrong does what its program means: the same pieces at the same ticks, the same end with
/// the same frames, and as many ticks. It needs as many frames.
pub fn lowered_code_does_what_is_meant()
    ensures means { (program : Typed) (ticks : ℕ)
        → ((run_code (lowered program) no_input ticks).end ≡ Wrong → ⊥)
        → run_code (lowered program) no_input ticks ≡ meaning program no_input ticks }
    ensures needs { (program : Typed) (ticks first : ℕ)
        → ((run_code (lowered program) no_input ticks).end ≡ Wrong → ⊥)
        → code_need (lowered program) no_input ticks first ≡ need program no_input ticks first }
{}
