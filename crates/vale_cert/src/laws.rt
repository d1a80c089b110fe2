//! What certified code never does: the contract of a function that does nothing.

ghost use Rattle.std.specs.Prelude.{◌≡◌, ◌≢◌, ℕ, List, true};
ghost use Rattle.vale_state_spec.specs.Outcome.{Wrong};
ghost use Rattle.vale_state_spec.specs.State.{Given};
ghost use Rattle.vale_code.specs.Parts.{Parts};
ghost use Rattle.vale_code.specs.Run.{run_code};
ghost use Rattle.vale_cert.specs.Certificate.{Certified};
ghost use Rattle.vale_cert.specs.Input.{takes_input};
ghost use Rattle.vale_cert.specs.declared.facts.FuncFacts.{FuncFacts};

/// Certified code never goes wrong: with whatever facts it is certified, whatever input it takes, and however many ticks
/// it may spend.
pub fn certified_code_never_goes_wrong()
    ensures { (code : Parts) (facts : List FuncFacts) → Certified code facts → (input : Given) → takes_input code input ≡ true → (ticks : ℕ)
        → (run_code code input ticks).end ≢ Wrong }
{}
