//! What holds of the facts of every program, and so of its code: laws of the definitions, the contracts of functions that do
//! nothing.

ghost use Rattle.std.specs.Prelude.{◌≡◌, ◌≢◌, ℕ, true};
ghost use Rattle.vale_state_spec.specs.Outcome.{Wrong};
ghost use Rattle.vale_state_spec.specs.State.{no_input};
ghost use Rattle.vale_rules_spec.specs.Typed.{Typed};
ghost use Rattle.vale_model.specs.Meaning.{meaning};
ghost use Rattle.vale_code.specs.Run.{run_code};
ghost use Rattle.vale_cert.specs.Certificate.{Certified};
ghost use Rattle.vale_served_spec.specs.Served.{is_served};
ghost use Rattle.vale_lowering.specs.Lowered.{lowered};
ghost use Rattle.vale_lower_facts.specs.Marks.{lowered_facts};
ghost use Rattle.vale_lower_facts.specs.WellTyped.{WellTyped};

use vale_cert::certified_code_never_goes_wrong;
use vale_lowering::lowered_code_does_what_is_meant;

/// The code of a program whose types fit is certified with its facts, where all of the program is served.
pub fn lowered_code_is_certified()
    ensures { (program : Typed) → is_served program ≡ true → WellTyped program → Certified (lowered program) (lowered_facts program) }
{}

/// Such code never goes wrong, and does exactly what its program means.
pub fn well_typed_code_does_what_is_meant()
    ensures never_wrong { (program : Typed) → is_served program ≡ true → WellTyped program → (ticks : ℕ)
        → (run_code (lowered program) no_input ticks).end ≢ Wrong }
    ensures means { (program : Typed) → is_served program ≡ true → WellTyped program → (ticks : ℕ)
        → run_code (lowered program) no_input ticks ≡ meaning program no_input ticks }
{
    lowered_code_is_certified();
    certified_code_never_goes_wrong();
    lowered_code_does_what_is_meant();
}
