// The code of a program with its facts.
ghost use Rattle.std.specs.Prelude.{◌≡◌, IfOk, true};
ghost use Rattle.vale_core.specs.View.{view_core};
ghost use Rattle.vale_served_spec.specs.Served.{is_served};
ghost use Rattle.vale_lowering.specs.Lowered.{lowered};
ghost use Rattle.vale_lower_facts.specs.Marks.{lowered_facts};
ghost use Rattle.vale_sound.specs.Runs.{Runs};

use crate::facts::lower_facts;
use std::alloc::Global;
use vale_base::Memory;
use vale_cert::Facts;
use vale_code::Code;
use vale_core::Sound;
use vale_lower_code::lower_code;
use vale_sound::well_formed_programs_run;

/// The code of a sound program and the facts that certify it. A part that isn't lowered yet has code by which no step
/// follows. A number that would be 2^32 or more is want of memory.
pub fn lower(alloc: Global, sound: &Sound) -> Result<(Code, Facts), Memory>
    ensures code { IfOk result (λ both. both.0 ≡ lowered (view_core sound.now.core)) }
    ensures facts { IfOk result (λ both. both.1 ≡ lowered_facts (view_core sound.now.core)) }
    // Where all of the program is served, these facts certify this code, and it does what the program means.
    ensures runs { is_served (view_core sound.now.core) ≡ true → ∥ Runs (view_core sound.now.core) ∥₁ }
{
    well_formed_programs_run();
    let code = lower_code(alloc, &sound.core)?;
    let facts = lower_facts(alloc, &sound.core, &code)?;
    Ok((code, facts))
}
