// Laws of the definitions, the contracts of functions that do nothing.
ghost use Rattle.vale_run.specs.Built.{BuildsWhatIsMeant};
ghost use Rattle.vale_run.specs.Plain.{TakeNoInput, HaveNoSite};

use vale_sound::{accepted_programs_run, well_formed_programs_are_well_typed};

/// No program that is accepted so far takes input, and none has a site.
pub fn served_programs_are_plain()
    ensures input { TakeNoInput }
    ensures sites { HaveNoSite }
{
    well_formed_programs_are_well_typed();
}

/// The code that is built of an accepted program does what the program means.
pub fn built_code_does_what_is_meant()
    ensures { BuildsWhatIsMeant }
{
    served_programs_are_plain();
    accepted_programs_run();
}
