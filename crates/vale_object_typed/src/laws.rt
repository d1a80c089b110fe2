//! Laws of the definitions, the contracts of functions that do nothing.

ghost use Rattle.vale_object_typed.specs.Fit.{TypedProgramsFit, LoweredHasTables, FunctionsBreakNoRule};

/// The types of the parts of a typed program fit, where its code has the program's tables.
pub fn types_of_typed_programs_fit()
    ensures { TypedProgramsFit }
{}

/// The code of a program that is declared and typed has the program's tables.
pub fn lowered_code_has_tables()
    ensures { LoweredHasTables }
{}

/// The code of a program that is declared and typed, and whose functions the law covers, breaks no rule of instructions.
pub fn lowered_code_breaks_no_rule()
    ensures { FunctionsBreakNoRule }
{}
