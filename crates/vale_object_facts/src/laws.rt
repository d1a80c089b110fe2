//! A law of the definitions, the contract of a function that does nothing.

ghost use Rattle.vale_object_facts.specs.Faultless.{FunctionsAreFaultless};

/// The facts of a lowered function, where the types of its parts fit, break no rule of instructions.
pub fn lowered_functions_break_no_rule()
    ensures { FunctionsAreFaultless }
{}
