//! Laws of the definitions, the contracts of functions that do nothing.

ghost use Rattle.vale_object_sure.specs.Sure.{SureBodies, OwnedFunctionsBreakNoRule};

use vale_object_typed::{
    lowered_code_breaks_no_rule, lowered_code_has_tables, types_of_typed_programs_fit,
};

/// The code of the functions of a program that keeps the rules has no instruction that no step follows.
pub fn lowered_bodies_are_sure()
    ensures { SureBodies }
{
    types_of_typed_programs_fit();
    lowered_code_has_tables();
}

/// So this code breaks no rule of instructions.
pub fn owned_code_breaks_no_rule()
    ensures { OwnedFunctionsBreakNoRule }
{
    lowered_bodies_are_sure();
    lowered_code_breaks_no_rule();
}
