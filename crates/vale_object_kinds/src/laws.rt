//! A law of the definitions, the contract of a function that does nothing.

ghost use Rattle.vale_object_kinds.specs.Kinds.{KindsOfProgram};

/// The code of a program that is declared and typed has the program's kinds: each is written as the program writes it, and is
/// destroyed by its destructor.
pub fn kinds_are_those_of_the_program()
    ensures kinds { KindsOfProgram }
{}
