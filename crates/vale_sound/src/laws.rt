//! What holds of every program that the phases accept: laws of the definitions, the contracts of functions that do nothing.

ghost use Rattle.std.specs.Prelude.{◌≡◌, ℕ, List, true};
ghost use Rattle.std.specs.List.{list_all};
ghost use Rattle.vale_syntax.specs.Tree.{Tree};
ghost use Rattle.vale_rules_spec.specs.Typed.{Typed};
ghost use Rattle.vale_rules_spec.specs.WellFormed.{WellFormed};
ghost use Rattle.vale_syntax.specs.declared.decls.Decls.{Decls};
ghost use Rattle.vale_front.specs.Front.{Accepts};
ghost use Rattle.vale_served_spec.specs.Served.{is_served};
ghost use Rattle.vale_syntax.specs.Bytes.{is_byte};
ghost use Rattle.vale_lower_facts.specs.WellTyped.{WellTyped};
ghost use Rattle.vale_sound.specs.Runs.{Runs};

use vale_lower_facts::{lowered_code_is_certified, well_typed_code_does_what_is_meant};
use vale_lowering::lowered_code_does_what_is_meant;

/// The types of a well-formed program fit, where its text is one of bytes and all of it is served.
pub fn well_formed_programs_are_well_typed()
    ensures { (text : List ℕ) (tree : Tree) (decls : Decls) (program : Typed) → list_all is_byte text ≡ true → WellFormed text tree decls program
        → is_served program ≡ true → WellTyped program }
{}

/// The code of a well-formed program is certified, takes no input, never goes wrong, does exactly what the program means and needs as
/// many frames, where its text is one of bytes and all of it is served.
pub fn well_formed_programs_run()
    ensures { (text : List ℕ) (tree : Tree) (decls : Decls) (program : Typed) → list_all is_byte text ≡ true → WellFormed text tree decls program
        → is_served program ≡ true → Runs program }
{
    well_formed_programs_are_well_typed();
    lowered_code_is_certified();
    well_typed_code_does_what_is_meant();
    lowered_code_does_what_is_meant();
}

/// The same of every program whose text is accepted.
pub fn accepted_programs_run()
    ensures { (text : List ℕ) (tree : Tree) (decls : Decls) (program : Typed) → list_all is_byte text ≡ true → Accepts text tree decls program
        → Runs program }
{
    well_formed_programs_run();
}
