// The law of code files, as the contract of a function that does nothing.
ghost use Rattle.std.specs.Prelude.{◌≡◌, ◌++◌, ℕ, List, []};
ghost use Rattle.vale_code.specs.Parts.{Parts};
ghost use Rattle.vale_cert.specs.declared.facts.FuncFacts.{FuncFacts};
ghost use Rattle.vale_file_spec.specs.File.{Spells};

/// A code with its facts has at most one spelling in each version, a file spells at most one code with its facts, and no
/// file is the beginning of another.
pub fn files_are_unique()
    ensures spelling { (a b : List ℕ) (v : ℕ) (code : Parts) (facts : List FuncFacts) → Spells a v code facts → Spells b v code facts → a ≡ b }
    ensures meaning { (a : List ℕ) (v w : ℕ) (code other : Parts) (facts known : List FuncFacts)
        → Spells a v code facts → Spells a w other known → (v ≡ w) × (code ≡ other) × (facts ≡ known) }
    ensures front { (a rest : List ℕ) (v w : ℕ) (code other : Parts) (facts known : List FuncFacts)
        → Spells a v code facts → Spells (a ++ rest) w other known → rest ≡ [] }
{}
