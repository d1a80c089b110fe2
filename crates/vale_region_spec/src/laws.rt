// A law of the definitions.
ghost use Rattle.std.specs.Prelude.{◌≡◌, ◌||◌, not, List};
ghost use Rattle.vale_rules_spec.specs.Types.{Ty, is_void, is_copy, may_be_isolated};
ghost use Rattle.vale_rules_spec.specs.TypeRules.{is_iso, parallel_gives};
ghost use Rattle.vale_syntax.specs.Tree.{Item};

/// A parallel loop gives nothing exactly where the type of its body is void, or none that it can give: no copy type, no
/// `iso U` and no owner that may stand under `iso`.
#[tactic(auto, using(crate::proofs::GivenLaws::what_is_given))]
pub fn loops_give()
    ensures { (items : List Item) (t : Ty) → not (is_void (parallel_gives items t)) ≡ (is_iso t || (is_copy t || may_be_isolated items t)) }
{}
