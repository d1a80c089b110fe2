// What values of written types are.
ghost use Rattle.std.specs.Prelude.{◌≡◌, map, option_map};
ghost use Rattle.vale_syntax.specs.View.{view_type, view_param};
ghost use Rattle.vale_rules_spec.specs.Types.{type_of, result_of};
ghost use Rattle.vale_lowering_objects.specs.Scopes.{gives_of, all_agree};
ghost use Rattle.vale_lowering_objects.specs.Lowered.{param_gives_of};
ghost use Rattle.vale_lower_flow.specs.Kept.{view_gives};

use vale_lower_flow::Gives;
use vale_syntax::{Param, TypeExpr};

/// What a value of the written type is.
#[tactic(auto, using(crate::proofs::WrittenLaws::types))]
pub fn gives_of_written(ty: &TypeExpr) -> Gives
    ensures { view_gives result ≡ gives_of (type_of (view_type ty.now)) }
{
    match ty {
        TypeExpr::Int(_) | TypeExpr::Bool(_) | TypeExpr::Str(_) => Gives::Copied,
        TypeExpr::Named(_) => Gives::Owned,
        TypeExpr::Array(..) => Gives::Owned,
        TypeExpr::Ref(..) => Gives::Copied,
        TypeExpr::ImmRef(..) => Gives::Copied,
        TypeExpr::Iso(..) => Gives::Owned,
    }
}

/// What a function with this result gives.
pub fn gives_of_result(written: &Option<TypeExpr>) -> Gives
    ensures { view_gives result ≡ gives_of (result_of (option_map view_type written.now)) }
{
    match written {
        None => Gives::Void,
        Some(ty) => gives_of_written(ty),
    }
}

/// Whether the values are what the parameters get.
#[tactic(auto, using(crate::proofs::WrittenLaws::fits))]
pub fn fit(values: &[Gives], params: &[Param]) -> bool
    ensures { result ≡ all_agree (map view_gives values.now) (param_gives_of (map view_param params.now)) }
{
    if values.len() != params.len() {
        return false;
    }
    for (at, param) in params.iter().enumerate() {
        if !values[at].agrees(gives_of_written(&param.ty)) {
            return false;
        }
    }
    true
}
