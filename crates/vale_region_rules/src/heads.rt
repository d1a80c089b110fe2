// Heads of pure functions, and the bodies of functions.
ghost use Rattle.std.specs.Prelude.{◌≡◌, option_map};
ghost use Rattle.vale_rules_spec.specs.Judged.{broken};
ghost use Rattle.vale_syntax.specs.View.{view_type, view_param, view_head};
ghost use Rattle.vale_region_spec.specs.RegionRules.{param_rules, result_rules};
ghost use Rattle.vale_region_spec.specs.Regions.{entry};

use crate::types::{is_written_ref, is_written_reference, may_be_passed};
use vale_region_spec::Around;
use vale_syntax::{Head, Param, TypeExpr};

/// A parameter of a pure function.
pub fn param_fault(param: &Param) -> Option<u8>
    ensures { result ≡ broken (param_rules (view_param param.now)) }
{
    if !may_be_passed(&param.ty) {
        return Some(43);
    }
    None
}

/// The result of a pure function.
pub fn result_fault(gives: &Option<TypeExpr>) -> Option<u8>
    ensures { result ≡ broken (result_rules (option_map view_type gives.now)) }
{
    match gives {
        Some(ty) => {
            if is_written_reference(ty) {
                return Some(43);
            }
            None
        }
        None => None,
    }
}

/// What stands round the body of a function.
pub fn entry(head: &Head) -> Around
    ensures { result ≡ entry (view_head head.now) }
{
    let gives_ref = match &head.result {
        Some(ty) => is_written_ref(ty),
        None => false,
    };
    Around {
        gives_ref,
        is_inside: false,
    }
}
