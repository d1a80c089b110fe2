// Names: those that are used, and those that are declared.
ghost use Rattle.std.specs.Prelude.{◌≡◌};
ghost use Rattle.vale_rules_spec.specs.Judged.{broken};
ghost use Rattle.vale_rules_spec.specs.TypeRules.{name_rules, new_name_rules, declare_rules};
ghost use Rattle.vale_core.specs.View.{view_ty};
ghost use Rattle.vale_seen.specs.Scope.{locals};

use vale_core::Ty;
use vale_seen::{Scope, is_visible};
use vale_syntax::NameAt;

/// The name of a local.
pub fn name_fault(scope: &Scope, name: NameAt) -> Option<u8>
    ensures { result ≡ broken (name_rules name (locals scope.now)) }
{
    if !is_visible(scope, name) {
        return Some(21);
    }
    None
}

/// A name that a loop or a destructuring declares.
pub fn new_name_fault(scope: &Scope, name: NameAt) -> Option<u8>
    ensures { result ≡ broken (new_name_rules name (locals scope.now)) }
{
    if is_visible(scope, name) {
        return Some(27);
    }
    None
}

/// `x = e;`, where the value has this type.
pub fn declare_fault(scope: &Scope, name: NameAt, ty: &Ty) -> Option<u8>
    ensures { result ≡ broken (declare_rules name (locals scope.now) (view_ty ty.now)) }
{
    if ty.is_void() {
        return Some(20);
    }
    new_name_fault(scope, name)
}
