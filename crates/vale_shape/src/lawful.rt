// Which types may stand where.
ghost use Rattle.std.specs.Prelude.{◌≡◌, length, option_copied};
ghost use Rattle.std.specs.List.{list_all};
ghost use Rattle.vale_code.specs.Kinds.{kind_of};
ghost use Rattle.vale_cert.specs.Types.{marked, is_kind, isolates_under, may_be_isolate, is_type, is_result, is_element, is_field, is_isolate};
ghost use Rattle.vale_shape.specs.Under.{MarksArrays};

use crate::types::is_frozen;
use vale_base::Kind;
use vale_code::{Code, KindInfo, Ty};
use vale_marks::is_marked;

pub fn is_kind(code: &Code, kind: Kind) -> bool
    ensures { result ≡ is_kind code.now kind }
{
    (kind.0 as usize) < code.kinds.len()
}

fn is_isolate(ty: Ty) -> bool
    ensures { result ≡ is_isolate ty }
{
    matches!(ty, Ty::Iso(_))
}

pub fn kind_of(code: &Code, kind: Kind) -> Option<&KindInfo>
    ensures { option_copied result ≡ kind_of code.now kind }
{
    code.kinds.as_slice().get(kind.0 as usize)
}

/// Whether the type is an isolate, or an array of these, or of such arrays.
fn isolates_under(code: &Code, arrays: &[bool], ty: Ty) -> bool
    requires { MarksArrays code.now arrays.now }
    ensures { result ≡ isolates_under code.now (length code.now.kinds) ty }
{
    match ty {
        Ty::Own(kind) => is_marked(arrays, kind),
        _ => is_isolate(ty),
    }
}

/// Whether an object of the kind may be the root of an isolate.
pub fn may_be_isolate(code: &Code, marks: &[bool], kind: Kind) -> bool
    ensures { result ≡ may_be_isolate code.now (marked marks.now) kind }
{
    is_kind(code, kind) && !is_marked(marks, kind)
}

pub fn is_type(code: &Code, marks: &[bool], ty: Ty) -> bool
    ensures { result ≡ is_type code.now (marked marks.now) ty }
{
    match ty {
        Ty::Void => false,
        Ty::Own(kind) | Ty::Ref(kind) | Ty::Frozen(kind) => is_kind(code, kind),
        Ty::Iso(kind) => may_be_isolate(code, marks, kind),
        Ty::Int | Ty::Truth | Ty::Text => true,
    }
}

pub fn are_types(code: &Code, marks: &[bool], types: &[Ty]) -> bool
    ensures { result ≡ list_all (is_type code.now (marked marks.now)) types.now }
{
    for ty in types {
        if !is_type(code, marks, *ty) {
            return false;
        }
    }
    true
}

pub fn is_result(code: &Code, marks: &[bool], ty: Ty) -> bool
    ensures { result ≡ is_result code.now (marked marks.now) ty }
{
    match ty {
        Ty::Void => true,
        _ => is_type(code, marks, ty),
    }
}

pub fn is_element(code: &Code, marks: &[bool], ty: Ty) -> bool
    ensures { result ≡ is_element code.now (marked marks.now) ty }
{
    is_type(code, marks, ty) && !is_frozen(ty)
}

pub fn is_field(code: &Code, marks: &[bool], arrays: &[bool], ty: Ty) -> bool
    requires { MarksArrays code.now arrays.now }
    ensures { result ≡ is_field code.now (marked marks.now) ty }
{
    is_element(code, marks, ty) && !isolates_under(code, arrays, ty)
}
