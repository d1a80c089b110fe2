// Tests of types.
ghost use Rattle.std.specs.Prelude.{◌≡◌};
ghost use Rattle.vale_code.specs.Kinds.{same_type};
ghost use Rattle.vale_cert.specs.Types.{is_void, is_copy, is_frozen, is_reference, is_owned};

use vale_code::Ty;

pub fn is_void(ty: Ty) -> bool
    ensures { result ≡ is_void ty }
{
    matches!(ty, Ty::Void)
}

pub fn is_copy(ty: Ty) -> bool
    ensures { result ≡ is_copy ty }
{
    matches!(ty, Ty::Int | Ty::Truth | Ty::Text)
}

pub fn is_frozen(ty: Ty) -> bool
    ensures { result ≡ is_frozen ty }
{
    matches!(ty, Ty::Frozen(_))
}

pub fn is_reference(ty: Ty) -> bool
    ensures { result ≡ is_reference ty }
{
    matches!(ty, Ty::Ref(_) | Ty::Frozen(_))
}

/// Whether it is an owner or an isolate.
pub fn is_owned(ty: Ty) -> bool
    ensures { result ≡ is_owned ty }
{
    matches!(ty, Ty::Own(_) | Ty::Iso(_))
}

pub fn same_type(a: Ty, b: Ty) -> bool
    ensures { result ≡ same_type a b }
{
    match a {
        Ty::Void => matches!(b, Ty::Void),
        Ty::Int => matches!(b, Ty::Int),
        Ty::Truth => matches!(b, Ty::Truth),
        Ty::Text => matches!(b, Ty::Text),
        Ty::Own(x) => match b {
            Ty::Own(y) => x.0 == y.0,
            _ => false,
        },
        Ty::Ref(x) => match b {
            Ty::Ref(y) => x.0 == y.0,
            _ => false,
        },
        Ty::Frozen(x) => match b {
            Ty::Frozen(y) => x.0 == y.0,
            _ => false,
        },
        Ty::Iso(x) => match b {
            Ty::Iso(y) => x.0 == y.0,
            _ => false,
        },
    }
}
