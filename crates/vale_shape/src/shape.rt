// Rule 1: whether each kind, implementation and function is as it must be.
ghost use Rattle.std.specs.Prelude.{◌≡◌, slice_get};
ghost use Rattle.std.specs.List.{list_all};
ghost use Rattle.vale_code.specs.Kinds.{kind_of};
ghost use Rattle.vale_cert.specs.Types.{marked};
ghost use Rattle.vale_cert.specs.Shape.{is_pure_param, has_pure_types, takes_owner, is_destructor_of, destroys, takes_receiver, receives, same_types, same_params, implements_method, implements_each, implements, field_is_lawful, method_is_lawful, kind_is_lawful};
ghost use Rattle.vale_shape.specs.Under.{MarksArrays};

use crate::lawful::{are_types, is_element, is_field, is_result, kind_of};
use crate::numbers::is_text;
use crate::types::{is_copy, is_reference, is_void, same_type};
use vale_code::{Code, Field, Func, Impl, KindInfo, MethodInfo, Ty};

fn are_pure_params(params: &[Ty]) -> bool
    ensures { result ≡ list_all is_pure_param params.now }
{
    for ty in params {
        if !(matches!(ty, Ty::Frozen(_) | Ty::Iso(_)) || is_copy(*ty)) {
            return false;
        }
    }
    true
}

pub fn has_pure_types(params: &[Ty], with: Ty) -> bool
    ensures { result ≡ has_pure_types params.now with }
{
    are_pure_params(params) && !is_reference(with)
}

fn takes_owner(n: usize, params: &[Ty]) -> bool
    ensures { result ≡ takes_owner n params.now }
{
    match params {
        [Ty::Own(kind)] => kind.0 as usize == n,
        _ => false,
    }
}

/// Whether the function may destroy objects of struct n.
fn destroys(n: usize, funcs: &[Func], destructor: Option<u32>) -> bool
    ensures { result ≡ destroys n funcs.now destructor }
{
    let Some(f) = destructor else {
        return true;
    };
    match funcs.get(f as usize) {
        None => false,
        Some(func) => {
            func.form == 3 && takes_owner(n, func.params.as_slice()) && is_void(func.result)
        }
    }
}

/// Whether the first parameter of a method is its receiver.
fn takes_receiver(n: usize, is_pure: bool, params: &[Ty]) -> bool
    ensures { result ≡ takes_receiver n is_pure params.now }
{
    match params {
        [] => false,
        [first, ..] => match first {
            Ty::Ref(kind) => kind.0 as usize == n && !is_pure,
            Ty::Frozen(kind) => kind.0 as usize == n,
            _ => false,
        },
    }
}

fn receives(item: &Impl, a: Ty, b: Ty) -> bool
    ensures { result ≡ receives item.now a b }
{
    match a {
        Ty::Ref(x) => match b {
            Ty::Ref(y) => x.0 == item.interface.0 && y.0 == item.of.0,
            _ => false,
        },
        Ty::Frozen(x) => match b {
            Ty::Frozen(y) => x.0 == item.interface.0 && y.0 == item.of.0,
            _ => false,
        },
        _ => false,
    }
}

fn same_types(theirs: &[Ty], ours: &[Ty]) -> bool
    ensures { result ≡ same_types theirs.now ours.now }
{
    let mut left = ours;
    for a in theirs {
        match left {
            [] => return false,
            [b, more @ ..] => {
                if !same_type(*a, *b) {
                    return false;
                }
                left = more;
            }
        }
    }
    left.is_empty()
}

fn same_params(item: &Impl, theirs: &[Ty], ours: &[Ty]) -> bool
    ensures { result ≡ same_params item.now theirs.now ours.now }
{
    match theirs {
        [] => false,
        [a, more @ ..] => match ours {
            [] => false,
            [b, others @ ..] => receives(item, *a, *b) && same_types(more, others),
        },
    }
}

fn implements_method(item: &Impl, method: &MethodInfo, funcs: &[Func], f: u32) -> bool
    ensures { result ≡ implements_method item.now method.now (slice_get funcs.now f) }
{
    match funcs.get(f as usize) {
        None => false,
        Some(func) => {
            func.form == (if method.is_pure { 1 } else { 0 })
                && same_params(item, method.params.as_slice(), func.params.as_slice())
                && same_type(method.result, func.result)
        }
    }
}

fn implements_each(funcs: &[Func], item: &Impl, methods: &[MethodInfo]) -> bool
    ensures { result ≡ implements_each funcs.now item.now methods.now item.now.funcs }
{
    let mut left = item.funcs.as_slice();
    for method in methods {
        match left {
            [] => return false,
            [f, more @ ..] => {
                if !implements_method(item, method, funcs, *f) {
                    return false;
                }
                left = more;
            }
        }
    }
    left.is_empty()
}

/// Whether an implementation has a function for each method, and they fit.
pub fn implements(code: &Code, item: &Impl) -> bool
    ensures { result ≡ implements code.now.funcs item.now (kind_of code.now item.now.interface) (kind_of code.now item.now.of) }
{
    match kind_of(code, item.interface) {
        Some(KindInfo::Interface { methods, .. }) => match kind_of(code, item.of) {
            Some(KindInfo::Struct { .. }) => {
                implements_each(code.funcs.as_slice(), item, methods.as_slice())
            }
            _ => false,
        },
        _ => false,
    }
}

fn fields_are_lawful(code: &Code, marks: &[bool], arrays: &[bool], fields: &[Field]) -> bool
    requires { MarksArrays code.now arrays.now }
    ensures { result ≡ list_all (field_is_lawful code.now (marked marks.now)) fields.now }
{
    for field in fields {
        if !is_field(code, marks, arrays, field.ty) {
            return false;
        }
    }
    true
}

fn method_is_lawful(code: &Code, marks: &[bool], n: usize, method: &MethodInfo) -> bool
    ensures { result ≡ method_is_lawful code.now (marked marks.now) n method.now }
{
    let params = method.params.as_slice();
    is_text(code, method.name)
        && takes_receiver(n, method.is_pure, params)
        && are_types(code, marks, params)
        && is_result(code, marks, method.result)
        && (!method.is_pure || has_pure_types(params, method.result))
}

fn methods_are_lawful(code: &Code, marks: &[bool], n: usize, methods: &[MethodInfo]) -> bool
    ensures { result ≡ list_all (method_is_lawful code.now (marked marks.now) n) methods.now }
{
    for method in methods {
        if !method_is_lawful(code, marks, n, method) {
            return false;
        }
    }
    true
}

/// Whether kind n is as it must be.
pub fn kind_is_lawful(
    code: &Code,
    marks: &[bool],
    arrays: &[bool],
    n: usize,
    info: &KindInfo,
) -> bool
    requires { MarksArrays code.now arrays.now }
    ensures { result ≡ kind_is_lawful code.now (marked marks.now) n info.now }
{
    match info {
        KindInfo::Struct {
            name,
            destructor,
            fields,
        } => {
            is_text(code, *name)
                && destroys(n, code.funcs.as_slice(), *destructor)
                && fields_are_lawful(code, marks, arrays, fields.as_slice())
        }
        KindInfo::Interface { name, methods } => {
            is_text(code, *name) && methods_are_lawful(code, marks, n, methods.as_slice())
        }
        KindInfo::Array { item } => is_element(code, marks, *item),
    }
}
