// Which kinds lead to an isolate or to a marked kind at once.
ghost use Rattle.std.specs.Prelude.{◌≡◌, ℕ, ◌||◌, [], ◌∷◌, length, slice_get};
ghost use Rattle.std.specs.List.{list_any};
ghost use Rattle.vale_cert.specs.Types.{marked, field_reaches};
ghost use Rattle.vale_marks.specs.Ways.{type_leads, info_leads, has_leads, impls_lead, leads};

use crate::way::Way;
use vale_base::Kind;
use vale_code::{Code, Field, Impl, KindInfo, Ty};

/// Whether kind n is marked.
pub fn has_mark(marks: &[bool], n: usize) -> bool
    ensures { result ≡ marked marks.now n }
{
    match marks.get(n) {
        None => false,
        Some(mark) => *mark,
    }
}

/// Whether a kind is marked.
pub fn is_marked(marks: &[bool], kind: Kind) -> bool
    ensures { result ≡ marked marks.now kind.0 }
{
    has_mark(marks, kind.0 as usize)
}

/// Whether a type is an isolate, or leads to a marked kind.
fn type_leads(way: Way, marks: &[bool], ty: Ty) -> bool
    ensures { result ≡ type_leads way (marked marks.now) ty }
{
    match ty {
        Ty::Own(kind) => is_marked(marks, kind),
        Ty::Ref(kind) | Ty::Frozen(kind) => matches!(way, Way::Any) && is_marked(marks, kind),
        Ty::Iso(_) => true,
        Ty::Void | Ty::Int | Ty::Truth | Ty::Text => false,
    }
}

fn fields_lead(marks: &[bool], fields: &[Field]) -> bool
    ensures { result ≡ list_any (field_reaches (marked marks.now)) fields.now }
{
    for field in fields {
        if type_leads(Way::Any, marks, field.ty) {
            return true;
        }
    }
    false
}

/// Whether a kind leads to an isolate or a marked kind by what it has.
fn info_leads(way: Way, marks: &[bool], info: &KindInfo) -> bool
    ensures { result ≡ info_leads way (marked marks.now) info.now }
{
    match info {
        KindInfo::Struct { fields, .. } => {
            matches!(way, Way::Any) && fields_lead(marks, fields.as_slice())
        }
        KindInfo::Interface { .. } => false,
        KindInfo::Array { item } => type_leads(way, marks, *item),
    }
}

/// Marks the kinds that lead to an isolate or a marked kind by what they have, and no others.
fn turn_kinds(way: Way, code: &Code, marks: &[bool], next: &mut [bool])
    requires { length next.old ≡ length code.now.kinds }
    ensures { (n : ℕ) → marked next.new n ≡ has_leads way (marked marks.now) (slice_get code.now.kinds n) }
{
    for (n, info) in code.kinds.as_slice().iter().enumerate() {
        next[n] = info_leads(way, marks, info);
    }
}

/// Marks an interface that an implementation leads from.
fn turn_impl(code: &Code, marks: &[bool], item: &Impl, next: &mut [bool])
    requires { length next.old ≡ length code.now.kinds }
    ensures { (n : ℕ) → marked next.new n ≡ (marked next.old n || impls_lead (marked marks.now) (item.now ∷ []) n (slice_get code.now.kinds n)) }
{
    let n = item.interface.0 as usize;
    if let Some(KindInfo::Interface { .. }) = code.kinds.as_slice().get(n) {
        if is_marked(marks, item.of) {
            next[n] = true;
        }
    }
}

/// Marks the interfaces that an implementation by a marked struct leads from.
fn turn_impls(code: &Code, marks: &[bool], next: &mut [bool])
    requires { length next.old ≡ length code.now.kinds }
    ensures { (n : ℕ) → marked next.new n ≡ (marked next.old n || impls_lead (marked marks.now) code.now.impls n (slice_get code.now.kinds n)) }
{
    for item in code.impls.as_slice() {
        turn_impl(code, marks, item, next);
    }
}

/// Marks exactly those kinds that lead to an isolate or to a marked kind.
pub fn turn(way: Way, code: &Code, marks: &[bool], next: &mut [bool])
    requires { length next.old ≡ length code.now.kinds }
    ensures { (n : ℕ) → marked next.new n ≡ leads way code.now (marked marks.now) n }
{
    turn_kinds(way, code, marks, next);
    match way {
        Way::Any => turn_impls(code, marks, next),
        Way::Arrays => {}
    }
}
