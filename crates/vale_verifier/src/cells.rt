// What operands lead to, and what is read of objects.
ghost use Rattle.std.specs.Prelude.{◌≡◌, ◌||◌, not, slice_get};
ghost use Rattle.vale_cert.specs.Known.{fact_of, is_there};
ghost use Rattle.vale_cert.specs.Objects.{types_of, field_of, item_of, cell_by, owner_kind, reference_kind, read_kind, is_through_frozen, found_alive, seen, raised, may_be_raised};
ghost use Rattle.vale_shape.specs.Known.{Knows};
ghost use Rattle.vale_cert.specs.Rules.{is_readable, leads, finds_alive};

use crate::known::{fact_of, is_there, set_fact};
use vale_base::Kind;
use vale_cert::{Kept, RegFact};
use vale_code::{Code, Field, KindInfo, Ty};
use vale_shape::{Implementations, is_frozen, is_owned, kind_of};

// ---- the kind that an operand leads to

/// As an owner.
pub fn owner_kind(fact: RegFact) -> Option<Kind>
    ensures { result ≡ owner_kind fact }
{
    match fact {
        RegFact::Held {
            ty: Ty::Own(kind),
            ..
        } => Some(kind),
        _ => None,
    }
}

/// As a reference through which objects are changed.
pub fn reference_kind(fact: RegFact) -> Option<Kind>
    ensures { result ≡ reference_kind fact }
{
    match fact {
        RegFact::Held {
            ty: Ty::Ref(kind),
            ..
        } => Some(kind),
        _ => None,
    }
}

/// As a reference, or as what gives one into frozen data.
pub fn read_kind(depth: u32, fact: RegFact) -> Option<Kind>
    ensures { result ≡ read_kind depth fact }
{
    match fact {
        RegFact::Empty => None,
        RegFact::Held { ty, depth: d, .. } => match ty {
            Ty::Ref(kind) | Ty::Frozen(kind) => Some(kind),
            Ty::Own(kind) | Ty::Iso(kind) => if d < depth { Some(kind) } else { None },
            _ => None,
        },
    }
}

/// Whether it gives a reference into frozen data by itself.
pub fn is_through_frozen(depth: u32, fact: RegFact) -> bool
    ensures { result ≡ is_through_frozen depth fact }
{
    match fact {
        RegFact::Empty => false,
        RegFact::Held { ty, depth: d, .. } => is_frozen(ty) || d < depth,
    }
}

fn found_alive(depth: u32, fact: RegFact) -> RegFact
    ensures { result ≡ found_alive depth fact }
{
    match fact {
        RegFact::Empty => RegFact::Empty,
        RegFact::Held { ty, depth: d, live } => RegFact::Held {
            ty,
            depth: d,
            live: live || is_frozen(ty) || d < depth,
        },
    }
}

/// A checked instruction on a register has found its object alive.
pub fn find_alive(depth: u32, regs: &mut [RegFact], a: u32)
    ensures { regs.new ≡ finds_alive depth regs.old a }
{
    let fact = found_alive(depth, fact_of(regs, a));
    set_fact(regs, a, fact);
}

/// A reference is read through at its own depth, or as one into frozen data at a greater one.
pub fn is_readable(depth: u32, fact: RegFact) -> bool
    ensures { result ≡ is_readable depth fact }
{
    match fact {
        RegFact::Empty => true,
        RegFact::Held { ty, depth: d, .. } => {
            !(matches!(ty, Ty::Ref(_)) || is_owned(ty)) || d <= depth
        }
    }
}

// ---- cells

fn field_in(fields: &[Field], n: u32) -> Option<Ty>
    ensures { result ≡ slice_get (types_of fields.now) n }
{
    match fields.get(n as usize) {
        None => None,
        Some(field) => Some(field.ty),
    }
}

fn field_of(code: &Code, field: u32, kind: Kind) -> Option<Ty>
    ensures { result ≡ field_of code.now field kind }
{
    match kind_of(code, kind) {
        Some(KindInfo::Struct { fields, .. }) => field_in(fields.as_slice(), field),
        _ => None,
    }
}

fn item_of(code: &Code, kind: Kind) -> Option<Ty>
    ensures { result ≡ item_of code.now kind }
{
    match kind_of(code, kind) {
        Some(KindInfo::Array { item }) => Some(*item),
        _ => None,
    }
}

/// The type of a field of an operand's object.
pub fn field_by(code: &Code, field: u32, kind: Option<Kind>) -> Option<Ty>
    ensures { result ≡ cell_by (field_of code.now field) kind }
{
    match kind {
        None => None,
        Some(kind) => field_of(code, field, kind),
    }
}

/// The type of the elements of an operand's object.
pub fn item_by(code: &Code, kind: Option<Kind>) -> Option<Ty>
    ensures { result ≡ cell_by (item_of code.now) kind }
{
    match kind {
        None => None,
        Some(kind) => item_of(code, kind),
    }
}

/// An operand has to lead to an object of which something is known.
pub fn leads_if(usable: bool, fact: RegFact, known: bool) -> Kept
    ensures { result ≡ record { types = not (is_there fact) || known; present = is_there fact; depths = usable } }
{
    Kept {
        types: !is_there(fact) || known,
        present: is_there(fact),
        depths: usable,
    }
}

/// An operand has to lead to an object with such a cell.
pub fn leads(usable: bool, fact: RegFact, cell: Option<Ty>) -> Kept
    ensures { result ≡ leads usable fact cell }
{
    leads_if(usable, fact, matches!(cell, Some(_)))
}

/// What is seen of a cell of this type.
pub fn seen(frozen: bool, ty: Ty) -> Ty
    ensures { result ≡ seen frozen ty }
{
    match ty {
        Ty::Own(kind) => if frozen {
            Ty::Frozen(kind)
        } else {
            Ty::Ref(kind)
        },
        Ty::Ref(kind) | Ty::Iso(kind) => if frozen { Ty::Frozen(kind) } else { ty },
        _ => ty,
    }
}

// ---- views

/// A struct seen as an interface.
pub fn raised(interface: Kind, ty: Ty) -> Ty
    ensures { result ≡ raised interface ty }
{
    match ty {
        Ty::Own(_) => Ty::Own(interface),
        Ty::Ref(_) => Ty::Ref(interface),
        Ty::Frozen(_) => Ty::Frozen(interface),
        Ty::Iso(_) => Ty::Iso(interface),
        _ => ty,
    }
}

/// Whether it leads to a struct that implements the interface.
pub fn may_be_raised(code: &Code, known: &Implementations, interface: Kind, ty: Ty) -> bool
    requires { Knows known.now code.now.impls }
    ensures { result ≡ may_be_raised code.now.impls interface ty }
{
    match ty {
        Ty::Own(kind) | Ty::Ref(kind) | Ty::Frozen(kind) | Ty::Iso(kind) => {
            known.has(interface, kind)
        }
        _ => false,
    }
}
