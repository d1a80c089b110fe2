// Operands, arguments and values that are taken from registers.
ghost use Rattle.std.specs.Prelude.{◌≡◌, length, replicate};
ghost use Rattle.vale_cert.specs.Known.{fact_of, is_there, has, is_free};
ghost use Rattle.vale_cert.specs.Objects.{types_of};
ghost use Rattle.vale_cert.specs.Rules.{is_usable, reads, uses, gets, leads_to, gives_frozen, passes, passed, passes_all, after_passing, taken, takes_all, puts_all, if_types};

use crate::known::{fact_of, has, is_free, is_there, set_fact};
use vale_cert::{Kept, RegFact};
use vale_code::{Field, Ty};
use vale_shape::is_owned;

pub fn if_types(types: bool) -> Kept
    ensures { result ≡ if_types types }
{
    Kept {
        types,
        present: true,
        depths: true,
    }
}

pub fn is_usable(depth: u32, fact: RegFact) -> bool
    ensures { result ≡ is_usable depth fact }
{
    match fact {
        RegFact::Empty => true,
        RegFact::Held { ty, depth: d, .. } => {
            !(matches!(ty, Ty::Ref(_)) || is_owned(ty)) || d == depth
        }
    }
}

/// A register is read that holds this type.
pub fn reads(regs: &[RegFact], a: u32, ty: Ty, kept: Kept) -> Kept
    ensures { result ≡ reads regs.now a ty kept }
{
    let fact = fact_of(regs, a);
    Kept {
        types: kept.types && has(ty, fact),
        present: kept.present && is_there(fact),
        depths: kept.depths,
    }
}

/// The same, at its own depth.
pub fn uses(depth: u32, regs: &[RegFact], a: u32, ty: Ty, kept: Kept) -> Kept
    ensures { result ≡ uses depth regs.now a ty kept }
{
    let fact = fact_of(regs, a);
    Kept {
        types: kept.types && has(ty, fact),
        present: kept.present && is_there(fact),
        depths: kept.depths && is_usable(depth, fact),
    }
}

/// A result comes into a register.
pub fn gets(depth: u32, regs: &mut [RegFact], to: u32, ty: Ty, kept: Kept) -> Kept
    ensures { gets depth regs.old to ty kept ≡ record { kept = result; after = regs.new } }
{
    let present = kept.present && is_free(fact_of(regs, to));
    let fact = RegFact::Held {
        ty,
        depth,
        live: false,
    };
    set_fact(regs, to, fact);
    Kept { present, ..kept }
}

// ---- arguments

fn leads_to(n: u32, ty: Ty) -> bool
    ensures { result ≡ leads_to n ty }
{
    match ty {
        Ty::Own(kind) | Ty::Ref(kind) | Ty::Iso(kind) => kind.0 == n,
        _ => false,
    }
}

/// Whether the register gives a reference into frozen data of a kind.
fn gives_frozen(depth: u32, n: u32, fact: RegFact) -> bool
    ensures { result ≡ gives_frozen depth n fact }
{
    match fact {
        RegFact::Empty => true,
        RegFact::Held { ty, depth: d, .. } => match ty {
            Ty::Frozen(kind) => kind.0 == n,
            _ => d < depth && leads_to(n, ty),
        },
    }
}

fn passes(depth: u32, regs: &[RegFact], a: u32, ty: Ty, kept: Kept) -> Kept
    ensures { result ≡ passes depth regs.now a ty kept }
{
    match ty {
        Ty::Frozen(kind) => {
            let fact = fact_of(regs, a);
            Kept {
                types: kept.types && gives_frozen(depth, kind.0, fact),
                present: kept.present && is_there(fact),
                depths: kept.depths,
            }
        }
        _ => uses(depth, regs, a, ty, kept),
    }
}

/// An owner or an isolate leaves its register.
pub fn leave(regs: &mut [RegFact], a: u32, ty: Ty)
    ensures { regs.new ≡ after_passing regs.old a ty }
{
    match ty {
        Ty::Own(_) | Ty::Iso(_) => set_fact(regs, a, RegFact::Empty),
        _ => {}
    }
}

/// A register is an argument; an owner or an isolate leaves it.
pub fn pass(depth: u32, regs: &mut [RegFact], a: u32, ty: Ty, kept: Kept) -> Kept
    ensures { passed depth a ty (record { kept = kept; after = regs.old }) ≡ record { kept = result; after = regs.new } }
{
    let kept = passes(depth, regs, a, ty, kept);
    leave(regs, a, ty);
    kept
}

/// Each register is an argument for one of these types.
pub fn pass_all(depth: u32, regs: &mut [RegFact], types: &[Ty], args: &[u32], kept: Kept) -> Kept
    ensures { passes_all depth types.now args.now (record { kept = kept; after = regs.old }) ≡ record { kept = result; after = regs.new } }
{
    let mut kept = kept;
    let mut left = types;
    for a in args {
        match left {
            [] => return Kept {
                types: false,
                ..kept
            },
            [ty, more @ ..] => {
                kept = pass(depth, regs, *a, *ty, kept);
                left = more;
            }
        }
    }
    if left.is_empty() {
        kept
    } else {
        Kept {
            types: false,
            ..kept
        }
    }
}

// ---- values that are taken and written

/// A register is read that holds a value of this type; an owner or an isolate leaves it.
pub fn take(depth: u32, regs: &mut [RegFact], a: u32, ty: Ty, kept: Kept) -> Kept
    ensures { taken depth a ty (record { kept = kept; after = regs.old }) ≡ record { kept = result; after = regs.new } }
{
    let kept = uses(depth, regs, a, ty, kept);
    leave(regs, a, ty);
    kept
}

/// Each register holds the value of one field.
pub fn take_fields(
    depth: u32,
    regs: &mut [RegFact],
    fields: &[Field],
    args: &[u32],
    kept: Kept,
) -> Kept
    ensures { takes_all depth (types_of fields.now) args.now (record { kept = kept; after = regs.old }) ≡ record { kept = result; after = regs.new } }
{
    let mut kept = kept;
    let mut left = fields;
    for a in args {
        match left {
            [] => return Kept {
                types: false,
                ..kept
            },
            [field, more @ ..] => {
                kept = take(depth, regs, *a, field.ty, kept);
                left = more;
            }
        }
    }
    if left.is_empty() {
        kept
    } else {
        Kept {
            types: false,
            ..kept
        }
    }
}

/// Each register holds an element.
pub fn take_items(depth: u32, regs: &mut [RegFact], item: Ty, args: &[u32], kept: Kept) -> Kept
    ensures { takes_all depth (replicate (length args.now) item) args.now (record { kept = kept; after = regs.old }) ≡ record { kept = result; after = regs.new } }
{
    let mut kept = kept;
    for a in args {
        kept = take(depth, regs, *a, item, kept);
    }
    kept
}

/// The value of each field comes into one register.
pub fn put_fields(
    depth: u32,
    regs: &mut [RegFact],
    fields: &[Field],
    to: &[u32],
    kept: Kept,
) -> Kept
    ensures { puts_all depth (types_of fields.now) to.now (record { kept = kept; after = regs.old }) ≡ record { kept = result; after = regs.new } }
{
    let mut kept = kept;
    let mut left = fields;
    for a in to {
        match left {
            [] => return Kept {
                types: false,
                ..kept
            },
            [field, more @ ..] => {
                kept = gets(depth, regs, *a, field.ty, kept);
                left = more;
            }
        }
    }
    if left.is_empty() {
        kept
    } else {
        Kept {
            types: false,
            ..kept
        }
    }
}
