// Which types fit.
ghost use Rattle.std.specs.Prelude.{◌≡◌, map};
ghost use Rattle.std.specs.List.{list_all};
ghost use Rattle.vale_rules_spec.specs.Types.{is_object_of, fits, fits_argument};
ghost use Rattle.vale_rules_spec.specs.TypeRules.{all_fit, is_int, is_bool};
ghost use Rattle.vale_core.specs.View.{view_ty};
ghost use Rattle.vale_lookup.specs.Table.{items_of};

use vale_core::Ty;
use vale_lookup::Table;

pub fn is_int(ty: &Ty) -> bool
    ensures { result ≡ is_int (view_ty ty.now) }
{
    matches!(ty, Ty::Int)
}

pub fn is_bool(ty: &Ty) -> bool
    ensures { result ≡ is_bool (view_ty ty.now) }
{
    matches!(ty, Ty::Bool)
}

/// Whether an object of the first type is one of the second.
#[tactic(auto, using(vale_seen::proofs::TyLaws::types))]
pub fn is_object_of(table: &Table, ty: &Ty, of: &Ty) -> bool
    ensures { result ≡ is_object_of (items_of table.now) (view_ty ty.now) (view_ty of.now) }
{
    match ty {
        Ty::Kind(name) => match of {
            Ty::Kind(kind) => name.0 == kind.0 || table.implements(*name, *kind),
            _ => false,
        },
        Ty::Void | Ty::Int | Ty::Bool | Ty::Str => ty.is_same(of),
        Ty::Array(_) | Ty::Ref(_) | Ty::Imm(_) | Ty::Iso(_) => ty.is_same(of),
    }
}

/// Whether a value of the first type serves where the second is asked for.
#[tactic(auto, using(vale_seen::proofs::TyLaws::types))]
pub fn fits(table: &Table, ty: &Ty, asked: &Ty) -> bool
    ensures { result ≡ fits (items_of table.now) (view_ty ty.now) (view_ty asked.now) }
{
    match ty {
        Ty::Kind(_) => is_object_of(table, ty, asked),
        Ty::Ref(x) => match asked {
            Ty::Ref(y) => is_object_of(table, x.get(), y.get()),
            _ => false,
        },
        Ty::Imm(x) => match asked {
            Ty::Imm(y) | Ty::Ref(y) => is_object_of(table, x.get(), y.get()),
            _ => false,
        },
        Ty::Iso(x) => match asked {
            Ty::Iso(y) => is_object_of(table, x.get(), y.get()),
            _ => false,
        },
        Ty::Void | Ty::Int | Ty::Bool | Ty::Str | Ty::Array(_) => ty.is_same(asked),
    }
}

/// Whether a value of the first type serves as an argument, of a pure function or another, where the second is asked for.
#[tactic(auto, using(vale_seen::proofs::TyLaws::types))]
pub fn fits_argument(table: &Table, is_pure: bool, ty: &Ty, asked: &Ty) -> bool
    ensures { result ≡ fits_argument (items_of table.now) is_pure (view_ty ty.now) (view_ty asked.now) }
{
    if is_pure {
        match ty {
            Ty::Ref(x) => match asked {
                Ty::Imm(y) => is_object_of(table, x.get(), y.get()),
                _ => fits(table, ty, asked),
            },
            _ => fits(table, ty, asked),
        }
    } else {
        fits(table, ty, asked)
    }
}

/// Whether each fits what is taken, one for one.
pub fn all_fit(table: &Table, is_pure: bool, args: &[Ty], takes: &[Ty]) -> bool
    ensures { result ≡ all_fit (items_of table.now) is_pure (map view_ty args.now) (map view_ty takes.now) }
{
    let mut left = takes;
    for arg in args {
        match left {
            [] => return false,
            [taken, more @ ..] => {
                if !fits_argument(table, is_pure, arg, taken) {
                    return false;
                }
                left = more;
            }
        }
    }
    left.is_empty()
}

/// Whether each fits the type.
pub fn each_fits(table: &Table, asked: &Ty, args: &[Ty]) -> bool
    ensures { result ≡ list_all (λ a. fits (items_of table.now) a (view_ty asked.now)) (map view_ty args.now) }
{
    for arg in args {
        if !fits(table, arg, asked) {
            return false;
        }
    }
    true
}
