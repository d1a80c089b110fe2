// What the built-in functions take and give.
ghost use Rattle.std.specs.Prelude.{◌≡◌, map, IfOk};
ghost use Rattle.vale_rules_spec.specs.Types as y;
ghost use Rattle.vale_rules_spec.specs.Types.{same};
ghost use Rattle.vale_rules_spec.specs.TypeRules.{arity, takes_arguments, may_push, is_array_ref, popped, built_in_gives};
ghost use Rattle.vale_core.specs.View.{view_ty};
ghost use Rattle.vale_lookup.specs.Table.{items_of};

use crate::fitting::{fits, is_int};
use std::alloc::Global;
use vale_base::Memory;
use vale_core::Ty;
use vale_lookup::Table;
use vale_syntax::BuiltIn;

/// How many arguments it takes.
pub fn arity(function: BuiltIn) -> usize
    ensures { result ≡ arity function }
{
    match function {
        BuiltIn::Push | BuiltIn::Byte => 2,
        BuiltIn::Slice => 3,
        BuiltIn::Print | BuiltIn::Println | BuiltIn::Drop | BuiltIn::Len => 1,
        BuiltIn::Pop | BuiltIn::Text | BuiltIn::IsNumber | BuiltIn::Number => 1,
    }
}

fn is_str(ty: &Ty) -> bool
    ensures { result ≡ same (view_ty ty.now) y.str }
{
    matches!(ty, Ty::Str)
}

#[tactic(auto, using(vale_seen::proofs::TyLaws::types))]
fn is_array_ref(ty: &Ty) -> bool
    ensures { result ≡ is_array_ref (view_ty ty.now) }
{
    match ty {
        Ty::Ref(to) | Ty::Imm(to) => matches!(to.get(), Ty::Array(_)),
        _ => false,
    }
}

#[tactic(auto, using(vale_seen::proofs::TyLaws::types))]
fn may_push(table: &Table, array: &Ty, ty: &Ty) -> bool
    ensures { result ≡ may_push (items_of table.now) (view_ty array.now) (view_ty ty.now) }
{
    match array {
        Ty::Ref(to) | Ty::Imm(to) => match to.get() {
            Ty::Array(element) => fits(table, ty, element.get()),
            _ => false,
        },
        _ => false,
    }
}

/// Whether it takes arguments of these types.
pub fn takes_arguments(table: &Table, function: BuiltIn, args: &[Ty]) -> bool
    ensures { result ≡ takes_arguments (items_of table.now) function (map view_ty args.now) }
{
    match function {
        BuiltIn::Print | BuiltIn::Println => match args {
            [ty] => ty.is_copy(),
            _ => false,
        },
        BuiltIn::Drop => match args {
            [ty] => ty.is_owned(),
            _ => false,
        },
        BuiltIn::Len => match args {
            [ty] => is_str(ty) || is_array_ref(ty),
            _ => false,
        },
        BuiltIn::Push => match args {
            [array, ty] => may_push(table, array, ty),
            _ => false,
        },
        BuiltIn::Pop => match args {
            [ty] => is_array_ref(ty),
            _ => false,
        },
        BuiltIn::Text => match args {
            [ty] => is_int(ty),
            _ => false,
        },
        BuiltIn::Slice => match args {
            [text, from, to] => is_str(text) && is_int(from) && is_int(to),
            _ => false,
        },
        BuiltIn::Byte => match args {
            [text, index] => is_str(text) && is_int(index),
            _ => false,
        },
        BuiltIn::IsNumber | BuiltIn::Number => match args {
            [ty] => is_str(ty),
            _ => false,
        },
    }
}

/// What `pop` gives.
#[tactic(auto, using(vale_seen::proofs::TyLaws::types))]
fn popped(alloc: Global, ty: &Ty) -> Result<Ty, Memory>
    ensures { IfOk result (λ x. view_ty x ≡ popped (view_ty ty.now)) }
{
    match ty {
        Ty::Ref(to) | Ty::Imm(to) => match to.get() {
            Ty::Array(element) => element.get().copy(alloc),
            _ => Ok(Ty::Void),
        },
        _ => Ok(Ty::Void),
    }
}

/// What it gives for arguments of these types.
#[tactic(auto, using(vale_seen::proofs::TyLaws::types))]
pub fn built_in_gives(alloc: Global, function: BuiltIn, args: &[Ty]) -> Result<Ty, Memory>
    ensures { IfOk result (λ x. view_ty x ≡ built_in_gives function (map view_ty args.now)) }
{
    match function {
        BuiltIn::Len | BuiltIn::Byte | BuiltIn::Number => Ok(Ty::Int),
        BuiltIn::Pop => match args {
            [ty] => popped(alloc, ty),
            _ => Ok(Ty::Void),
        },
        BuiltIn::Text | BuiltIn::Slice => Ok(Ty::Str),
        BuiltIn::IsNumber => Ok(Ty::Bool),
        BuiltIn::Print | BuiltIn::Println | BuiltIn::Drop | BuiltIn::Push => Ok(Ty::Void),
    }
}
