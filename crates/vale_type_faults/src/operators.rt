// Operators, by what is known of their operands.
ghost use Rattle.std.specs.Prelude.{◌≡◌, IfOk};
ghost use Rattle.vale_rules_spec.specs.Judged.{broken};
ghost use Rattle.vale_syntax.specs.declared.tree.UnaryOp.TheVariants as u;
ghost use Rattle.vale_rules_spec.specs.TypeRules.{have_order, have_equality, takes_operands, link_rules, link_gives, unary_rules, unary_gives, borrow_gives, is_iso, merge_gives};
ghost use Rattle.vale_core.specs.View.{view_ty, view_view, view_seen};

use std::alloc::Global;
use vale_base::Memory;
use vale_core::{Seen, Ty, View};
use vale_syntax::{BinaryOp, UnaryOp};
use vale_type_rules::{is_bool, is_int};

#[tactic(auto, using(vale_seen::proofs::TyLaws::types))]
fn have_order(ty: &Ty, other: &Ty) -> bool
    ensures { result ≡ have_order (view_ty ty.now) (view_ty other.now) }
{
    match ty {
        Ty::Int => matches!(other, Ty::Int),
        Ty::Str => matches!(other, Ty::Str),
        _ => false,
    }
}

#[tactic(auto, using(vale_seen::proofs::TyLaws::types))]
fn have_equality(ty: &Ty, other: &Ty) -> bool
    ensures { result ≡ have_equality (view_ty ty.now) (view_ty other.now) }
{
    match ty {
        Ty::Int => matches!(other, Ty::Int),
        Ty::Str => matches!(other, Ty::Str),
        Ty::Bool => matches!(other, Ty::Bool),
        _ => false,
    }
}

fn takes_operands(op: BinaryOp, ty: &Ty, other: &Ty) -> bool
    ensures { result ≡ takes_operands op (view_ty ty.now) (view_ty other.now) }
{
    match op {
        BinaryOp::Or | BinaryOp::And => is_bool(ty) && is_bool(other),
        BinaryOp::Equal | BinaryOp::NotEqual => have_equality(ty, other),
        BinaryOp::Less | BinaryOp::LessEqual | BinaryOp::Greater => have_order(ty, other),
        BinaryOp::GreaterEqual | BinaryOp::Add => have_order(ty, other),
        BinaryOp::Sub | BinaryOp::Mul | BinaryOp::Div => is_int(ty) && is_int(other),
        BinaryOp::Rem => is_int(ty) && is_int(other),
    }
}

/// An operator between operands of these types.
pub fn link_fault(op: BinaryOp, ty: &Ty, other: &Ty) -> Option<u8>
    ensures { result ≡ broken (link_rules op (view_ty ty.now) (view_ty other.now)) }
{
    if !takes_operands(op, ty, other) {
        return Some(20);
    }
    None
}

/// What the operator gives, from the type of its first operand.
#[tactic(auto, using(vale_seen::proofs::TyLaws::types))]
pub fn link_gives(alloc: Global, op: BinaryOp, ty: &Ty) -> Result<Ty, Memory>
    ensures { IfOk result (λ x. view_ty x ≡ link_gives op (view_ty ty.now)) }
{
    match op {
        BinaryOp::Add => ty.copy(alloc),
        BinaryOp::Sub | BinaryOp::Mul | BinaryOp::Div | BinaryOp::Rem => Ok(Ty::Int),
        BinaryOp::Or | BinaryOp::And | BinaryOp::Equal | BinaryOp::NotEqual => Ok(Ty::Bool),
        BinaryOp::Less | BinaryOp::LessEqual => Ok(Ty::Bool),
        BinaryOp::Greater | BinaryOp::GreaterEqual => Ok(Ty::Bool),
    }
}

#[tactic(auto, using(vale_seen::proofs::TyLaws::types))]
fn is_iso(ty: &Ty) -> bool
    ensures { result ≡ is_iso (view_ty ty.now) }
{
    matches!(ty, Ty::Iso(_))
}

/// `&p`.
fn borrow_fault(operand: &Seen) -> Option<u8>
    ensures { result ≡ broken (unary_rules u.Borrow (view_seen operand.now)) }
{
    match &operand.place {
        None => Some(23),
        Some(ty) => {
            if !ty.is_owned() {
                return Some(20);
            }
            None
        }
    }
}

/// An operator before an operand of which this is known.
pub fn unary_fault(op: UnaryOp, operand: &Seen) -> Option<u8>
    ensures { result ≡ broken (unary_rules op (view_seen operand.now)) }
{
    let is_taken = match op {
        UnaryOp::Borrow => return borrow_fault(operand),
        UnaryOp::Minus => is_int(&operand.value),
        UnaryOp::Not => is_bool(&operand.value),
        UnaryOp::Merge => is_iso(&operand.value),
    };
    if is_taken { None } else { Some(20) }
}

/// What `&p` gives, by how the place is seen.
#[tactic(auto, using(vale_seen::proofs::TyLaws::types))]
fn borrow_gives(alloc: Global, view: &View) -> Result<Ty, Memory>
    ensures { IfOk result (λ x. view_ty x ≡ borrow_gives (view_view view.now)) }
{
    match view {
        View::Blind => Ok(Ty::Void),
        View::Direct(ty) | View::Shared(ty) => Ty::reference(alloc, ty.copy(alloc)?),
        View::Frozen(ty) => Ty::frozen(alloc, ty.copy(alloc)?),
    }
}

/// What `merge` gives for an isolate of this type.
#[tactic(auto, using(vale_seen::proofs::TyLaws::types))]
fn merge_gives(alloc: Global, ty: &Ty) -> Result<Ty, Memory>
    ensures { IfOk result (λ x. view_ty x ≡ merge_gives (view_ty ty.now)) }
{
    match ty {
        Ty::Iso(root) => root.get().copy(alloc),
        _ => Ok(Ty::Void),
    }
}

/// What the operator gives, from what is known of its operand.
#[tactic(auto, using(vale_seen::proofs::TyLaws::types))]
pub fn unary_gives(alloc: Global, op: UnaryOp, operand: &Seen) -> Result<Ty, Memory>
    ensures { IfOk result (λ x. view_ty x ≡ unary_gives op (view_seen operand.now)) }
{
    match op {
        UnaryOp::Minus => Ok(Ty::Int),
        UnaryOp::Not => Ok(Ty::Bool),
        UnaryOp::Borrow => borrow_gives(alloc, &operand.view),
        UnaryOp::Merge => merge_gives(alloc, &operand.value),
    }
}
