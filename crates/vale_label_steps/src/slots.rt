// What is known at a place: which registers hold what.
ghost use Rattle.std.specs.Prelude.{◌≡◌, ◌||◌};
ghost use Rattle.vale_core.specs.View.{view_ty};
ghost use Rattle.vale_lowering.specs.Scopes.{place_of, code_type};
ghost use Rattle.vale_lower_facts.specs.Slots as s;
ghost use Rattle.vale_label_steps.specs.Standing.{framed, slots_of};
ghost use Rattle.vale_label_steps.specs.Shapes.{is_found};

use vale_base::Name;
use vale_code::Ty as CodeTy;
use vale_core::{Expr, Ty};

/// A local, its register, and the type of what it holds.
#[derive(Drop)]
pub struct Local {
    pub name: Name,
    pub register: u32,
    pub ty: Ty,
}

/// The registers that hold a value, innermost last.
#[derive(Drop)]
pub enum Slots<'a> {
    Outside,
    /// The locals of a block so far, the last last, and what is outside of it.
    Frame(&'a [Local], &'a Slots<'a>),
    /// From the register on the values of these, which wait for the rest of their call, and what is outside of it.
    Waits(u32, &'a [Expr], &'a Slots<'a>),
    /// A register with a value of this type at hand.
    Holds(u32, &'a Ty, &'a Slots<'a>),
}

/// Where a node of a body stands.
#[derive(Drop)]
pub struct Standing<'a> {
    /// The next free register, to which the node's value goes.
    pub next: u32,
    /// The registers that hold a value.
    pub slots: &'a Slots<'a>,
    /// Whether the function has returned on every way before.
    pub over: bool,
    /// Whether the function gives a value.
    pub returns: bool,
}

/// The code's type of the values.
pub fn code_type(ty: &Ty) -> CodeTy
    ensures { result ≡ code_type (view_ty ty.now) }
{
    match ty {
        Ty::Int => CodeTy::Int,
        Ty::Bool => CodeTy::Truth,
        Ty::Str => CodeTy::Text,
        Ty::Void | Ty::Kind(_) | Ty::Array(_) | Ty::Ref(_) | Ty::Imm(_) | Ty::Iso(_) => {
            CodeTy::Void
        }
    }
}

// Whether one of them has the name.
fn is_among(locals: &[Local], name: Name) -> bool
    ensures { (outer : s.Slots) → is_found (place_of name.0 (s.scope_of (framed locals.now outer))) ≡ (result || is_found (place_of name.0 (s.scope_of outer))) }
{
    match locals {
        [] => false,
        [first, more @ ..] => {
            if is_among(more, name) {
                true
            } else {
                first.name.0 == name.0
            }
        }
    }
}

/// Whether the name stands for a local.
#[tactic(auto, using(crate::proofs::SlotLaws::waited_names))]
pub fn is_local<'a>(name: Name, slots: &'a Slots<'a>) -> bool
    ensures { result ≡ is_found (place_of name.0 (s.scope_of (slots_of slots.now))) }
{
    match slots {
        Slots::Outside => false,
        Slots::Frame(locals, outer) => {
            if is_among(locals, name) {
                true
            } else {
                is_local(name, outer)
            }
        }
        Slots::Waits(_, _, outer) => is_local(name, outer),
        Slots::Holds(_, _, outer) => is_local(name, outer),
    }
}
