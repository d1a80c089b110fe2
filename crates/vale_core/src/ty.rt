//! The types of values.

ghost use Rattle.std.specs.Prelude.{◌≡◌, IfOk};
ghost use Rattle.vale_rules_spec.specs.Types.{same, is_void, is_copy, is_owner, is_owned, has_iso, kind_in};
ghost use Rattle.vale_core.specs.Plain.{number_of};
ghost use Rattle.vale_core.specs.View.{view_ty};

use sqlite_items::Boxed;
use std::alloc::Global;
use vale_base::{Memory, Name};

/// The type of a value, wherever it was written.
#[derive(Drop)]
pub enum Ty {
    /// What a function without a result gives.
    Void,
    Int,
    Bool,
    Str,
    /// An owner of a struct's object or an interface's.
    Kind(Name),
    /// An owner of an array, by the type of its elements.
    Array(Boxed<Ty>),
    /// `&X`.
    Ref(Boxed<Ty>),
    /// `&imm X`.
    Imm(Boxed<Ty>),
    /// `iso X`.
    Iso(Boxed<Ty>),
}

impl Ty {
    /// The same type once more.
    pub fn copy(&self, alloc: Global) -> Result<Ty, Memory>
        ensures { IfOk result (λ x. x ≡ self.now) }
    {
        match self {
            Ty::Void => Ok(Ty::Void),
            Ty::Int => Ok(Ty::Int),
            Ty::Bool => Ok(Ty::Bool),
            Ty::Str => Ok(Ty::Str),
            Ty::Kind(name) => Ok(Ty::Kind(*name)),
            Ty::Array(element) => Ok(Ty::Array(Boxed::new(alloc, element.get().copy(alloc)?)?)),
            Ty::Ref(to) => Ok(Ty::Ref(Boxed::new(alloc, to.get().copy(alloc)?)?)),
            Ty::Imm(to) => Ok(Ty::Imm(Boxed::new(alloc, to.get().copy(alloc)?)?)),
            Ty::Iso(root) => Ok(Ty::Iso(Boxed::new(alloc, root.get().copy(alloc)?)?)),
        }
    }

    /// Whether the two are equal.
    pub fn is_same(&self, other: &Ty) -> bool
        ensures { result ≡ same (view_ty self.now) (view_ty other.now) }
    {
        match self {
            Ty::Void => matches!(other, Ty::Void),
            Ty::Int => matches!(other, Ty::Int),
            Ty::Bool => matches!(other, Ty::Bool),
            Ty::Str => matches!(other, Ty::Str),
            Ty::Kind(name) => match other {
                Ty::Kind(n) => name.0 == n.0,
                _ => false,
            },
            Ty::Array(element) => match other {
                Ty::Array(e) => element.get().is_same(e.get()),
                _ => false,
            },
            Ty::Ref(to) => match other {
                Ty::Ref(t) => to.get().is_same(t.get()),
                _ => false,
            },
            Ty::Imm(to) => match other {
                Ty::Imm(t) => to.get().is_same(t.get()),
                _ => false,
            },
            Ty::Iso(root) => match other {
                Ty::Iso(r) => root.get().is_same(r.get()),
                _ => false,
            },
        }
    }

    pub fn is_void(&self) -> bool
        ensures { result ≡ is_void (view_ty self.now) }
    {
        matches!(self, Ty::Void)
    }

    /// Whether its values are copied where they are named: numbers, truths and texts.
    pub fn is_copy(&self) -> bool
        ensures { result ≡ is_copy (view_ty self.now) }
    {
        matches!(self, Ty::Int | Ty::Bool | Ty::Str)
    }

    pub fn is_owner(&self) -> bool
        ensures { result ≡ is_owner (view_ty self.now) }
    {
        matches!(self, Ty::Kind(_) | Ty::Array(_))
    }

    /// Whether naming it as a value moves it: an owner or an isolate.
    pub fn is_owned(&self) -> bool
        ensures { result ≡ is_owned (view_ty self.now) }
    {
        matches!(self, Ty::Kind(_) | Ty::Array(_) | Ty::Iso(_))
    }

    /// Whether `iso` stands in it.
    pub fn has_iso(&self) -> bool
        ensures { result ≡ has_iso (view_ty self.now) }
    {
        match self {
            Ty::Void | Ty::Int | Ty::Bool | Ty::Str | Ty::Kind(_) => false,
            Ty::Array(element) => element.get().has_iso(),
            Ty::Ref(to) => to.get().has_iso(),
            Ty::Imm(to) => to.get().has_iso(),
            Ty::Iso(_) => true,
        }
    }

    /// The struct or interface that stands in it.
    pub fn kind_in(&self) -> Option<Name>
        ensures { number_of result ≡ kind_in (view_ty self.now) }
    {
        match self {
            Ty::Void | Ty::Int | Ty::Bool | Ty::Str => None,
            Ty::Kind(name) => Some(*name),
            Ty::Array(element) => element.get().kind_in(),
            Ty::Ref(to) => to.get().kind_in(),
            Ty::Imm(to) => to.get().kind_in(),
            Ty::Iso(root) => root.get().kind_in(),
        }
    }
}
