// The kinds of a program's objects and their numbers.
ghost use Rattle.std.specs.Prelude.{◌≡◌, ◌+◌, ℕ, [], length, map, IfOk, OnOk};
ghost use Rattle.std.specs.List.{list_any};
ghost use Rattle.vale_rules_spec.specs.Types as y;
ghost use Rattle.vale_rules_spec.specs.Types.{same};
ghost use Rattle.vale_core.specs.View.{view_ty};
ghost use Rattle.vale_model.specs.Kinds.{arrays_in};
ghost use Rattle.vale_model.specs.Parts.{place_of_kind};
ghost use Rattle.vale_lower_kinds.specs.Added.{put_type, added, kind_types};
ghost use Rattle.vale_lower_kinds.specs.Held.{kinds_in, elements_in, named_in};

use crate::named::Named;
use std::alloc::Global;
use vale_base::{Memory, Name};
use vale_core::Ty;

/// The kinds of a program's objects, each once: its structs and interfaces, and then its array types, by their elements.
#[derive(Drop)]
pub struct Kinds {
    pub named: Named,
    pub elements: Vec<Ty>,
}

// Two numbers as one. One that is 2^32 or more is want of memory.
fn both(one: usize, other: usize) -> Result<u32, Memory>
    ensures { IfOk result (λ n. n ≡ one + other) }
{
    if one > u32::MAX as usize || other > u32::MAX as usize {
        return Err(Memory);
    }
    let sum = one as u64 + other as u64;
    if sum > u64::from(u32::MAX) {
        return Err(Memory);
    }
    Ok(sum as u32)
}

impl Kinds {
    /// No array types yet. It takes no memory.
    pub fn of(alloc: Global, named: Named) -> Self
        ensures { kinds_in result ≡ kind_types (named_in named) }
    {
        Kinds {
            named,
            elements: Vec::new(alloc),
        }
    }

    // Where arrays of these elements stand among the array types, or how many of them there are.
    fn place_of_array(&self, element: &Ty) -> usize
        ensures { result ≡ place_of_kind (view_ty element.now) (elements_in self.now) }
    {
        for (at, own) in self.elements.iter().enumerate() {
            if element.is_same(own) {
                return at;
            }
        }
        self.elements.len()
    }

    // The type of arrays of these elements, where it is new.
    #[tactic(auto, using(crate::proofs::KindLaws::puts))]
    fn add_array(&mut self, alloc: Global, element: &Ty) -> Result<(), Memory>
        ensures { OnOk result (kinds_in self.new ≡ put_type (kinds_in self.old) (y.array (view_ty element.now))) }
    {
        if self.place_of_array(element) < self.elements.len() {
            return Ok(());
        }
        self.elements.push(element.copy(alloc)?)?;
        Ok(())
    }

    /// The array types in a type, the innermost first.
    #[tactic(auto, using(crate::proofs::KindLaws::arrays))]
    pub fn add_arrays_in(&mut self, alloc: Global, ty: &Ty) -> Result<(), Memory>
        ensures { OnOk result (kinds_in self.new ≡ added (kinds_in self.old) (arrays_in (view_ty ty.now))) }
    {
        match ty {
            Ty::Void | Ty::Int | Ty::Bool | Ty::Str | Ty::Kind(_) => Ok(()),
            Ty::Array(element) => {
                self.add_arrays_in(alloc, element.get())?;
                self.add_array(alloc, element.get())
            }
            Ty::Ref(to) | Ty::Imm(to) | Ty::Iso(to) => self.add_arrays_in(alloc, to.get()),
        }
    }

    // How many kinds there are.
    fn past(&self) -> Result<u32, Memory>
        ensures { IfOk result (λ n. n ≡ length (named_in self.now.named) + length (elements_in self.now)) }
    {
        both(self.named.count(), self.elements.len())
    }

    #[tactic(auto, using(crate::proofs::KindLaws::names))]
    fn number_of_name(&self, name: Name) -> Result<u32, Memory>
        ensures { IfOk result (λ n. n ≡ place_of_kind (y.kind name.0) (kinds_in self.now)) }
    {
        match self.named.place(name) {
            Some(number) => Ok(number),
            None => both(self.named.count(), self.elements.len()),
        }
    }

    /// The number of the kind of the objects that an owner of this type has, or how many kinds there are, where it is none
    /// of them. One that is 2^32 or more is want of memory.
    #[tactic(auto, using(crate::proofs::KindLaws::numbers))]
    pub fn number(&self, ty: &Ty) -> Result<u32, Memory>
        ensures { IfOk result (λ n. n ≡ place_of_kind (view_ty ty.now) (kinds_in self.now)) }
    {
        match ty {
            Ty::Kind(name) => self.number_of_name(*name),
            Ty::Array(element) => both(self.named.count(), self.place_of_array(element.get())),
            Ty::Void => self.past(),
            Ty::Int => self.past(),
            Ty::Bool => self.past(),
            Ty::Str => self.past(),
            Ty::Ref(_) => self.past(),
            Ty::Imm(_) => self.past(),
            Ty::Iso(_) => self.past(),
        }
    }
}
