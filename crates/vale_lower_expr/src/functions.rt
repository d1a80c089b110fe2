// The functions of a program and their numbers.
ghost use Rattle.std.specs.Prelude.{◌≡◌, ℕ, ◌+◌, ◌∷◌, ◌++◌, map, option_map, flat_map, length, IfOk, OnOk, Some, None, ◌==◌, ◌<◌, if◌then◌else◌};
ghost use Rattle.vale_rules_spec.specs.Types.{is_copy, type_of, result_of};
ghost use Rattle.vale_syntax.specs.View.{view_type};
ghost use Rattle.vale_core.specs.View.{view_function, view_item};
ghost use Rattle.vale_model.specs.Parts.{name_of};
ghost use Rattle.vale_model.specs.Parts as p;
ghost use Rattle.vale_lower_expr.specs.Found.{or_else};
ghost use Rattle.vale_lower_expr.specs.Numbered.{callable, callable_in, AreCallable};

use crate::shapes::agree;
use std::alloc::Global;
use std::collections::HashMap;
use vale_base::{Memory, Name};
use vale_core::{Function, Item};
use vale_syntax::TypeExpr;

/// What a call asks of a function: its number, whether it is pure, and whether it gives a value.
#[derive(Clone, Copy, Debug, PartialEq, Eq)]
pub struct Callable {
    pub number: u32,
    pub is_pure: bool,
    pub gives: bool,
}

/// The first function of each name.
#[derive(Drop)]
pub struct Callables {
    callables: HashMap<u32, Callable>,
}

impl Callables {
    /// None. It takes no memory.
    fn new(alloc: Global) -> Self
        ensures { (n : ℕ) → callable_in result n ≡ None }
    {
        Callables {
            callables: HashMap::new(alloc),
        }
    }

    /// Adds a function whose name none has yet.
    fn add(&mut self, name: Name, callable: Callable) -> Result<(), Memory>
        ensures { OnOk result ((n : ℕ) → callable_in self.new n ≡ or_else (callable_in self.old n) (if name.0 == n then Some callable else None)) }
    {
        if !self.callables.contains_key(&name.0) {
            self.callables.insert(name.0, callable)?;
        }
        Ok(())
    }

    fn named(&self, name: Name) -> Option<Callable>
        ensures { result ≡ callable_in self.now name.0 }
    {
        self.callables.get(&name.0).copied()
    }
}

// Whether values of this type are copied where they are named.
fn type_is_copy(ty: &TypeExpr) -> bool
    ensures { result ≡ is_copy (type_of (view_type ty.now)) }
{
    matches!(ty, TypeExpr::Int(_) | TypeExpr::Bool(_) | TypeExpr::Str(_))
}

/// Whether a function with this result gives a value.
pub fn gives_value(ty: &Option<TypeExpr>) -> bool
    ensures { result ≡ is_copy (result_of (option_map view_type ty.now)) }
{
    match ty {
        None => false,
        Some(ty) => type_is_copy(ty),
    }
}

fn callable_of(function: &Function, number: u32) -> Callable
    ensures { result ≡ callable number (view_function function.now) }
{
    Callable {
        number,
        is_pure: function.head.is_pure,
        gives: gives_value(&function.head.result),
    }
}

/// The functions of a program that aren't methods, in order.
#[derive(Drop)]
pub struct Functions<'p> {
    all: Vec<&'p Function>,
    callables: Callables,
    ghost are_callable: { AreCallable (map (λ g. view_function g.now) all.items) callables },
}

impl<'p> Functions<'p> {
    ghost use Rattle.vale_lower_expr.specs.Held.{functions_of, called};

    /// Those of these items. More than 2^32 - 1 are want of memory.
    pub fn new(alloc: Global, items: &'p [Item]) -> Result<Self, Memory>
        ensures { IfOk result (λ f. functions_of f ≡ flat_map p.functions_of (map view_item items.now)) }
    {
        let all = functions_in(alloc, items)?;
        if all.len() > u32::MAX as usize {
            return Err(Memory);
        }
        let callables = first_callables(alloc, &all)?;
        Ok(Functions { all, callables })
    }

    /// The functions.
    pub fn as_slice(&self) -> &[&'p Function]
        ensures { map (λ g. view_function g.now) result.now ≡ functions_of self.now }
    {
        &self.all
    }

    /// The number of the first function of the name, where it isn't pure and gives a value exactly where one is wanted.
    #[tactic(auto, using(crate::proofs::NumberLaws::called_from))]
    pub fn called(&self, name: Name, gives: bool) -> Option<u32>
        ensures { result ≡ called gives name.0 (functions_of self.now) }
    {
        match self.callables.named(name) {
            None => None,
            Some(callable) => {
                if !callable.is_pure && agree(gives, callable.gives) {
                    Some(callable.number)
                } else {
                    None
                }
            }
        }
    }
}

fn functions_in<'p>(alloc: Global, items: &'p [Item]) -> Result<Vec<&'p Function>, Memory>
    ensures { IfOk result (λ v. map (λ g. view_function g.now) v.items ≡ flat_map p.functions_of (map view_item items.now)) }
{
    let mut all = Vec::new(alloc);
    for item in items {
        if let Item::Function(function) = item {
            all.push(function)?;
        }
    }
    Ok(all)
}

// The first function of each name.
fn first_callables(alloc: Global, functions: &[&Function]) -> Result<Callables, Memory>
    requires { length functions.now < 4294967296 }
    ensures { IfOk result (λ c. AreCallable (map (λ g. view_function g.now) functions.now) c) }
{
    let mut callables = Callables::new(alloc);
    for (at, function) in functions.iter().enumerate() {
        callables.add(function.head.name.name, callable_of(function, at as u32))?;
    }
    Ok(callables)
}
