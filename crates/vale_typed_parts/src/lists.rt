// What there is of a list of parts whose walk is under way.
ghost use Rattle.std.specs.Prelude.{◌≡◌, ◌∷◌, ◌++◌, [], None, List, IfOk, OnOk};
ghost use Rattle.vale_rules_spec.specs.Types as y;
ghost use Rattle.vale_rules_spec.specs.Typed.{link_seen, step_seen};
ghost use Rattle.vale_rules_spec.specs.Typing.{after};
ghost use Rattle.vale_core.specs.View.{view_seen, view_link, view_step, view_stmt};
ghost use Rattle.vale_seen.specs.Scope.{framed};
ghost use Rattle.vale_typed_parts.specs.Walk.{env_at};

use crate::names::declare_all;
use sqlite_items::Items;
use std::alloc::Global;
use vale_base::{Memory, Name};
use vale_core::{Link, Seen, Step, Stmt};
use vale_held::Held;
use vale_seen::{Local, copy_seen, link_seen, step_seen};

/// An empty list with room for so many parts: it takes no more than they do.
pub fn room_for<T>(alloc: Global, count: usize) -> Result<Items<T>, Memory>
    ensures { IfOk result (λ parts. parts ≡ []) }
{
    Ok(Items::from_vec(Vec::with_capacity(alloc, count)?))
}

/// Operators with their operands, and what is known of what stands before the next.
#[derive(Drop)]
pub struct TypedLinks {
    pub before: Held<Seen>,
    pub done: Items<Link>,
}

impl TypedLinks {
    /// For so many operators.
    pub fn new(alloc: Global, count: usize, start: &Seen) -> Result<Self, Memory>
        ensures before { IfOk result (λ s. s.before ≡ start.now) }
        ensures done { IfOk result (λ s. s.done ≡ []) }
    {
        let before = Held::new(copy_seen(alloc, start)?);
        let done = room_for(alloc, count)?;
        Ok(TypedLinks { before, done })
    }

    pub fn push(&mut self, alloc: Global, link: Held<Link>) -> Result<(), Memory>
        ensures before { OnOk result (view_seen self.new.before ≡ link_seen (view_link link)) }
        ensures done { OnOk result (self.new.done ≡ self.old.done ++ link ∷ []) }
    {
        self.before = Held::new(copy_seen(alloc, link_seen(link.get()))?);
        Ok(self.done.push(link.into_inner())?)
    }
}

/// Steps, the local that the next starts from, where it starts from one, and what is known of what it starts from.
#[derive(Drop)]
pub struct TypedSteps {
    pub local: Option<Name>,
    pub base: Held<Seen>,
    pub done: Items<Step>,
}

impl TypedSteps {
    /// For so many steps.
    pub fn new(
        alloc: Global,
        count: usize,
        local: Option<Name>,
        start: &Seen,
    ) -> Result<Self, Memory>
        ensures local { IfOk result (λ s. s.local ≡ local) }
        ensures base { IfOk result (λ s. s.base ≡ start.now) }
        ensures done { IfOk result (λ s. s.done ≡ []) }
    {
        let base = Held::new(copy_seen(alloc, start)?);
        let done = room_for(alloc, count)?;
        Ok(TypedSteps { local, base, done })
    }

    pub fn push(&mut self, alloc: Global, step: Held<Step>) -> Result<(), Memory>
        ensures local { OnOk result (self.new.local ≡ None) }
        ensures base { OnOk result (view_seen self.new.base ≡ step_seen (view_step step)) }
        ensures done { OnOk result (self.new.done ≡ self.old.done ++ step ∷ []) }
    {
        self.local = None;
        self.base = Held::new(copy_seen(alloc, step_seen(step.get()))?);
        Ok(self.done.push(step.into_inner())?)
    }
}

/// Statements, and the locals that they leave after.
#[derive(Drop)]
pub struct TypedStmts {
    pub locals: Vec<Local>,
    pub done: Items<Stmt>,
}

impl TypedStmts {
    /// For so many statements.
    pub fn new(alloc: Global, count: usize) -> Result<Self, Memory>
        ensures locals { IfOk result (λ s. s.locals.items ≡ []) }
        ensures done { IfOk result (λ s. s.done ≡ []) }
    {
        let done = room_for(alloc, count)?;
        let locals = Vec::new(alloc);
        Ok(TypedStmts { locals, done })
    }

    /// One more, at this depth.
    pub fn push(&mut self, alloc: Global, depth: u32, stmt: Held<Stmt>) -> Result<(), Memory>
        ensures locals { OnOk result ((gives : y.Ty) (outer : List y.Local) → after (view_stmt stmt) (env_at gives depth (framed self.old.locals.items outer)) ≡ env_at gives depth (framed self.new.locals.items outer)) }
        ensures done { OnOk result (self.new.done ≡ self.old.done ++ stmt ∷ []) }
    {
        declare_all(alloc, depth, &mut self.locals, stmt.get())?;
        Ok(self.done.push(stmt.into_inner())?)
    }
}
