// The locals and waiting values in scope.
ghost use Rattle.std.specs.Prelude.{◌≡◌, ◌&&◌, List, Some, option_map, if◌then◌else◌};
ghost use Rattle.vale_lowering_objects.specs.Scopes.{Entry, find, is_gone, same_gone, same_truth};
ghost use Rattle.vale_model.specs.Runs.{has_name};
ghost use Rattle.vale_lower_flow.specs.Entries.{entry_of, framed, entries, gone_of, all_same};
ghost use Rattle.vale_lower_flow.specs.Kept.{or_else};

use crate::gone::Gone;
use vale_base::Name;

/// A local, or a value that waits for the rest of its expression and has no name: its register, and whether it is an owner
/// or an isolate.
#[derive(Clone, Copy)]
pub struct Local {
    pub name: Option<Name>,
    pub register: u32,
    pub owned: bool,
}

impl Local {
    fn is_named(&self, name: Name) -> bool
        ensures { result ≡ has_name name.0 (entry_of self.now).name }
    {
        match self.name {
            Some(own) => own.0 == name.0,
            None => false,
        }
    }
}

/// What is in scope: the locals of a block so far, the last last, and what is outside of it.
#[derive(Drop)]
pub enum Scope<'a> {
    Outside,
    Frame(&'a [Local], &'a Scope<'a>),
}

// The local where it has the name, or else what was found before.
fn later(local: &Local, name: Name, found: Option<Local>) -> Option<Local>
    ensures { result ≡ (if has_name name.0 (entry_of local.now).name then Some local.now else found) }
{
    if local.is_named(name) {
        Some(*local)
    } else {
        found
    }
}

// The last of them that has the name.
fn last_named(locals: &[Local], name: Name) -> Option<Local>
    ensures { (outer : List Entry) → find name.0 (framed locals.now outer) ≡ or_else (option_map entry_of result) (find name.0 outer) }
{
    let mut found = None;
    for local in locals {
        found = later(local, name, found);
    }
    found
}

/// The local that the name stands for.
pub fn find<'a>(name: Name, scope: &'a Scope<'a>) -> Option<Local>
    ensures { option_map entry_of result ≡ find name.0 (entries scope.now) }
{
    match scope {
        Scope::Outside => None,
        Scope::Frame(locals, outer) => match last_named(locals, name) {
            Some(local) => Some(local),
            None => find(name, outer),
        },
    }
}

fn same(one: bool, other: bool) -> bool
    ensures { result ≡ same_truth one other }
{
    if one { other } else { !other }
}

fn all_same(locals: &[Local], one: &Gone, other: &Gone) -> bool
    ensures { result ≡ all_same locals.now (gone_of one.now) (gone_of other.now) }
{
    for local in locals {
        if !same(one.has(local.register), other.has(local.register)) {
            return false;
        }
    }
    true
}

fn both(one: bool, other: bool) -> bool
    ensures { result ≡ (one && other) }
{
    one && other
}

/// Whether two ways have moved the same locals.
#[tactic(auto, using(crate::proofs::ScopeLaws::same_framed))]
pub fn same_gone<'a>(scope: &'a Scope<'a>, one: &Gone, other: &Gone) -> bool
    ensures { result ≡ same_gone (entries scope.now) (gone_of one.now) (gone_of other.now) }
{
    match scope {
        Scope::Outside => true,
        Scope::Frame(locals, outer) => {
            let here = all_same(locals, one, other);
            both(here, same_gone(outer, one, other))
        }
    }
}
