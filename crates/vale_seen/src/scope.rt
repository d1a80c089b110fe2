// The visible locals.
ghost use Rattle.std.specs.Prelude.{◌≡◌, ◌==◌, ◌&&◌, option_map, List, IfOk};
ghost use Rattle.vale_rules_spec.specs.Types as y;
ghost use Rattle.vale_rules_spec.specs.Types.{local_of, local_seen, is_outer, is_movable, is_visible};
ghost use Rattle.vale_core.specs.View.{view_ty, view_seen};
ghost use Rattle.vale_seen.specs.Scope.{view_local, framed, locals};
ghost use Rattle.std.specs.Option.{option_or};

use crate::seen::{as_frozen, view_here};
use crate::ty::object_of;
use std::alloc::Global;
use vale_base::{Memory, Name};
use vale_core::{Seen, Ty};
use vale_syntax::NameAt;

/// A local: its name, its type, and the number of `pure`, `iso` and parallel blocks round its declaration.
#[derive(Drop)]
pub struct Local {
    pub name: Name,
    pub ty: Ty,
    pub depth: u32,
}

/// The locals of a block so far, the last last, and those outside of it.
#[derive(Drop)]
pub enum Scope<'a> {
    Outside,
    Frame(&'a [Local], &'a Scope<'a>),
}

/// The last of them that has the name.
fn local_in(locals: &[Local], name: Name) -> Option<&Local>
    ensures { (outer : List y.Local) → local_of name.0 (framed locals.now outer) ≡ option_or (option_map (λ l. view_local l.now) result) (local_of name.0 outer) }
{
    match locals {
        [] => None,
        [first, more @ ..] => match local_in(more, name) {
            Some(local) => Some(local),
            None => {
                if first.name.0 == name.0 {
                    Some(first)
                } else {
                    None
                }
            }
        },
    }
}

/// The local that the name stands for.
pub fn local_of<'a>(scope: &'a Scope<'a>, name: Name) -> Option<&'a Local>
    ensures { option_map (λ l. view_local l.now) result ≡ local_of name.0 (locals scope.now) }
{
    match scope {
        Scope::Outside => None,
        Scope::Frame(locals, outer) => match local_in(locals, name) {
            Some(local) => Some(local),
            None => local_of(outer, name),
        },
    }
}

/// Whether a local has the name.
pub fn is_visible<'a>(scope: &'a Scope<'a>, name: NameAt) -> bool
    ensures { result ≡ is_visible name (locals scope.now) }
{
    local_of(scope, name.name).is_some()
}

/// How the local is seen from this depth.
pub fn local_seen(alloc: Global, depth: u32, local: &Local) -> Result<Seen, Memory>
    ensures { IfOk result (λ s. view_seen s ≡ local_seen depth (view_local local.now)) }
{
    let ty = local.ty.copy(alloc)?;
    if local.depth == depth {
        Ok(Seen {
            value: local.ty.copy(alloc)?,
            view: view_here(alloc, &local.ty)?,
            place: Some(ty),
        })
    } else {
        let object = object_of(alloc, &ty)?;
        as_frozen(alloc, ty, object)
    }
}

/// Whether it was declared outside of the innermost `pure`, `iso` or parallel block.
pub fn is_outer(depth: u32, local: &Local) -> bool
    ensures { result ≡ is_outer depth (view_local local.now) }
{
    local.depth != depth
}

// Whether naming the local as a value moves it.
fn is_movable(depth: u32, local: &Local) -> bool
    ensures { result ≡ is_movable depth (view_local local.now) }
{
    local.ty.is_owned() && local.depth == depth
}

/// Whether naming the local, as a value or not, moves it.
pub fn is_moved(as_value: bool, depth: u32, local: &Local) -> bool
    ensures { result ≡ (as_value && is_movable depth (view_local local.now)) }
{
    as_value && is_movable(depth, local)
}
