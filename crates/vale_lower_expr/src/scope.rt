// The locals in scope and their registers.
ghost use Rattle.std.specs.Prelude.{◌≡◌, List};
ghost use Rattle.vale_lowering.specs.Scopes.{Entry, place_of};
ghost use Rattle.vale_lower_expr.specs.Entries.{framed, entries};
ghost use Rattle.vale_lower_expr.specs.Found.{or_else};

use vale_base::Name;

/// A local and its register.
#[derive(Clone, Copy, Debug, PartialEq, Eq)]
pub struct Local {
    pub name: Name,
    pub register: u32,
}

/// What is in scope, innermost last.
#[derive(Drop)]
pub enum Scope<'a> {
    Outside,
    /// The locals of a block so far, the last last, and what is outside of it.
    Frame(&'a [Local], &'a Scope<'a>),
    /// From the register on so many values that wait for the rest of their expression, and what is outside of it.
    Waiting(u32, usize, &'a Scope<'a>),
}

// The register of the last of them that has the name.
fn place_in(locals: &[Local], name: Name) -> Option<u32>
    ensures { (outer : List Entry) → place_of name.0 (framed locals.now outer) ≡ or_else result (place_of name.0 outer) }
{
    match locals {
        [] => None,
        [first, more @ ..] => match place_in(more, name) {
            Some(register) => Some(register),
            None => {
                if first.name.0 == name.0 {
                    Some(first.register)
                } else {
                    None
                }
            }
        },
    }
}

/// The register of the local that the name stands for.
#[tactic(auto, using(crate::proofs::ScopeLaws::awaited_places))]
pub fn place_of<'a>(name: Name, scope: &'a Scope<'a>) -> Option<u32>
    ensures { result ≡ place_of name.0 (entries scope.now) }
{
    match scope {
        Scope::Outside => None,
        Scope::Frame(locals, outer) => match place_in(locals, name) {
            Some(register) => Some(register),
            None => place_of(name, outer),
        },
        Scope::Waiting(_, _, outer) => place_of(name, outer),
    }
}
