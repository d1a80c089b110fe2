// What is set.
ghost use Rattle.std.specs.Prelude.{◌≡◌, option_map};
ghost use Rattle.vale_core.specs.View.{view_expr};
ghost use Rattle.vale_lower_stmts.specs.Placed.{place_of, view_place, set_local};

use vale_base::Name;
use vale_core::{Expr, Node};

/// What a `set` sets: a local, what steps lead to, or nothing that can be set.
#[derive(Clone, Copy)]
pub enum Place {
    Local(Name),
    Steps,
    Nothing,
}

/// What the expression is as the place of a `set`.
#[tactic(auto, using(crate::proofs::PlacedLaws::nodes))]
pub fn place_of(expr: &Expr) -> Place
    ensures { view_place result ≡ place_of (view_expr expr.now) }
{
    match &expr.node {
        Node::Name { name, .. } => Place::Local(name.name),
        Node::Steps(..) => Place::Steps,
        Node::Set(..)
        | Node::Chain(..)
        | Node::Unary(..)
        | Node::Number(..)
        | Node::Quote(..)
        | Node::Truth(..)
        | Node::Call(..)
        | Node::Paren(..)
        | Node::Array(..)
        | Node::Iso(..)
        | Node::Form(..) => Place::Nothing,
    }
}

/// The local that the expression sets.
#[tactic(auto, using(crate::proofs::PlacedLaws::sets))]
pub fn set_local(expr: &Expr) -> Option<Name>
    ensures { option_map (λ n. n.0) result ≡ set_local (view_expr expr.now) }
{
    match &expr.node {
        Node::Set(_, place, _) => match place_of(place.get()) {
            Place::Local(name) => Some(name),
            Place::Steps | Place::Nothing => None,
        },
        Node::Name { .. }
        | Node::Steps(..)
        | Node::Chain(..)
        | Node::Unary(..)
        | Node::Number(..)
        | Node::Quote(..)
        | Node::Truth(..)
        | Node::Call(..)
        | Node::Paren(..)
        | Node::Array(..)
        | Node::Iso(..)
        | Node::Form(..) => None,
    }
}
