// The spot at which the value of an expression is dropped.
ghost use Rattle.std.specs.Prelude.{◌≡◌, map};
ghost use Rattle.vale_core.specs.View.{view_expr, view_form, view_step, view_link, links_of, steps_of};
ghost use Rattle.vale_model.specs.Expressions.{expr_spot, form_spot, step_spot, steps_spot, links_spot};

use sqlite_items::{Boxed, Items};
use vale_base::Spot;
use vale_core::{Expr, Form, Link, Node, Step};

#[tactic(auto, using(crate::proofs::SpotLaws::forms))]
fn spot_of_form(form: &Form) -> Spot
    ensures { result ≡ form_spot (view_form form.now) }
{
    match form {
        Form::If(at, _, _, _, _) => *at,
        Form::Pure(at, _) => *at,
        Form::ParallelRange(at, _, _, _, _) => *at,
        Form::ParallelEach(at, _, _, _) => *at,
    }
}

#[tactic(auto, using(crate::proofs::SpotLaws::steps))]
fn spot_of_step(step: &Step) -> Spot
    ensures { result ≡ step_spot (view_step step.now) }
{
    match step {
        Step::Field(_, _, _, at, _) => *at,
        Step::Method(_, _, at, _, _) => *at,
        Step::Index(_, _, at, _) => *at,
    }
}

// That of the last step, and else this.
fn spot_of_steps(at: Spot, steps: &Items<Step>) -> Spot
    ensures { result ≡ steps_spot at (steps_of (map view_step steps.now)) }
{
    let mut last = at;
    let slice = steps.as_slice();
    for step in slice {
        last = spot_of_step(step);
    }
    last
}

// That of the last operator, and else this.
#[tactic(auto, using(crate::proofs::SpotLaws::links))]
fn spot_of_links(at: Spot, links: &Items<Link>) -> Spot
    ensures { result ≡ links_spot at (links_of (map view_link links.now)) }
{
    let mut last = at;
    let slice = links.as_slice();
    for link in slice {
        last = link.at;
    }
    last
}

/// The spot of an expression: that of its last operator or step, where it has one.
#[tactic(auto, using(crate::proofs::SpotLaws::nodes))]
pub fn spot_of(expr: &Expr) -> Spot
    ensures { result ≡ expr_spot (view_expr expr.now) }
{
    match &expr.node {
        Node::Set(at, _, _) => *at,
        Node::Chain(first, links) => spot_of_links(spot_of(first.get()), links),
        Node::Unary(at, _, _) => *at,
        Node::Steps(base, steps) => spot_of_steps(spot_of(base.get()), steps),
        Node::Number(at, _) => *at,
        Node::Quote(at, _) => *at,
        Node::Truth(at, _) => *at,
        Node::Name { name, .. } => name.at,
        Node::Call(name, _, _) => name.at,
        Node::Paren(at, _) => *at,
        Node::Array(at, _, _) => *at,
        Node::Iso(at, _) => *at,
        Node::Form(form) => spot_of_form(form.get()),
    }
}
