// Small things that a walk asks of parts.
ghost use Rattle.std.specs.Prelude.{◌≡◌, map, option_map};
ghost use Rattle.vale_rules_spec.specs.Types as y;
ghost use Rattle.vale_core.specs.View.{view_expr, view_view, view_step, exprs_of};
ghost use Rattle.vale_lowering_objects.specs.Lowered.{first_type, step_view};
ghost use Rattle.vale_lowering_objects.specs.Scopes as s;
ghost use Rattle.vale_lower_flow.specs.Entries.{entry_of};
ghost use Rattle.vale_lower_flow.specs.Kept.{view_gives};
ghost use Rattle.vale_lower_places.specs.Origins.{is_text};
ghost use Rattle.vale_lower_parts.specs.Named.{unmoved};

use vale_base::Name;
use vale_core::{Expr, Node, Step, Ty, View};
use vale_lower_flow::{Gives, Local};

/// A value that waits in the register.
pub fn waiting(register: u32, gives: Gives) -> Local
    ensures { entry_of result ≡ s.waiting register (view_gives gives) }
{
    Local {
        name: None,
        register,
        owned: gives.is_owner(),
    }
}

/// A local in the register.
pub fn declared(name: Name, register: u32, gives: Gives) -> Local
    ensures { entry_of result ≡ s.entry name.0 register (view_gives gives) }
{
    Local {
        name: Some(name),
        register,
        owned: gives.is_owner(),
    }
}

/// Whether the first value is a text.
pub fn is_text(args: &[Expr]) -> bool
    ensures { result ≡ is_text (first_type (exprs_of (map view_expr args.now))) }
{
    match args {
        [] => false,
        [first, ..] => matches!(first.seen.value, Ty::Str),
    }
}

/// The local that the expression names and doesn't move.
#[tactic(auto, using(crate::proofs::NodeLaws::names))]
pub fn unmoved_name(expr: &Expr) -> Option<Name>
    ensures { option_map (λ n. n.0) result ≡ unmoved (view_expr expr.now) }
{
    match &expr.node {
        Node::Name { name, is_moved, .. } => { if *is_moved { None } else { Some(name.name) } }
        Node::Set(..)
        | Node::Chain(..)
        | Node::Unary(..)
        | Node::Steps(..)
        | Node::Number(..)
        | Node::Quote(..)
        | Node::Truth(..)
        | Node::Call(..)
        | Node::Paren(..)
        | Node::Array(..)
        | Node::Iso(..)
        | Node::Form(..) => None,
    }
}

/// How the step sees what it starts from.
#[tactic(auto, using(crate::proofs::StepLaws::views))]
pub fn view_of(step: &Step) -> &View
    ensures { view_view result.now ≡ step_view (view_step step.now) }
{
    match step {
        Step::Field(_, view, _, _, _) => view,
        Step::Method(_, view, _, _, _) => view,
        Step::Index(_, view, _, _) => view,
    }
}

/// Whether what is seen so is frozen.
pub fn is_frozen(view: &View) -> bool
    ensures { result ≡ y.is_frozen (view_view view.now) }
{
    matches!(view, View::Frozen(_))
}

/// Whether an owner is seen directly.
pub fn is_direct(view: &View) -> bool
    ensures { result ≡ y.is_direct (view_view view.now) }
{
    matches!(view, View::Direct(_))
}
