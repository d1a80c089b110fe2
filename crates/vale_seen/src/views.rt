// How a step sees its base.
ghost use Rattle.std.specs.Prelude.{◌≡◌, ◌+◌, IfOk};
ghost use Rattle.vale_syntax.specs.View.{view_expr};
ghost use Rattle.vale_rules_spec.specs.Typing.{name_in, index_view};
ghost use Rattle.vale_core.specs.Plain.{number_of};
ghost use Rattle.vale_core.specs.View.{view_view};

use crate::seen::copy_view;
use crate::taking::takes;
use std::alloc::Global;
use vale_base::{Memory, Name};
use vale_core::View;
use vale_syntax::Expr;

/// The name that an expression is.
#[tactic(auto, using(crate::proofs::TakeLaws::exprs))]
pub fn name_in(expr: &Expr) -> Option<Name>
    ensures { number_of result ≡ name_in (view_expr expr.now) }
{
    match expr {
        Expr::Name(name) => Some(name.name),
        _ => None,
    }
}

/// How an index sees its base: where it takes away the local that the base names, not directly.
pub fn index_view(
    alloc: Global,
    local: Option<Name>,
    view: &View,
    index: &Expr,
) -> Result<View, Memory>
    ensures { IfOk result (λ v. view_view v ≡ index_view (number_of local) (view_view view.now) (view_expr index.now)) }
{
    match local {
        None => copy_view(alloc, view),
        Some(name) => match view {
            View::Direct(object) => {
                if takes(name, true, index) {
                    Ok(View::Shared(object.copy(alloc)?))
                } else {
                    copy_view(alloc, view)
                }
            }
            View::Blind | View::Shared(_) | View::Frozen(_) => copy_view(alloc, view),
        },
    }
}

/// The depth inside a `pure`, `iso` or parallel block.
pub fn deeper(depth: u32) -> Result<u32, Memory>
    ensures { IfOk result (λ d. d ≡ depth + 1) }
{
    if depth == u32::MAX {
        return Err(Memory);
    }
    Ok(depth + 1)
}
