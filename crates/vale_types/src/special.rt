// Functions named `main` and `drop`.
ghost use Rattle.std.specs.Prelude.{◌≡◌, map};
ghost use Rattle.vale_syntax.specs.View.{view_item, view_head, view_param};
ghost use Rattle.vale_rules_spec.specs.Declarations.{is_input, is_main, is_lawful_main, is_drop, drops};
ghost use Rattle.vale_types.specs.Known.{Knows};

use crate::known::Known;
use vale_base::Text;
use vale_names::is_called;
use vale_syntax::{Head, Item, NameAt, Param, TypeExpr};

/// Whether `main` may take these parameters.
fn is_input(params: &[Param]) -> bool
    ensures { result ≡ is_input (map view_param params.now) }
{
    match params {
        [] => true,
        [param] => match &param.ty {
            TypeExpr::Array(_, element) => matches!(
                element.get(),
                TypeExpr::Int(_) | TypeExpr::Str(_)
            ),
            _ => false,
        },
        _ => false,
    }
}

pub fn is_main(names: &[Text], head: &Head) -> bool
    ensures { result ≡ is_main names.now (view_head head.now) }
{
    is_called(names, b"main", head.name)
}

pub fn is_lawful_main(names: &[Text], head: &Head) -> bool
    ensures { result ≡ is_lawful_main names.now (view_head head.now) }
{
    !head.is_pure
        && head.result.is_none()
        && is_called(names, b"main", head.name)
        && is_input(head.params.as_slice())
}

/// Whether it is a destructor's.
pub fn is_drop(names: &[Text], head: &Head) -> bool
    ensures { result ≡ is_drop names.now (view_head head.now) }
{
    is_called(names, b"drop", head.name)
}

/// The struct of a lawful `drop`.
pub fn drops(names: &[Text], items: &[Item], known: &Known, head: &Head) -> Option<NameAt>
    requires { Knows (map view_item items.now) known.now }
    ensures { result ≡ drops names.now (map view_item items.now) (view_head head.now) }
{
    if head.is_pure || head.result.is_some() {
        return None;
    }
    match head.params.as_slice() {
        [param] => match &param.ty {
            TypeExpr::Named(of) => {
                let is_lawful = is_called(names, b"drop", head.name)
                    && is_called(names, b"self", param.name)
                    && known.structs.has(of.name);
                if is_lawful { Some(*of) } else { None }
            }
            _ => None,
        },
        _ => None,
    }
}
