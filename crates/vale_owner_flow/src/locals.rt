// The locals in scope, the last declared last.
ghost use Rattle.std.specs.Prelude.{◌≡◌, ◌<◌, length, IfSome};
ghost use Rattle.vale_rules_spec.specs.Whole.{are_alike};
ghost use Rattle.vale_owner_flow.specs.FlowView.{in_scope};
ghost use Rattle.vale_owner_flow.specs.Places.{place_of, same};

use vale_base::Name;

/// A local, and whether it is whole.
#[derive(Clone, Copy, Debug, PartialEq, Eq)]
pub struct Local {
    pub name: Name,
    pub whole: bool,
}

/// The place of the local of this name that was declared last.
#[tactic(auto, using(crate::proofs::LocalLaws::places))]
pub fn place_of(locals: &[Local], name: Name) -> Option<usize>
    ensures place { result ≡ place_of name.0 locals.now }
    ensures within { IfSome result (λ at. at < length locals.now) }
{
    for back in 0..locals.len() {
        let at = locals.len() - 1 - back;
        if locals[at].name.0 == name.0 {
            return Some(at);
        }
    }
    None
}

fn same(one: bool, other: bool) -> bool
    ensures { result ≡ same one other }
{
    if one { other } else { !other }
}

/// Whether the same locals are whole.
#[tactic(auto, using(crate::proofs::LocalLaws::likeness))]
pub fn are_alike(one: &[Local], other: &[Local]) -> bool
    ensures { result ≡ are_alike (in_scope one.now) (in_scope other.now) }
{
    if one.len() != other.len() {
        return false;
    }
    for at in 0..one.len() {
        if !same(one[at].whole, other[at].whole) {
            return false;
        }
    }
    true
}
