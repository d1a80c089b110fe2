// What is done behind a part, where a run comes.
ghost use Rattle.std.specs.Prelude.{◌≡◌, ◌∷◌, ◌++◌, [], length, option_map, IfOk, OnOk};
ghost use Rattle.vale_code.specs.declared.instr.Instr.TheVariants as i;
ghost use Rattle.vale_lowering_objects.specs.Scopes.{void, agree};
ghost use Rattle.vale_lowering_objects.specs.Lowered as l;
ghost use Rattle.vale_lower_flow.specs.Entries.{entry_of, entries};
ghost use Rattle.vale_lower_flow.specs.Flow.{going, put, arrived, left, only, if_there};
ghost use Rattle.vale_lower_flow.specs.Kept.{view_gives};
ghost use Rattle.vale_lower_places.specs.Places.{scope_dropped};

use vale_base::{Memory, Spot};
use vale_code::Instr;
use vale_lower_flow::{Flow, Gives, Local, Scope};
use vale_lower_places::{drop_scope, drop_value, put_hand, put_store, put_thaw};

#[tactic(auto, using(crate::proofs::EndLaws::ends), unfolding(vale_lower_flow::specs::Flow::going))]
fn hand_there(flow: &mut Flow, gives: Gives, to: u32, h: u32) -> Result<(), Memory>
    ensures { OnOk result (going flow.new ≡ if_there (λ place g. l.hand (view_gives gives) to h) (going flow.old)) }
{
    if !flow.comes {
        return Ok(());
    }
    put_hand(flow, gives, to, h)
}

/// The end of a block that has a value, which began at the place: it is handed to the register `to`.
pub fn end_last(
    flow: &mut Flow,
    gives: Gives,
    ok: bool,
    start: u32,
    to: u32,
    h: u32,
) -> Result<(), Memory>
    ensures { OnOk result (going flow.new ≡ only ok start h (if_there (λ place g. l.hand (view_gives gives) to h) (going flow.old))) }
{
    hand_there(flow, gives, to, h)?;
    flow.keep(ok, start, h)
}

/// What is empty, where nothing is wanted.
pub fn end_empty(flow: &mut Flow, gives: Gives, h: u32) -> Result<(), Memory>
    ensures { OnOk result (going flow.new ≡ only (agree (view_gives gives) void) (length (going flow.old).code) h (arrived (going flow.old))) }
{
    let start = flow.place()?;
    flow.arrive();
    flow.keep(gives.agrees(Gives::Void), start, h)
}

/// A value that isn't used is dropped.
#[tactic(auto, using(crate::proofs::EndLaws::ends), unfolding(vale_lower_flow::specs::Flow::going))]
pub fn drop_unused(flow: &mut Flow, gives: Gives, h: u32, at: Spot) -> Result<(), Memory>
    ensures { OnOk result (going flow.new ≡ if_there (λ place g. l.drop_value (view_gives gives) h at) (going flow.old)) }
{
    if !flow.comes {
        return Ok(());
    }
    drop_value(flow, gives, h, at)
}

#[tactic(auto, using(crate::proofs::EndLaws::stores), unfolding(vale_lower_flow::specs::Flow::going))]
fn store_there(
    flow: &mut Flow,
    local: Option<Local>,
    gives: Gives,
    h: u32,
    at: Spot,
) -> Result<(), Memory>
    ensures { OnOk result (going flow.new ≡ if_there (λ place g. l.store (option_map entry_of local) g (view_gives gives) h at) (going flow.old)) }
{
    if !flow.comes {
        return Ok(());
    }
    put_store(flow, local, gives, h, at)
}

/// The end of a `set` of a local whose old value isn't used.
pub fn end_store(
    flow: &mut Flow,
    local: Option<Local>,
    gives: Gives,
    ok: bool,
    start: u32,
    h: u32,
    at: Spot,
) -> Result<(), Memory>
    ensures { OnOk result (going flow.new ≡ only ok start h (if_there (λ place g. l.store (option_map entry_of local) g (view_gives gives) h at) (going flow.old))) }
{
    store_there(flow, local, gives, h, at)?;
    flow.keep(ok, start, h)
}

#[tactic(auto, using(crate::proofs::EndLaws::returns), unfolding(vale_lower_flow::specs::Flow::going))]
fn return_there(flow: &mut Flow, scope: &Scope, h: u32, at: Spot) -> Result<(), Memory>
    ensures { OnOk result (going flow.new ≡ if_there (λ place g. l.drop_scope (entries scope.now) g at ++ (i.Ret h ∷ [])) (going flow.old)) }
{
    if !flow.comes {
        return Ok(());
    }
    drop_scope(flow, scope, at)?;
    flow.put(Instr::Ret { from: h })
}

/// The end of a `return` of what stands in the register.
pub fn end_return(
    flow: &mut Flow,
    scope: &Scope,
    ok: bool,
    start: u32,
    h: u32,
    at: Spot,
) -> Result<(), Memory>
    ensures { OnOk result (going flow.new ≡ left (only ok start h (if_there (λ place g. l.drop_scope (entries scope.now) g at ++ (i.Ret h ∷ [])) (going flow.old)))) }
{
    return_there(flow, scope, h, at)?;
    flow.keep(ok, start, h)?;
    flow.leave();
    Ok(())
}

/// A `return` of nothing.
pub fn return_nothing(
    flow: &mut Flow,
    scope: &Scope,
    ok: bool,
    h: u32,
    at: Spot,
) -> Result<(), Memory>
    ensures { OnOk result (going flow.new ≡ left (only ok (length (going flow.old).code) h (put (i.RetVoid ∷ []) (scope_dropped (entries scope.now) at (going flow.old))))) }
{
    let start = flow.place()?;
    drop_scope(flow, scope, at)?;
    flow.put(Instr::RetVoid)?;
    flow.keep(ok, start, h)?;
    flow.leave();
    Ok(())
}

/// A region of its own begins, at the place that is answered.
pub fn begin_freeze(flow: &mut Flow, at: Spot) -> Result<u32, Memory>
    ensures start { IfOk result (λ start. start ≡ length (going flow.old).code) }
    ensures begun { OnOk result (going flow.new ≡ put (i.Freeze at ∷ []) (going flow.old)) }
{
    let start = flow.place()?;
    flow.put(Instr::Freeze { at })?;
    Ok(start)
}

/// The end of a `pure` block, by whether its type is an owner's.
#[tactic(auto, using(crate::proofs::EndLaws::ends), unfolding(vale_lower_flow::specs::Flow::going))]
pub fn end_pure(flow: &mut Flow, is_owner: bool, gives: Gives, h: u32) -> Result<(), Memory>
    ensures { OnOk result (going flow.new ≡ if_there (λ place g. l.thaw_code is_owner (view_gives gives) h) (going flow.old)) }
{
    if !flow.comes {
        return Ok(());
    }
    put_thaw(flow, is_owner, gives, h)
}

#[tactic(auto, using(crate::proofs::EndLaws::ends), unfolding(vale_lower_flow::specs::Flow::going))]
fn keep_there(flow: &mut Flow, h: u32) -> Result<(), Memory>
    ensures { OnOk result (going flow.new ≡ if_there (λ place g. i.ThawKeep h h ∷ []) (going flow.old)) }
{
    if !flow.comes {
        return Ok(());
    }
    flow.put(Instr::ThawKeep { to: h, from: h })
}

/// The end of an `iso` block, which began at the place.
pub fn end_iso(flow: &mut Flow, ok: bool, start: u32, h: u32) -> Result<(), Memory>
    ensures { OnOk result (going flow.new ≡ only ok start h (if_there (λ place g. i.ThawKeep h h ∷ []) (going flow.old))) }
{
    keep_there(flow, h)?;
    flow.keep(ok, start, h)
}
