// Locals that are named, set and dropped.
ghost use Rattle.std.specs.Prelude.{◌≡◌, ◌&&◌, List, Some, OnOk, option_map};
ghost use Rattle.vale_rules_spec.specs.Types as y;
ghost use Rattle.vale_lowering_objects.specs.Scopes.{Entry, is_owner, same_truth};
ghost use Rattle.vale_lowering_objects.specs.Lowered.{move_out, hand, drop_value, exchange_by, store_by, is_there};
ghost use Rattle.vale_lower_flow.specs.Entries.{entry_of, framed, entries};
ghost use Rattle.vale_lower_flow.specs.Flow.{going, put};
ghost use Rattle.vale_lower_flow.specs.Kept.{view_gives};
ghost use Rattle.vale_lower_places.specs.Places.{moved, lent, exchanged, stored, scope_dropped};

use crate::places::{is_there, put_stuck};
use vale_base::{Memory, Spot};
use vale_code::Instr;
use vale_lower_flow::{Flow, Gives, Local, Scope, above};

// The owner of the local leaves it, where it is there.
fn move_local(flow: &mut Flow, local: Local, h: u32) -> Result<(), Memory>
    ensures { OnOk result (going flow.new ≡ put (move_out (Some (entry_of local)) (going flow.old).gone h) (going flow.old)) }
{
    if !local.owned || flow.is_gone(local.register) {
        return put_stuck(flow, h);
    }
    flow.put(Instr::Move {
        to: h,
        from: local.register,
    })
}

/// The owner of a local is moved to the register, where an owner is wanted.
#[tactic(auto, using(crate::proofs::PlaceLaws::moves))]
pub fn put_moved(flow: &mut Flow, local: Option<Local>, gives: Gives, h: u32) -> Result<(), Memory>
    ensures { OnOk result (going flow.new ≡ moved (option_map entry_of local) (view_gives gives) h (going flow.old)) }
{
    let Some(local) = local else {
        return put_stuck(flow, h);
    };
    if gives.is_owner() {
        move_local(flow, local, h)?;
    } else {
        put_stuck(flow, h)?;
    }
    flow.take(local.register)
}

/// What a local holds goes to the register: a reference, where it is an owner.
#[tactic(auto, using(crate::proofs::PlaceLaws::lends))]
pub fn put_lent(
    flow: &mut Flow,
    local: Option<Local>,
    gives: Gives,
    is_frozen: bool,
    h: u32,
) -> Result<(), Memory>
    ensures { OnOk result ((view : y.View) → is_frozen ≡ y.is_frozen view → going flow.new ≡ lent (option_map entry_of local) (view_gives gives) view h (going flow.old)) }
{
    let Some(local) = local else {
        return put_stuck(flow, h);
    };
    let (to, from) = (h, local.register);
    if !gives.agrees(Gives::Copied) || (local.owned && flow.is_gone(from)) {
        return put_stuck(flow, h);
    }
    if !local.owned {
        return flow.put(Instr::Copy { to, from });
    }
    if is_frozen {
        flow.put(Instr::Frozen { to, from })
    } else {
        flow.put(Instr::Borrow { to, from })
    }
}

/// What stands in `h` is handed to the register `to`: an owner is moved, and any other value copied.
#[tactic(auto, using(crate::proofs::PlaceLaws::nothings))]
pub fn put_hand(flow: &mut Flow, gives: Gives, to: u32, h: u32) -> Result<(), Memory>
    ensures { OnOk result (going flow.new ≡ put (hand (view_gives gives) to h) (going flow.old)) }
{
    match gives {
        Gives::Void => {
            flow.arrive();
            Ok(())
        }
        Gives::Copied => flow.put(Instr::Copy { to, from: h }),
        Gives::Owned => flow.put(Instr::Move { to, from: h }),
    }
}

/// An owner in the register is dropped.
#[tactic(auto, using(crate::proofs::PlaceLaws::nothings))]
pub fn drop_value(flow: &mut Flow, gives: Gives, h: u32, at: Spot) -> Result<(), Memory>
    ensures { OnOk result (going flow.new ≡ put (drop_value (view_gives gives) h at) (going flow.old)) }
{
    match gives {
        Gives::Void | Gives::Copied => {
            flow.arrive();
            Ok(())
        }
        Gives::Owned => flow.put(Instr::Destroy { from: h, at }),
    }
}

#[tactic(auto, using(crate::proofs::PlaceLaws::puts))]
fn exchange_by(flow: &mut Flow, gives: Gives, r: u32, h: u32) -> Result<(), Memory>
    ensures { OnOk result (going flow.new ≡ put (exchange_by (view_gives gives) r h) (going flow.old)) }
{
    let next = above(h)?;
    match gives {
        Gives::Void => put_stuck(flow, h),
        Gives::Copied => {
            flow.put(Instr::Copy { to: next, from: r })?;
            flow.put(Instr::Copy { to: r, from: h })?;
            flow.put(Instr::Copy { to: h, from: next })
        }
        Gives::Owned => {
            flow.put(Instr::Move { to: next, from: r })?;
            flow.put(Instr::Move { to: r, from: h })?;
            flow.put(Instr::Move { to: h, from: next })
        }
    }
}

// Whether a local holds a value of this sort.
fn holds(flow: &Flow, local: Local, gives: Gives) -> bool
    ensures { result ≡ (same_truth local.owned (is_owner (view_gives gives)) && is_there (entry_of local) (going flow.now).gone) }
{
    let same = if local.owned {
        gives.is_owner()
    } else {
        !gives.is_owner()
    };
    same && is_there(local, flow)
}

/// A local gets what stands in the register, and the register what it held.
#[tactic(auto, using(crate::proofs::PlaceLaws::exchanges))]
pub fn put_exchange(
    flow: &mut Flow,
    local: Option<Local>,
    gives: Gives,
    h: u32,
) -> Result<(), Memory>
    ensures { OnOk result (going flow.new ≡ exchanged (option_map entry_of local) (view_gives gives) h (going flow.old)) }
{
    let Some(local) = local else {
        return put_stuck(flow, h);
    };
    if !holds(flow, local, gives) {
        return put_stuck(flow, h);
    }
    exchange_by(flow, gives, local.register, h)
}

#[tactic(auto, using(crate::proofs::PlaceLaws::puts))]
fn store_by(flow: &mut Flow, gives: Gives, r: u32, h: u32, at: Spot) -> Result<(), Memory>
    ensures { OnOk result (going flow.new ≡ put (store_by (view_gives gives) r h at) (going flow.old)) }
{
    match gives {
        Gives::Void => put_stuck(flow, h),
        Gives::Copied => flow.put(Instr::Copy { to: r, from: h }),
        Gives::Owned => {
            flow.put(Instr::Destroy { from: r, at })?;
            flow.put(Instr::Move { to: r, from: h })
        }
    }
}

/// The same, where what it held is dropped.
#[tactic(auto, using(crate::proofs::PlaceLaws::stores))]
pub fn put_store(
    flow: &mut Flow,
    local: Option<Local>,
    gives: Gives,
    h: u32,
    at: Spot,
) -> Result<(), Memory>
    ensures { OnOk result (going flow.new ≡ stored (option_map entry_of local) (view_gives gives) h at (going flow.old)) }
{
    let Some(local) = local else {
        return put_stuck(flow, h);
    };
    if !holds(flow, local, gives) {
        return put_stuck(flow, h);
    }
    store_by(flow, gives, local.register, h, at)
}

// These locals are dropped, the last first.
fn drop_frame(flow: &mut Flow, locals: &[Local], at: Spot) -> Result<(), Memory>
    ensures { OnOk result ((outer : List Entry) → scope_dropped outer at (going flow.new) ≡ scope_dropped (framed locals.now outer) at (going flow.old)) }
{
    for back in 0..locals.len() {
        let local = locals[locals.len() - 1 - back];
        flow.arrive();
        flow.drop_local(local, at)?;
    }
    Ok(())
}

/// All that is in scope is dropped, the innermost first.
#[tactic(auto, using(crate::proofs::PlaceLaws::drops))]
pub fn drop_scope<'a>(flow: &mut Flow, scope: &'a Scope<'a>, at: Spot) -> Result<(), Memory>
    ensures { OnOk result (going flow.new ≡ scope_dropped (entries scope.now) at (going flow.old)) }
{
    match scope {
        Scope::Outside => {
            flow.arrive();
            Ok(())
        }
        Scope::Frame(locals, outer) => {
            drop_frame(flow, locals, at)?;
            drop_scope(flow, outer, at)
        }
    }
}
