// Lists of calls that may be made whatever they answer.
ghost use Rattle.std.specs.Prelude.{◌≡◌, IfSome, IsTrue};
ghost use Rattle.vale_heap_calls.specs.Calls.{IsGiven, AllGiven};
ghost use Rattle.vale_heap_rows.specs.CallLists.{regions_after, all_after, MayCall, MayCallAll};

use std::alloc::Global;
use vale_base::Memory;
use vale_heap_calls::{Call, Named, Reply, Session};

// Whether the value speaks of no name from `names` on.
fn is_given(names: usize, value: &Named) -> bool
    ensures { IsTrue result → IsGiven names value.now }
{
    match value {
        Named::Own(name) | Named::Ref(name) | Named::Iso(name) => *name < names,
        _ => true,
    }
}

fn all_given(names: usize, values: &[Named]) -> bool
    ensures { IsTrue result → AllGiven names values.now }
{
    match values {
        [] => true,
        [value, rest @ ..] => is_given(names, value) && all_given(names, rest),
    }
}

// How many regions are open after a call, if it may be made.
fn regions_after(depth: u32, regions: u32, names: usize, call: &Call) -> Option<u32>
    ensures may { IfSome result (λ after. MayCall depth regions names call.now) }
    ensures after { IfSome result (λ after. after ≡ regions_after call.now regions) }
{
    let may = match call {
        Call::Make(_, values) => all_given(names, values.as_slice()),
        Call::Look(name) | Call::End(name) => *name < names,
        Call::Change(name, values) => *name < names && all_given(names, values.as_slice()),
        Call::FreezeIn => return if regions < depth {
            Some(regions + 1)
        } else {
            None
        },
        Call::FreezeMerge | Call::FreezeClear => {
            return if regions > 1 { Some(regions - 1) } else { None };
        }
        Call::FreezeKeep(_) | Call::Merge(_) => return None,
    };
    if may { Some(regions) } else { None }
}

// How many regions are open after calls, if they may be made.
fn all_after(depth: u32, regions: u32, names: usize, calls: &[Call]) -> Option<u32>
    ensures may { IfSome result (λ after. MayCallAll depth regions names calls.now) }
    ensures after { IfSome result (λ after. after ≡ all_after calls.now regions) }
{
    match calls {
        [] => Some(regions),
        [call, rest @ ..] => {
            let regions = regions_after(depth, regions, names, call)?;
            all_after(depth, regions, names, rest)
        }
    }
}

/// Makes calls of an empty heap of `frames` frames, whose pages are of the generation `first`, for regions that are `depth`
/// deep, and then later calls, and answers what they answered. `None` comes where not all of a list may be made whatever they
/// answer: they speak of names that were given before the list, and make and merge no isolate.
pub fn replies(
    alloc: Global,
    frames: u32,
    depth: u32,
    first: u64,
    calls: Vec<Call>,
    later: Vec<Call>,
) -> Result<Option<(Vec<Reply>, Vec<Reply>)>, Memory> {
    let mut session = Session::open(alloc, frames, depth, first)?;
    let Some(regions) = all_after(depth, 1, 0, &calls) else {
        return Ok(None);
    };
    let early = session.run(alloc, calls)?;
    let names = session.places.len();
    let Some(_) = all_after(depth, regions, names, &later) else {
        return Ok(None);
    };
    let late = session.run(alloc, later)?;
    Ok(Some((early, late)))
}
