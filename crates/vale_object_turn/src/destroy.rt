// How the destruction of an object begins.
ghost use Rattle.std.specs.Prelude.{◌≡◌, ◌<◌, ◌≤◌, ◌^◌, ◌+◌};
ghost use Rattle.vale_code.specs.Kinds.{destructor_of};
ghost use Rattle.vale_heap.specs.HeapState.{IsRoot, KeepsFrames};
ghost use Rattle.vale_object_steps.specs.Drops.{CanEnd};
ghost use Rattle.vale_object_turn.specs.Destroying.{Begins};

use vale_base::{DEPTH_LIMIT, Kind, TrapKind};
use vale_code::{Code, KindInfo};
use vale_heap::{Body, Heap, Place};
use vale_object_steps::{end, kind_at};

/// How a destruction begins: a destructor is entered; the object died, and what it held is to be dropped; a trap; or no tick is
/// left.
#[derive(Drop)]
pub enum Onset {
    Enters(u32),
    Dies(Body),
    Trap(TrapKind),
    Cut,
}

// The function that destroys objects of a kind, where it has one.
fn destructor_of(code: &Code, kind: Kind) -> Option<u32>
    ensures { result ≡ destructor_of code.now kind }
{
    match code.kinds.as_slice().get(kind.0 as usize) {
        Some(info) => match info {
            KindInfo::Struct { destructor, .. } => *destructor,
            KindInfo::Interface { .. } => None,
            KindInfo::Array { .. } => None,
        },
        None => None,
    }
}

/// Begins to destroy an object that lives, and is the root of no isolate, where so many functions, destructions and freezes are
/// under way.
pub fn begin(code: &Code, heap: &mut Heap, place: Place, depth: usize, left: &mut u64) -> Onset
    requires lives { CanEnd heap.old place }
    requires no_root { IsRoot heap.old place → ⊥ }
    requires few { depth + 1 < 2 ^ 64 }
    ensures step { Begins code.now place depth heap.old left.old result heap.new left.new }
    ensures keeps { KeepsFrames heap.old heap.new }
    ensures ticks { left.new ≤ left.old }
{
    let kind = kind_at(heap, place);
    let destructor = destructor_of(code, kind);
    if depth as u64 + 1 > DEPTH_LIMIT {
        return Onset::Trap(TrapKind::CallDepth);
    }
    if *left == 0 {
        return Onset::Cut;
    }
    match destructor {
        Some(function) => {
            *left -= 1;
            Onset::Enters(function)
        }
        None => {
            let body = end(heap, place);
            *left -= 1;
            Onset::Dies(body)
        }
    }
}
