// Objects that are destroyed: what they held is dropped piece by piece.
ghost use Rattle.std.specs.Prelude.{◌≡◌, ◌<◌, IfNone, IfSome, None, Some, reverse};
ghost use Rattle.vale_heap.specs.HeapState.{IsRoot, KeepsFrames};
ghost use Rattle.vale_object_steps.specs.Drops.{CanEnd, Ends, IsKindAt, first_owned_cell};

use vale_base::Kind;
use vale_heap::{Body, Cell, Heap, Place};

/// The kind of an object that lives.
pub fn kind_at(heap: &Heap, place: Place) -> Kind
    requires { CanEnd heap.now place }
    ensures { IsKindAt heap.now place result }
{
    match heap.look(None, place) {
        Some(body) => body.kind,
        None => unreachable!(),
    }
}

/// An object that lives, and is the root of no isolate, dies. Its body comes out.
pub fn end(heap: &mut Heap, place: Place) -> Body
    requires lives { CanEnd heap.old place }
    requires no_root { IsRoot heap.old place → ⊥ }
    ensures ends { Ends heap.old place heap.new result }
    ensures keeps { KeepsFrames heap.old heap.new }
{
    match heap.end(place) {
        Some(body) => body,
        None => unreachable!(),
    }
}

/// The next owner or isolate of what a dead object held, where this stands from the end on. What stood before it is left out.
pub fn next_owned(rest: &mut Vec<Cell>) -> Option<Cell>
    ensures some { IfSome result (λ cell. first_owned_cell (reverse rest.old.items) ≡ Some (record { first = cell; rest = reverse rest.new.items })) }
    ensures none { IfNone result (first_owned_cell (reverse rest.old.items) ≡ None) }
{
    'cells: while let Some(cell) = rest.pop() {
        match cell {
            Cell::Own(place) => return Some(Cell::Own(place)),
            Cell::Iso(place) => return Some(Cell::Iso(place)),
            Cell::Int(_) => {}
            Cell::Truth(_) => {}
            Cell::Text(_) => {}
            Cell::Ref(_) => {}
        }
    }
    None
}
