// How the destruction of an object begins, over the frames of a run.
ghost use Rattle.std.specs.Prelude.{◌≡◌, ◌+◌, ◌-◌, ◌<◌, ◌≤◌, ◌^◌, ◌∷◌, ℕ, IfOk, List, None, OnOk, Some, drop, length, replicate, slice_get, take};
ghost use Rattle.vale_code.specs.declared.func.Func.{Func as AFunc};
ghost use Rattle.vale_heap.specs.HeapState.{IsRoot, KeepsFrames};
ghost use Rattle.vale_heap.specs.declared.body.Cell.{Cell};
ghost use Rattle.vale_object_cells.specs.Cells.{cells_in};
ghost use Rattle.vale_object_drops.specs.Destroying.{CanDestroy, Destroys, HasDestructors, IsEntered};

use vale_base::{Memory, Spot};
use vale_code::Code;
use vale_heap::{Heap, Place};
use vale_object_cells::{Register, set_own};
use vale_object_flow::{Came, Control};
use vale_object_frames::Active;
use vale_object_passing::{blank, reserve};
use vale_object_turn::{Onset, begin};
use vale_turn::function_of;

// The registers from a base up to an end hold nothing but the owner of the object at a place, in the first of them.
#[inline(always)]
fn own_first(registers: &mut [Register], base: usize, end: usize, place: Place)
    requires base { base < end }
    requires end { end ≤ length registers.old }
    ensures cells { (u : ℕ → List ℕ) → cells_in u (drop base (take end registers.new)) ≡ Some (Cell.Own place) ∷ replicate (end - base - 1) None }
    ensures row { take base registers.new ≡ take base registers.old }
    ensures size { length registers.new ≡ length registers.old }
{
    let (used, _) = registers.split_at_mut(end);
    let (_, own) = used.split_at_mut(base);
    blank(own);
    set_own(own, 0, place);
}

// The same of a row.
#[inline(always)]
fn lay_owner(registers: &mut Vec<Register>, base: usize, end: usize, place: Place)
    requires base { base < end }
    requires end { end ≤ length registers.old.items }
    ensures cells { (u : ℕ → List ℕ) → cells_in u (drop base (take end registers.new.items)) ≡ Some (Cell.Own place) ∷ replicate (end - base - 1) None }
    ensures row { take base registers.new.items ≡ take base registers.old.items }
    ensures size { length registers.new.items ≡ length registers.old.items }
{
    own_first(registers, base, end, place)
}

// A destructor is entered with the owner of the object at a place.
fn enter_destructor(
    control: &mut Control,
    code: &Code,
    function: u32,
    place: Place,
    at: Spot,
) -> Result<(), Memory>
    requires end { control.old.end ≤ length control.old.registers.items }
    requires there { function < length code.now.funcs }
    requires room { (func : AFunc) → slice_get code.now.funcs function ≡ Some func → 0 < func.registers }
    ensures { OnOk result (IsEntered code.now function place at control.old control.new) }
{
    let callee = function_of(code, function);
    let base = control.end;
    let end = base + callee.registers as usize;
    match reserve(&mut control.registers, end) {
        Ok(()) => {}
        Err(fault) => return Err(fault),
    }
    lay_owner(&mut control.registers, base, end, place);
    control.top = Active {
        function,
        at,
        dest: None,
        place: 0,
        base,
    };
    control.end = end;
    Ok(())
}

// The destruction of an owner's object begins.
pub(crate) fn destroy_owner(
    control: &mut Control,
    code: &Code,
    heap: &mut Heap,
    left: &mut u64,
    depth: usize,
    place: Place,
    at: Spot,
) -> Result<Came, Memory>
    requires end { control.old.end ≤ length control.old.registers.items }
    requires few { depth + 1 < 2 ^ 64 }
    requires destructors { HasDestructors code.now }
    requires no_root { IsRoot heap.old place → ⊥ }
    requires right { CanDestroy code.now depth heap.old control.old left.old (Cell.Own place) at }
    ensures step { IfOk result (λ told. Destroys code.now depth heap.old control.old left.old (Cell.Own place) at told heap.new control.new left.new) }
    ensures end { OnOk result (control.new.end ≤ length control.new.registers.items) }
    ensures keeps { KeepsFrames heap.old heap.new }
    ensures ticks { left.new ≤ left.old }
{
    match begin(code, heap, place, depth, left) {
        Onset::Enters(function) => match enter_destructor(control, code, function, place, at) {
            Ok(()) => Ok(Came::Running),
            Err(fault) => Err(fault),
        },
        Onset::Dies(body) => match control.below.leave_over(body.kind, at, body.cells) {
            Ok(()) => Ok(Came::Dropping),
            Err(fault) => Err(fault),
        },
        Onset::Trap(kind) => Ok(Came::Trap(kind, at)),
        Onset::Cut => Ok(Came::Cut),
    }
}

// The destruction of an isolate begins. Its objects join the innermost region first.
pub(crate) fn destroy_isolate(
    control: &mut Control,
    code: &Code,
    heap: &mut Heap,
    left: &mut u64,
    depth: usize,
    place: Place,
    at: Spot,
) -> Result<Came, Memory>
    requires end { control.old.end ≤ length control.old.registers.items }
    requires few { depth + 1 < 2 ^ 64 }
    requires destructors { HasDestructors code.now }
    requires root { IsRoot heap.old place }
    requires right { CanDestroy code.now depth heap.old control.old left.old (Cell.Iso place) at }
    ensures step { IfOk result (λ told. Destroys code.now depth heap.old control.old left.old (Cell.Iso place) at told heap.new control.new left.new) }
    ensures end { OnOk result (control.new.end ≤ length control.new.registers.items) }
    ensures keeps { KeepsFrames heap.old heap.new }
    ensures ticks { left.new ≤ left.old }
{
    heap.merge(place);
    destroy_owner(control, code, heap, left, depth, place, at)
}
