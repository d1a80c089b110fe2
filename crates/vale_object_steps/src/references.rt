// Owners and references that go from register to register. No object is looked at.
ghost use Rattle.std.specs.Prelude.{◌≡◌, ℕ, ◌<◌, List, length};
ghost use Rattle.vale_heap.specs.HeapState.{HeapState};
ghost use Rattle.vale_object_cells.specs.Cells.{cells_in};
ghost use Rattle.vale_object_steps.specs.Doing.{freezes, moves, widens};
ghost use Rattle.vale_object_steps.specs.Views.{CanDo, Follows};
ghost use Rattle.vale_object_steps.specs.declared.effect.Effect.{Effect};

use vale_object_cells::{Register, move_to, place_at, set_reference, upcast_to};

/// An owner or an isolate goes to another register.
#[inline(always)]
pub fn transfer(registers: &mut [Register], to: u32, from: u32)
    requires room { to < length registers.old }
    requires right { (t : ℕ → List ℕ) × (heap : HeapState) × CanDo (moves to from) heap (cells_in t registers.old) }
    ensures { (t : ℕ → List ℕ) (heap : HeapState) → Follows (moves to from) heap (cells_in t registers.old) Effect.Done heap (cells_in t registers.new) }
{
    move_to(registers, to, from);
}

/// A reference to what a register leads to goes to another register.
#[inline(always)]
pub fn borrow(registers: &mut [Register], to: u32, from: u32)
    requires room { to < length registers.old }
    requires right { (t : ℕ → List ℕ) × (heap : HeapState) × CanDo (freezes to from) heap (cells_in t registers.old) }
    ensures { (t : ℕ → List ℕ) (heap : HeapState) → Follows (freezes to from) heap (cells_in t registers.old) Effect.Done heap (cells_in t registers.new) }
{
    let place = place_at(registers, from);
    set_reference(registers, to, place);
}

/// What leads to an object goes to another register; an owner and an isolate leave the first one.
#[inline(always)]
pub fn widen(registers: &mut [Register], to: u32, from: u32)
    requires room { to < length registers.old }
    requires right { (t : ℕ → List ℕ) × (heap : HeapState) × CanDo (widens to from) heap (cells_in t registers.old) }
    ensures { (t : ℕ → List ℕ) (heap : HeapState) → Follows (widens to from) heap (cells_in t registers.old) Effect.Done heap (cells_in t registers.new) }
{
    upcast_to(registers, to, from);
}
