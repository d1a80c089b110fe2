// The instruction that destroys, and the values of an object that has died.
ghost use Rattle.std.specs.Prelude.{◌≡◌, ◌+◌, ◌<◌, ◌≤◌, ◌^◌, IfOk, OnOk, drop, length, take};
ghost use Rattle.vale_heap.specs.HeapState.{KeepsFrames};
ghost use Rattle.vale_object_frames.specs.Stacks.{IsDropping};
ghost use Rattle.vale_object_drops.specs.Destroying.{CanDrop, CanDropNext, Drops, DropsNextOne, FitsNext, FitsRegister, HasDestructors, HoldsOwned, IsLifted};

use crate::begin::{destroy_isolate, destroy_owner};
use vale_base::{Memory, Spot};
use vale_code::Code;
use vale_heap::{Cell, Heap, Place};
use vale_object_cells::{Register, Shape};
use vale_object_flow::{Came, Control, rejoin};
use vale_object_frames::Active;

// What leads to an object leaves its register: an owner, or an isolate.
#[inline(always)]
fn lift(registers: &mut [Register], base: usize, end: usize, from: u32) -> Cell
    requires base { base ≤ end }
    requires end { end ≤ length registers.old }
    requires owned { HoldsOwned (drop base (take end registers.old)) from }
    ensures { IsLifted base end from registers.old result registers.new }
{
    let holder = &mut registers[base + from as usize];
    let place = Place {
        frame: holder.frame,
        slot: holder.slot,
        generation: holder.generation,
    };
    let shape = holder.shape;
    holder.shape = Shape::Empty;
    match shape {
        Shape::Own => Cell::Own(place),
        Shape::Iso => Cell::Iso(place),
        _ => unreachable!(),
    }
}

// The same of a row.
#[inline(always)]
fn lift_from(registers: &mut Vec<Register>, base: usize, end: usize, from: u32) -> Cell
    requires base { base ≤ end }
    requires end { end ≤ length registers.old.items }
    requires owned { HoldsOwned (drop base (take end registers.old.items)) from }
    ensures lifted { IsLifted base end from registers.old.items result registers.new.items }
    ensures size { length registers.new.items ≡ length registers.old.items }
{
    lift(registers, base, end, from)
}

/// What a register of the innermost function leads to, as its owner or as an isolate, begins to be destroyed, where so many
/// functions, destructions and freezes are under way.
pub fn destroy(
    control: &mut Control,
    code: &Code,
    heap: &mut Heap,
    left: &mut u64,
    depth: usize,
    from: u32,
    at: Spot,
) -> Result<Came, Memory>
    requires base { control.old.top.base ≤ control.old.end }
    requires end { control.old.end ≤ length control.old.registers.items }
    requires place { control.old.top.place + 1 < 2 ^ 64 }
    requires few { depth + 1 < 2 ^ 64 }
    requires destructors { HasDestructors code.now }
    requires roots { FitsRegister heap.old control.old from }
    requires right { CanDrop code.now depth heap.old control.old left.old from at }
    ensures step { IfOk result (λ told. Drops code.now depth heap.old control.old left.old from at told heap.new control.new left.new) }
    ensures end { OnOk result (control.new.end ≤ length control.new.registers.items) }
    ensures keeps { KeepsFrames heap.old heap.new }
    ensures ticks { left.new ≤ left.old }
{
    let cell = lift_from(&mut control.registers, control.top.base, control.end, from);
    let caller = Active {
        function: control.top.function,
        at: control.top.at,
        dest: control.top.dest,
        place: control.top.place + 1,
        base: control.top.base,
    };
    match control.below.cover(caller) {
        Ok(()) => {}
        Err(fault) => return Err(fault),
    }
    match cell {
        Cell::Own(place) => destroy_owner(control, code, heap, left, depth, place, at),
        Cell::Iso(place) => destroy_isolate(control, code, heap, left, depth, place, at),
        _ => unreachable!(),
    }
}

/// The next owner or isolate of the dead object whose destruction is the innermost begins to be destroyed. Where there is none, the
/// destruction is over, and the frames under it go on.
pub fn drop_next(
    control: &mut Control,
    code: &Code,
    heap: &mut Heap,
    left: &mut u64,
    depth: usize,
) -> Result<Came, Memory>
    requires end { control.old.end ≤ length control.old.registers.items }
    requires few { depth + 1 < 2 ^ 64 }
    requires destructors { HasDestructors code.now }
    requires dropping { IsDropping control.old.below }
    requires roots { FitsNext heap.old control.old.below }
    requires right { CanDropNext code.now depth heap.old control.old left.old }
    ensures step { IfOk result (λ told. DropsNextOne code.now depth heap.old control.old left.old told heap.new control.new left.new) }
    ensures end { OnOk result (control.new.end ≤ length control.new.registers.items) }
    ensures keeps { KeepsFrames heap.old heap.new }
    ensures ticks { left.new ≤ left.old }
{
    match control.below.next_owned() {
        Some((cell, at)) => match cell {
            Cell::Own(place) => destroy_owner(control, code, heap, left, depth, place, at),
            Cell::Iso(place) => destroy_isolate(control, code, heap, left, depth, place, at),
            _ => unreachable!(),
        },
        None => Ok(rejoin(&mut control.below, &mut control.top)),
    }
}
