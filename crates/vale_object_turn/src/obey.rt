// Instructions on objects within a function.
ghost use Rattle.std.specs.Prelude.{◌≡◌, ℕ, ◌+◌, ◌<◌, ◌^◌, IfOk, List, Ok, OnOk, length, true};
ghost use Rattle.vale_registers.specs.Cells.{HasRegister};
ghost use Rattle.vale_registers.specs.Texts.{text_at};
ghost use Rattle.vale_heap.specs.HeapState.{HeapState, KeepsFrames};
ghost use Rattle.vale_base.specs.declared.trap.TrapKind.{TrapKind as AKind};
ghost use Rattle.vale_turn.specs.declared.stop.Stop.{Stop as AStop};
ghost use Rattle.vale_object_cells.specs.Cells.{cells_from, cells_in};
ghost use Rattle.vale_object_steps.specs.declared.effect.Effect.{Effect as AnEffect};
ghost use Rattle.vale_object_turn.specs.Landing.{Landed};
ghost use Rattle.vale_object_turn.specs.Objects.{is_change, is_look, is_reference, written_by};
ghost use Rattle.vale_object_turn.specs.Steps.{HasRule, Obeys};

use std::alloc::Global;
use vale_base::{Memory, Spot};
use vale_code::Instr;
use vale_heap::Heap;
use vale_object_cells::Register;
use vale_object_steps::{
    Effect, borrow, count, element, exchange, load, pop, push, swap, transfer, widen,
};
use vale_registers::Row;
use vale_turn::Stop;

// After an instruction the function goes on, or it traps.
#[inline(always)]
fn land(place: &mut usize, came: Result<Effect, Memory>, at: Spot) -> Result<Stop, Memory>
    requires { place.old + 1 < 2 ^ 64 }
    ensures { IfOk result (λ told. (e : AnEffect) × (came ≡ Ok e) × Landed e at told place.old place.new) }
{
    match came {
        Ok(Effect::Done) => {
            *place += 1;
            Ok(Stop::Going)
        }
        Ok(Effect::Trap(kind)) => Ok(Stop::Trap(kind, at)),
        Err(fault) => Err(fault),
    }
}

// After an instruction that has no trap the function goes on.
#[inline(always)]
fn go_on(place: &mut usize, came: Result<Effect, Memory>) -> Result<Stop, Memory>
    requires place { place.old + 1 < 2 ^ 64 }
    requires no_trap { (kind : AKind) → came ≡ Ok (AnEffect.Trap kind) → ⊥ }
    ensures { IfOk result (λ told. (came ≡ Ok AnEffect.Done) × (told ≡ AStop.Going) × (place.new ≡ place.old + 1)) }
{
    match came {
        Ok(Effect::Done) => {
            *place += 1;
            Ok(Stop::Going)
        }
        Ok(Effect::Trap(_)) => unreachable!(),
        Err(fault) => Err(fault),
    }
}

/// An instruction that lets an owner or a reference go from register to register.
pub fn obey_reference(registers: &mut [Register], place: &mut usize, instr: &Instr) -> Stop
    requires reference { is_reference instr.now ≡ true }
    requires room { HasRegister (written_by instr.now) (length registers.old) }
    requires place { place.old + 1 < 2 ^ 64 }
    requires right { (t : ℕ → List ℕ) × (heap : HeapState) × (left : ℕ) × HasRule heap (cells_in t registers.old) place.old left instr.now }
    ensures step { (t : ℕ → List ℕ) (heap : HeapState) (left : ℕ) → Obeys instr.now heap (cells_in t registers.old) place.old left result heap (cells_in t registers.new) place.new left }
{
    match instr {
        Instr::Move { to, from } => {
            transfer(registers, *to, *from);
            *place += 1;
            Stop::Going
        }
        Instr::Borrow { to, from } => {
            borrow(registers, *to, *from);
            *place += 1;
            Stop::Going
        }
        Instr::Frozen { to, from } => {
            borrow(registers, *to, *from);
            *place += 1;
            Stop::Going
        }
        Instr::Upcast { to, from, .. } => {
            widen(registers, *to, *from);
            *place += 1;
            Stop::Going
        }
        _ => unreachable!(),
    }
}

/// An instruction that looks at an object.
pub fn obey_look(
    alloc: Global,
    heap: &Heap,
    registers: &mut [Register],
    texts: &mut Row,
    base: usize,
    place: &mut usize,
    instr: &Instr,
) -> Result<Stop, Memory>
    requires look { is_look instr.now ≡ true }
    requires room { HasRegister (written_by instr.now) (length registers.old) }
    requires few { base + length registers.old < 2 ^ 64 }
    requires place { place.old + 1 < 2 ^ 64 }
    requires right { (left : ℕ) × HasRule heap.now (cells_from base texts.old registers.old) place.old left instr.now }
    ensures step { IfOk result (λ told. (left : ℕ) → Obeys instr.now heap.now (cells_from base texts.old registers.old) place.old left told heap.now (cells_from base texts.new registers.new) place.new left) }
    ensures others { OnOk result ((i : ℕ) → i < base → text_at texts.new i ≡ text_at texts.old i) }
{
    match instr {
        Instr::LoadOwn { to, object, field } => {
            let from_owner = load(alloc, heap, registers, texts, base, *to, *object, *field);
            go_on(place, from_owner)
        }
        Instr::Load {
            to,
            object,
            field,
            at,
        } => {
            let checked = load(alloc, heap, registers, texts, base, *to, *object, *field);
            land(place, checked, *at)
        }
        Instr::LoadLive { to, object, field } => {
            let living = load(alloc, heap, registers, texts, base, *to, *object, *field);
            go_on(place, living)
        }
        Instr::ElemOwn {
            to,
            object,
            index,
            at,
        } => {
            let from_owner = element(alloc, heap, registers, texts, base, *to, *object, *index);
            land(place, from_owner, *at)
        }
        Instr::Elem {
            to,
            object,
            index,
            at,
        } => {
            let checked = element(alloc, heap, registers, texts, base, *to, *object, *index);
            land(place, checked, *at)
        }
        Instr::ElemLive {
            to,
            object,
            index,
            at,
        } => {
            let living = element(alloc, heap, registers, texts, base, *to, *object, *index);
            land(place, living, *at)
        }
        Instr::Len { to, object, at } => {
            let counted = count(heap, registers, *to, *object);
            land(place, Ok(counted), *at)
        }
        Instr::LenLive { to, object } => {
            let measured = count(heap, registers, *to, *object);
            go_on(place, Ok(measured))
        }
        _ => unreachable!(),
    }
}

/// An instruction that changes an object.
pub fn obey_change(
    alloc: Global,
    heap: &mut Heap,
    registers: &mut [Register],
    texts: &mut Row,
    base: usize,
    place: &mut usize,
    instr: &Instr,
) -> Result<Stop, Memory>
    requires change { is_change instr.now ≡ true }
    requires room { HasRegister (written_by instr.now) (length registers.old) }
    requires few { base + length registers.old < 2 ^ 64 }
    requires place { place.old + 1 < 2 ^ 64 }
    requires right { (left : ℕ) × HasRule heap.old (cells_from base texts.old registers.old) place.old left instr.now }
    ensures step { IfOk result (λ told. (left : ℕ) → Obeys instr.now heap.old (cells_from base texts.old registers.old) place.old left told heap.new (cells_from base texts.new registers.new) place.new left) }
    ensures keeps { KeepsFrames heap.old heap.new }
    ensures others { OnOk result ((i : ℕ) → i < base → text_at texts.new i ≡ text_at texts.old i) }
{
    match instr {
        Instr::SwapOwn {
            to,
            object,
            field,
            value,
        } => {
            let from_owner = swap(
                alloc, heap, registers, texts, base, *to, *object, *field, *value,
            );
            go_on(place, from_owner)
        }
        Instr::Swap {
            to,
            object,
            field,
            value,
            at,
        } => {
            let checked = swap(
                alloc, heap, registers, texts, base, *to, *object, *field, *value,
            );
            land(place, checked, *at)
        }
        Instr::SwapElOwn {
            to,
            object,
            index,
            value,
            at,
        } => {
            let from_owner = exchange(
                alloc, heap, registers, texts, base, *to, *object, *index, *value,
            );
            land(place, from_owner, *at)
        }
        Instr::SwapEl {
            to,
            object,
            index,
            value,
            at,
        } => {
            let checked = exchange(
                alloc, heap, registers, texts, base, *to, *object, *index, *value,
            );
            land(place, checked, *at)
        }
        Instr::Push { object, value, at } => {
            let checked = push(alloc, heap, registers, texts, base, *object, *value);
            land(place, checked, *at)
        }
        Instr::Pop { to, object, at } => {
            let checked = pop(alloc, heap, registers, texts, base, *to, *object);
            land(place, checked, *at)
        }
        _ => unreachable!(),
    }
}
