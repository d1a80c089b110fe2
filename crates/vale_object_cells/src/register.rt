// What registers hold, and how they are read and written.
ghost use Rattle.std.specs.Prelude.{◌≡◌, ◌≢◌, ◌<◌, ℕ, List, None, Some, length, slice_set};
ghost use Rattle.vale_heap.specs.declared.body.Cell.{Cell};
ghost use Rattle.vale_object_cells.specs.Cells.{HoldsInt, HoldsPlace, HoldsTruth, IsShaped, cells_in, held, kept_cells, place_in};

use vale_heap::Place;

/// What a register holds: nothing, a number, a truth, a text, or the place of an object, as its owner, as a reference or as the
/// isolate of which it is the root.
#[derive(Clone, Copy)]
pub enum Shape {
    Empty,
    Int,
    Truth,
    Text,
    Own,
    Ref,
    Iso,
}

/// A register: its shape, and what it holds by its shape. The other parts may be anything; a text stands in a row.
#[derive(Clone, Copy)]
pub struct Register {
    pub shape: Shape,
    pub truth: bool,
    /// The slot, the frame and the generation of a place.
    pub slot: u8,
    pub frame: u32,
    pub number: i64,
    pub generation: u64,
}

/// The number in a register that holds one.
#[inline(always)]
#[tactic(auto, using(crate::proofs::Holding::int_within, crate::proofs::Holding::int_is))]
pub fn int_at(registers: &[Register], register: u32) -> i64
    requires { HoldsInt registers.now register }
    ensures { (t : ℕ → List ℕ) → held (cells_in t registers.now) register ≡ Some (Cell.Int result) }
{
    registers[register as usize].number
}

/// The truth in a register that holds one.
#[inline(always)]
pub fn truth_at(registers: &[Register], register: u32) -> bool
    requires { HoldsTruth registers.now register }
    ensures { (t : ℕ → List ℕ) → held (cells_in t registers.now) register ≡ Some (Cell.Truth result) }
{
    registers[register as usize].truth
}

/// The place in a register that holds one.
#[inline(always)]
pub fn place_at(registers: &[Register], register: u32) -> Place
    requires { HoldsPlace registers.now register }
    ensures { (t : ℕ → List ℕ) → place_in (held (cells_in t registers.now) register) ≡ Some result }
{
    let holder = &registers[register as usize];
    Place {
        frame: holder.frame,
        slot: holder.slot,
        generation: holder.generation,
    }
}

/// The shape of a register.
#[inline(always)]
pub fn shape_at(registers: &[Register], register: u32) -> Shape
    requires { register < length registers.now }
    ensures { IsShaped registers.now register result }
{
    registers[register as usize].shape
}

/// A register holds nothing from now on.
#[inline(always)]
pub fn empty(registers: &mut [Register], register: u32)
    requires { register < length registers.old }
    ensures { (t : ℕ → List ℕ) → cells_in t registers.new ≡ slice_set (cells_in t registers.old) register None }
{
    let holder = &mut registers[register as usize];
    holder.shape = Shape::Empty;
}

/// A number goes to a register.
#[inline(always)]
pub fn set_int(registers: &mut [Register], register: u32, number: i64)
    requires { register < length registers.old }
    ensures { (t : ℕ → List ℕ) → cells_in t registers.new ≡ slice_set (cells_in t registers.old) register (Some (Cell.Int number)) }
{
    let holder = &mut registers[register as usize];
    holder.shape = Shape::Int;
    holder.number = number;
}

/// A truth goes to a register.
#[inline(always)]
pub fn set_truth(registers: &mut [Register], register: u32, truth: bool)
    requires { register < length registers.old }
    ensures { (t : ℕ → List ℕ) → cells_in t registers.new ≡ slice_set (cells_in t registers.old) register (Some (Cell.Truth truth)) }
{
    let holder = &mut registers[register as usize];
    holder.shape = Shape::Truth;
    holder.truth = truth;
}

/// The text of a register in a row goes to it; no other register has another text.
#[inline(always)]
pub fn set_text(registers: &mut [Register], register: u32)
    requires { register < length registers.old }
    ensures { (t u : ℕ → List ℕ) → ((i : ℕ) → i ≢ register → u i ≡ t i) → cells_in u registers.new ≡ slice_set (cells_in t registers.old) register (Some (Cell.Text (u register))) }
{
    let holder = &mut registers[register as usize];
    holder.shape = Shape::Text;
}

/// The owner of the object at a place goes to a register.
#[inline(always)]
pub fn set_own(registers: &mut [Register], register: u32, place: Place)
    requires { register < length registers.old }
    ensures { (t : ℕ → List ℕ) → cells_in t registers.new ≡ slice_set (cells_in t registers.old) register (Some (Cell.Own place)) }
{
    let holder = &mut registers[register as usize];
    holder.shape = Shape::Own;
    holder.frame = place.frame;
    holder.slot = place.slot;
    holder.generation = place.generation;
}

/// A reference to the object at a place goes to a register.
#[inline(always)]
pub fn set_reference(registers: &mut [Register], register: u32, place: Place)
    requires { register < length registers.old }
    ensures { (t : ℕ → List ℕ) → cells_in t registers.new ≡ slice_set (cells_in t registers.old) register (Some (Cell.Ref place)) }
{
    let holder = &mut registers[register as usize];
    holder.shape = Shape::Ref;
    holder.frame = place.frame;
    holder.slot = place.slot;
    holder.generation = place.generation;
}

/// The isolate whose root is at a place goes to a register.
#[inline(always)]
pub fn set_iso(registers: &mut [Register], register: u32, place: Place)
    requires { register < length registers.old }
    ensures { (t : ℕ → List ℕ) → cells_in t registers.new ≡ slice_set (cells_in t registers.old) register (Some (Cell.Iso place)) }
{
    let holder = &mut registers[register as usize];
    holder.shape = Shape::Iso;
    holder.frame = place.frame;
    holder.slot = place.slot;
    holder.generation = place.generation;
}

/// What leads to an object goes from a register to another, and leaves the first one empty.
#[inline(always)]
pub fn move_to(registers: &mut [Register], to: u32, from: u32)
    requires place { HoldsPlace registers.old from }
    requires room { to < length registers.old }
    ensures { (t : ℕ → List ℕ) → cells_in t registers.new ≡ slice_set (slice_set (cells_in t registers.old) from None) to (held (cells_in t registers.old) from) }
{
    let place = place_at(registers, from);
    let shape = shape_at(registers, from);
    empty(registers, from);
    match shape {
        Shape::Own => set_own(registers, to, place),
        Shape::Ref => set_reference(registers, to, place),
        Shape::Iso => set_iso(registers, to, place),
        _ => unreachable!(),
    }
}

/// What leads to an object goes from a register to another; an owner and an isolate leave the first one empty.
#[inline(always)]
pub fn upcast_to(registers: &mut [Register], to: u32, from: u32)
    requires place { HoldsPlace registers.old from }
    requires room { to < length registers.old }
    ensures { (t : ℕ → List ℕ) → cells_in t registers.new ≡ slice_set (kept_cells (held (cells_in t registers.old) from) from (cells_in t registers.old)) to (held (cells_in t registers.old) from) }
{
    let place = place_at(registers, from);
    match shape_at(registers, from) {
        Shape::Own => {
            empty(registers, from);
            set_own(registers, to, place);
        }
        Shape::Ref => set_reference(registers, to, place),
        Shape::Iso => {
            empty(registers, from);
            set_iso(registers, to, place);
        }
        _ => unreachable!(),
    }
}
