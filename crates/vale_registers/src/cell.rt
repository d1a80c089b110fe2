// What registers hold, and how they are read and written.
ghost use Rattle.std.specs.Prelude.{◌≡◌, ◌≢◌, ◌<◌, ℕ, List, Some, length};
ghost use Rattle.vale_state_spec.specs.World.{Int as an_int, Text as a_text, Truth as a_truth};
ghost use Rattle.vale_code.specs.Registers.{put, read};
ghost use Rattle.vale_registers.specs.Cells.{HoldsInt, HoldsTruth, IsShaped, holds_text, values_in};

/// What a cell holds: nothing, a number, a truth or a text.
#[derive(Clone, Copy)]
pub enum Shape {
    Empty,
    Int,
    Truth,
    Text,
}

/// A register: its shape, and what it holds by its shape. The other part may be anything; a text stands in a row.
#[derive(Clone, Copy)]
pub struct Cell {
    pub shape: Shape,
    pub truth: bool,
    pub number: i64,
}

/// The number in a register that holds one.
#[inline(always)]
#[tactic(auto, using(crate::proofs::Registers::int_within, crate::proofs::Registers::int_is))]
pub fn int_at(cells: &[Cell], register: u32) -> i64
    requires { HoldsInt cells.now register }
    ensures { (t : ℕ → List ℕ) → read (values_in t cells.now) register ≡ Some (an_int result) }
{
    cells[register as usize].number
}

/// The truth in a register that holds one.
#[inline(always)]
pub fn truth_at(cells: &[Cell], register: u32) -> bool
    requires { HoldsTruth cells.now register }
    ensures { (t : ℕ → List ℕ) → read (values_in t cells.now) register ≡ Some (a_truth result) }
{
    cells[register as usize].truth
}

/// The shape of a register.
#[inline(always)]
pub fn shape_at(cells: &[Cell], register: u32) -> Shape
    requires { register < length cells.now }
    ensures { IsShaped cells.now register result }
{
    cells[register as usize].shape
}

/// Whether a register holds a text.
#[inline(always)]
pub fn is_text(cells: &[Cell], register: u32) -> bool
    requires { register < length cells.now }
    ensures { (t : ℕ → List ℕ) → result ≡ holds_text (read (values_in t cells.now) register) }
{
    match shape_at(cells, register) {
        Shape::Text => true,
        Shape::Empty => false,
        Shape::Int => false,
        Shape::Truth => false,
    }
}

/// A number goes to a register.
#[inline(always)]
pub fn set_int(cells: &mut [Cell], register: u32, number: i64)
    requires { register < length cells.old }
    ensures { (t : ℕ → List ℕ) → values_in t cells.new ≡ put (values_in t cells.old) register (Some (an_int number)) }
{
    let cell = &mut cells[register as usize];
    cell.shape = Shape::Int;
    cell.number = number;
}

/// A truth goes to a register.
#[inline(always)]
pub fn set_truth(cells: &mut [Cell], register: u32, truth: bool)
    requires { register < length cells.old }
    ensures { (t : ℕ → List ℕ) → values_in t cells.new ≡ put (values_in t cells.old) register (Some (a_truth truth)) }
{
    let cell = &mut cells[register as usize];
    cell.shape = Shape::Truth;
    cell.truth = truth;
}

/// The text of a register in a row goes to it; no other register has another text.
#[inline(always)]
pub fn set_text(cells: &mut [Cell], register: usize)
    requires { register < length cells.old }
    ensures { (t u : ℕ → List ℕ) → ((i : ℕ) → i ≢ register → i < length cells.old → u i ≡ t i) → values_in u cells.new ≡ put (values_in t cells.old) register (Some (a_text (u register))) }
{
    let cell = &mut cells[register];
    cell.shape = Shape::Text;
}
