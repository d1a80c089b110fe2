// Comparisons of what two registers hold.
ghost use Rattle.std.specs.Prelude.{◌≡◌, ℕ, ◌+◌, ◌<◌, ◌^◌, Bool, List, Some, length};
ghost use Rattle.vale_state_spec.specs.World.{Text as a_text};
ghost use Rattle.vale_code.specs.Instructions.{comparison_of};
ghost use Rattle.vale_code.specs.declared.instr.Instr.{Instr};
ghost use Rattle.vale_heap.specs.HeapState.{HeapState};
ghost use Rattle.vale_heap.specs.declared.body.Place.{Place as APlace};
ghost use Rattle.vale_turn.specs.Comparing.{compared};
ghost use Rattle.vale_turn.specs.View.{Stays};
ghost use Rattle.vale_object_cells.specs.Cells.{cells_from};
ghost use Rattle.vale_object_turn.specs.Steps.{HasRule, Obeys};
ghost use Rattle.vale_object_compares.specs.Compares.{compared_in};

use vale_base::Text;
use vale_object_cells::{Register, Shape, int_at, set_truth, shape_at, truth_at};
use vale_registers::Row;
use vale_turn::{Stop, matched, ordered};

// Whether a comparison holds of two texts.
fn collated(choice: u8, left: &Text, right: &Text) -> bool
    requires { (b : Bool) × (compared (comparison_of choice) (Some (a_text left.now)) (Some (a_text right.now)) ≡ Some b) }
    ensures { compared (comparison_of choice) (Some (a_text left.now)) (Some (a_text right.now)) ≡ Some result }
{
    let order = left.as_slice().cmp(&right.as_slice());
    match choice {
        0 => order.is_eq(),
        1 => order.is_ne(),
        2 => order.is_lt(),
        3 => order.is_le(),
        4 => order.is_gt(),
        5 => order.is_ge(),
        _ => unreachable!(),
    }
}

// Whether a comparison holds of what two registers hold.
#[inline(always)]
fn verdict(
    registers: &[Register],
    texts: &Row,
    base: usize,
    choice: u8,
    left: u32,
    right: u32,
) -> bool
    requires few { base + length registers.now < 2 ^ 64 }
    requires right { (names : List APlace) × (b : Bool) × (compared_in names (cells_from base texts.now registers.now) choice left right ≡ Some b) }
    ensures { (names : List APlace) → compared_in names (cells_from base texts.now registers.now) choice left right ≡ Some result }
{
    match shape_at(registers, left) {
        Shape::Int => {
            let first = int_at(registers, left);
            let second = int_at(registers, right);
            ordered(choice, first, second)
        }
        Shape::Truth => {
            let former = truth_at(registers, left);
            let latter = truth_at(registers, right);
            matched(choice, former, latter)
        }
        Shape::Text => {
            let one = texts.text(base + left as usize);
            let other = texts.text(base + right as usize);
            collated(choice, one, other)
        }
        _ => unreachable!(),
    }
}

/// Whether a comparison holds of what two registers hold goes to a register. No text changes.
pub fn obey_compare(
    registers: &mut [Register],
    texts: &Row,
    base: usize,
    place: &mut usize,
    to: u32,
    choice: u8,
    left: u32,
    right: u32,
) -> Stop
    requires room { to < length registers.old }
    requires few { base + length registers.old < 2 ^ 64 }
    requires place { place.old + 1 < 2 ^ 64 }
    requires right { (heap : HeapState) × (ticks : ℕ) × HasRule heap (cells_from base texts.now registers.old) place.old ticks (Instr.Cmp to choice left right) }
    ensures step { (heap : HeapState) (ticks : ℕ) → Obeys (Instr.Cmp to choice left right) heap (cells_from base texts.now registers.old) place.old ticks result heap (cells_from base texts.now registers.new) place.new ticks }
    ensures stays { Stays result }
{
    let truth = verdict(registers, texts, base, choice, left, right);
    set_truth(registers, to, truth);
    *place += 1;
    Stop::Going
}
