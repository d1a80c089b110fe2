// Results of calls.
ghost use Rattle.std.specs.Prelude.{◌≡◌, ℕ, ◌+◌, ◌-◌, ◌<◌, ◌≤◌, Some, length};
ghost use Rattle.vale_registers.specs.Cells.{HasRegister};
ghost use Rattle.vale_object_passing.specs.Passing.{IsHanded, IsMoved};

use vale_object_cells::{Register, Shape};
use vale_registers::Row;

// A register gets what a later one holds, and takes its text.
#[inline(always)]
fn move_register(from: &Register, to: &mut Register, texts: &mut Row, source: usize, target: usize)
    requires { target < source }
    ensures { IsMoved source target from.now to.new texts.old texts.new }
{
    *to = *from;
    match from.shape {
        Shape::Text => texts.hand(source, target),
        Shape::Int => {}
        Shape::Truth => {}
        Shape::Own => {}
        Shape::Ref => {}
        Shape::Iso => {}
        Shape::Empty => {}
    }
}

// A register of the frame from the base up to the top gets what one above the top holds.
#[inline(always)]
fn hand_within(
    registers: &mut [Register],
    texts: &mut Row,
    base: usize,
    top: usize,
    to: u32,
    from: usize,
)
    requires from { from < length registers.old }
    requires above { top ≤ from }
    requires room { base + to < top }
    ensures { IsHanded base top (Some to) from registers.old texts.old registers.new texts.new }
{
    let (lower, upper) = registers.split_at_mut(top);
    let target = base + to as usize;
    move_register(&upper[from - top], &mut lower[target], texts, from, target);
}

/// What a register above the top holds goes to one of the frame from the base up to the top, where there is one for it. Its text
/// goes with it.
#[inline(always)]
pub fn hand(
    registers: &mut Vec<Register>,
    texts: &mut Row,
    base: usize,
    top: usize,
    dest: Option<u32>,
    from: usize,
)
    requires from { from < length registers.old.items }
    requires above { top ≤ from }
    requires room { HasRegister dest (top - base) }
    ensures handed { IsHanded base top dest from registers.old.items texts.old registers.new.items texts.new }
    ensures size { length registers.new.items ≡ length registers.old.items }
{
    match dest {
        Some(to) => hand_within(registers, texts, base, top, to, from),
        None => {}
    }
}
