// Room for registers.
ghost use Rattle.std.specs.Prelude.{◌≡◌, ◌-◌, ◌≤◌, ◌++◌, OnOk, length, replicate, take};
ghost use Rattle.vale_object_passing.specs.Passing.{empty};

use vale_base::Memory;
use vale_object_cells::{Register, Shape};

/// Empty registers behind all registers, until there are so many.
#[inline(never)]
pub fn fill(registers: &mut Vec<Register>, count: usize) -> Result<(), Memory>
    requires { length registers.old.items ≤ count }
    ensures { OnOk result (registers.new.items ≡ registers.old.items ++ replicate (count - length registers.old.items) empty) }
{
    let register = Register {
        shape: Shape::Empty,
        truth: false,
        slot: 0,
        frame: 0,
        number: 0,
        generation: 0,
    };
    registers.resize(count, register)?;
    Ok(())
}

/// Room for so many registers; those that are there stay.
#[inline(always)]
pub fn reserve(registers: &mut Vec<Register>, count: usize) -> Result<(), Memory>
    ensures size { OnOk result (count ≤ length registers.new.items) }
    ensures same { OnOk result (take (length registers.old.items) registers.new.items ≡ registers.old.items) }
{
    if count <= registers.len() {
        return Ok(());
    }
    fill(registers, count)
}
