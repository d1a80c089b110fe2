// A stretch of steps within one function.
ghost use Rattle.std.specs.Prelude.{◌≡◌, ◌+◌, ◌<◌, ◌≤◌, ◌^◌, Some, length, slice_get};
ghost use Rattle.vale_turn.specs.Served.{AreFit};
ghost use Rattle.vale_turn.specs.View.{EndsBy, IfStopped, IsSafe, Leads, OnceBy, Scene, config};

use crate::obey::obey;
use crate::stop::Stop;
use vale_code::{Code, Func, Instr};
use vale_registers::Cell;

/// A function of a code.
#[inline(always)]
pub fn function_of(code: &Code, function: u32) -> &Func
    requires { function < length code.now.funcs }
    ensures { slice_get code.now.funcs function ≡ Some result.now }
{
    &code.funcs.as_slice()[function as usize]
}

/// The instruction at a place.
#[inline(always)]
pub fn instr_at(body: &[Instr], place: usize) -> &Instr
    requires { place < length body.now }
    ensures found { slice_get body.now place ≡ Some result.now }
    ensures place { place + 1 < 2 ^ 64 }
{
    &body[place]
}

/// Runs a function from a place on, up to where an instruction is done aside, another is entered, this one is left, or the run ends.
#[inline(always)]
pub fn go(code: &Code, function: u32, cells: &mut [Cell], place: &mut usize, left: &mut u64) -> Stop
    requires known { function < length code.now.funcs }
    requires fit { AreFit code.now function (length cells.old) }
    requires safe { (s : Scene) × (left.old ≤ s.given) × IsSafe code.now (config function s place.old cells.old left.old) }
    ensures leads { (s : Scene) → left.old ≤ s.given
        → Leads code.now (config function s place.old cells.old left.old) (config function s place.new cells.new left.new) }
    ensures ends { (s : Scene) → left.old ≤ s.given → EndsBy code.now function s result place.new cells.new left.new }
    ensures ticks { left.new ≤ left.old }
{
    let body = function_of(code, function).body.as_slice();
    'turns: loop {
        let instr = instr_at(body, *place);
        let stop = obey(body, instr, cells, place, left);
        match stop {
            Stop::Going => {}
            _ => return stop,
        }
    }
}

/// One instruction of a function.
pub fn once(
    code: &Code,
    function: u32,
    cells: &mut [Cell],
    place: &mut usize,
    left: &mut u64,
) -> Stop
    requires known { function < length code.now.funcs }
    requires fit { AreFit code.now function (length cells.old) }
    requires safe { (s : Scene) × (left.old ≤ s.given) × IsSafe code.now (config function s place.old cells.old left.old) }
    ensures step { (s : Scene) → left.old ≤ s.given
        → OnceBy code.now function s result (config function s place.old cells.old left.old) place.new cells.new left.new }
    ensures same { IfStopped result ((place.new ≡ place.old) × (cells.new ≡ cells.old) × (left.new ≡ left.old)) }
    ensures ticks { left.new ≤ left.old }
{
    let body = function_of(code, function).body.as_slice();
    let instr = instr_at(body, *place);
    obey(body, instr, cells, place, left)
}
