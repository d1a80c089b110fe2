// How a machine begins, and what it gives.
ghost use Rattle.std.specs.Prelude.{◌≡◌, ◌<◌, ◌≤◌, ◌++◌, [], List, IfOk, true};
ghost use Rattle.vale_base.specs.Limits.{ticks_limit};
ghost use Rattle.vale_state_spec.specs.State.{no_input};
ghost use Rattle.vale_base.specs.declared.piece.Piece.{Piece};
ghost use Rattle.vale_cert.specs.Certificate.{Certified};
ghost use Rattle.vale_cert.specs.Input.{takes_input};
ghost use Rattle.vale_cert.specs.declared.facts.FuncFacts.{FuncFacts};
ghost use Rattle.vale_code.specs.Frames.{On};
ghost use Rattle.vale_code.specs.Parts.{Parts};
ghost use Rattle.vale_code.specs.Run.{start};
ghost use Rattle.vale_machine.specs.Given.{IsStartable, given_of};
ghost use Rattle.vale_machine.specs.UnderWay.{IsUnderWay};
ghost use Rattle.vale_machine.specs.View.{IsLaid, KeepsTicks, config_of};

use crate::machine::{Frame, Machine};
use std::alloc::Global;
use std::mem;
use vale_base::{Memory, Piece, Spot, Text};
use vale_code::Code;
use vale_registers::{Row, fill};
use vale_turn::function_of;
use vale_verifier::Verified;

/// What `main` gets: nothing, or an array of numbers or of texts.
#[derive(Drop)]
pub enum Input {
    None,
    Ints(Vec<i64>),
    Lines(Vec<Text>),
}

// The machine at the entry of a `main` that takes nothing.
fn begin(alloc: Global, code: &Code, ticks: u64) -> Result<Machine, Memory>
    requires startable { IsStartable code.now }
    requires some { 0 < ticks }
    ensures begins { IfOk result (λ m. start code.now no_input ticks ≡ On (config_of code.now [] m)) }
    ensures laid { IfOk result (λ m. IsLaid code.now m) }
    ensures given { IfOk result (λ m. m.given ≡ ticks) }
    ensures left { IfOk result (λ m. m.left ≤ m.given) }
{
    let main = function_of(code, code.main);
    let mut cells = Vec::new(alloc);
    let end = main.registers as usize;
    fill(&mut cells, end)?;
    let top = Frame {
        function: code.main,
        at: Spot { line: 1, col: 1 },
        dest: None,
        place: 0,
        base: 0,
    };
    Ok(Machine {
        alloc,
        cells,
        end,
        texts: Row::new(alloc),
        top,
        below: Vec::new(alloc),
        left: ticks - 1,
        given: ticks,
        pieces: Vec::new(alloc),
    })
}

impl Machine {
    // The machine before the first instruction of `main`, or the want of memory.
    pub(crate) fn start_code(
        alloc: Global,
        code: &Code,
        input: Input,
        ticks: u64,
    ) -> Result<Machine, Memory>
        requires certified { (facts : List FuncFacts) × Certified code.now facts }
        requires no_kinds { code.now.kinds ≡ [] }
        requires takes { takes_input code.now (given_of input) ≡ true }
        requires none { input ≡ Input.None }
        requires some { 0 < ticks }
        requires few { ticks ≤ ticks_limit }
        ensures begins { IfOk result (λ m. start code.now (given_of input) ticks ≡ On (config_of code.now [] m)) }
        ensures under_way { IfOk result (λ m. IsUnderWay code.now [] m) }
        ensures ticks { IfOk result (λ m. m.given ≡ ticks) }
    {
        begin(alloc, code, ticks)
    }

    /// The machine before the first instruction of `main`, or the want of memory. The input has the form that `main` takes;
    /// up to now it is none and the code has no kinds, since there is no heap for objects. The ticks are 1 to 2^62.
    pub fn start(
        alloc: Global,
        code: &Verified,
        input: Input,
        ticks: u64,
    ) -> Result<Machine, Memory>
        requires no_kinds { code.now.code.kinds ≡ [] }
        requires takes { takes_input code.now.code (given_of input) ≡ true }
        requires none { input ≡ Input.None }
        requires some { 0 < ticks }
        requires few { ticks ≤ ticks_limit }
        ensures begins { IfOk result (λ m. start code.now.code (given_of input) ticks ≡ On (config_of code.now.code [] m)) }
        ensures under_way { IfOk result (λ m. IsUnderWay code.now.code [] m) }
        ensures ticks { IfOk result (λ m. m.given ≡ ticks) }
    {
        Machine::start_code(alloc, &code.code, input, ticks)
    }

    /// The pieces since the last such call. It takes no memory.
    pub fn take_pieces(&mut self) -> Vec<Piece>
        ensures taken { result.items ≡ self.old.pieces.items }
        ensures same { (code : Parts) (taken : List Piece) → config_of code (taken ++ result.items) self.new ≡ config_of code taken self.old }
        ensures under_way { (code : Parts) (taken : List Piece) → IsUnderWay code taken self.old → IsUnderWay code (taken ++ result.items) self.new }
        ensures ticks { KeepsTicks self.old self.new }
    {
        mem::replace(&mut self.pieces, Vec::new(self.alloc))
    }
}
