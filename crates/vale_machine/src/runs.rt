// A whole run.
ghost use Rattle.std.specs.Prelude.{◌≡◌, ◌<◌, ◌≤◌, [], List, true};
ghost use Rattle.vale_base.specs.Limits.{ticks_limit};
ghost use Rattle.vale_cert.specs.Certificate.{Certified};
ghost use Rattle.vale_cert.specs.Input.{takes_input};
ghost use Rattle.vale_cert.specs.declared.facts.FuncFacts.{FuncFacts};
ghost use Rattle.vale_code.specs.Run.{run_code};
ghost use Rattle.vale_machine.specs.Finishes.{Finishes};
ghost use Rattle.vale_machine.specs.Given.{given_of};

use crate::machine::Machine;
use crate::start::Input;
use crate::turn::End;
use std::alloc::Global;
use vale_base::Piece;
use vale_code::Code;
use vale_verifier::Verified;

/// What a run printed, and how it ended.
#[derive(Drop)]
pub struct Finished {
    pub pieces: Vec<Piece>,
    pub end: End,
}

/// Runs certified code: what is printed, when, and how it ends is what the code means. Where memory is wanting, what was
/// printed is the first of it. There are no objects yet, so the code has no kinds.
pub fn run(alloc: Global, code: &Verified, input: Input, ticks: u64) -> Finished
    requires no_kinds { code.now.code.kinds ≡ [] }
    requires takes { takes_input code.now.code (given_of input) ≡ true }
    requires none { input ≡ Input.None }
    requires some { 0 < ticks }
    requires few { ticks ≤ ticks_limit }
    ensures { Finishes result ticks (run_code code.now.code (given_of input) ticks) }
{
    run_certified(alloc, &code.code, input, ticks)
}

/// The same of a code that some facts certify, which need not be at hand: a machine goes by the code alone.
pub fn run_certified(alloc: Global, code: &Code, input: Input, ticks: u64) -> Finished
    requires certified { (facts : List FuncFacts) × Certified code.now facts }
    requires no_kinds { code.now.kinds ≡ [] }
    requires takes { takes_input code.now (given_of input) ≡ true }
    requires none { input ≡ Input.None }
    requires some { 0 < ticks }
    requires few { ticks ≤ ticks_limit }
    ensures { Finishes result ticks (run_code code.now (given_of input) ticks) }
{
    let mut machine = match Machine::start_code(alloc, code, input, ticks) {
        Ok(machine) => machine,
        Err(_) => {
            return Finished {
                pieces: Vec::new(alloc),
                end: End::Memory,
            };
        }
    };
    'stretches: loop {
        let step = machine.advance(code);
        if !step.is_going() {
            let end = machine.end_of(code, step);
            return Finished {
                pieces: machine.take_pieces(),
                end,
            };
        }
    }
}
