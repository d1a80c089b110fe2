// What an accepted program prints, and how it ends.
ghost use Rattle.std.specs.Prelude.{◌≡◌, ◌<◌, ◌≤◌, ◌++◌, IfOk, codes};
ghost use Rattle.std.specs.Fmt.{decimal};
ghost use Rattle.vale_base.specs.Limits.{ticks_limit};
ghost use Rattle.vale_state_spec.specs.Outcome.{Outcome, joined};
ghost use Rattle.vale_state_spec.specs.State.{no_input};
ghost use Rattle.vale_core.specs.View.{view_core};
ghost use Rattle.vale_machine.specs.Finishes.{Finishes};
ghost use Rattle.vale_model.specs.Meaning.{meaning};
ghost use Rattle.vale_model.specs.Report.{report_text};
ghost use Rattle.vale_run.specs.Owed.{EndsWith, plain_answer};
ghost use Rattle.vale_sound.specs.Runs.{Runs};

use crate::plain::plain_answer;
use std::alloc::Global;
use vale_base::{Memory, Piece, Text, TrapInfo};
use vale_core::Core;
use vale_deliver::Answer;
use vale_lower_code::lower_code;
use vale_machine::{End, Finished, Input, run_certified};
use vale_trap::report;

// How many bytes the pieces have, or the greatest number where they have more.
fn joined_len(pieces: &[Piece]) -> usize {
    let mut len: usize = 0;
    for piece in pieces {
        len = len.saturating_add(piece.bytes.len());
    }
    len
}

// The bytes of the pieces, in order.
fn joined(alloc: Global, pieces: &[Piece]) -> Result<Text, Memory>
    ensures { IfOk result (λ t. t ≡ joined pieces.now) }
{
    let mut bytes = Vec::with_capacity(alloc, joined_len(pieces))?;
    for piece in pieces {
        bytes.extend_from_slice(piece.bytes.as_slice())?;
    }
    Ok(Text::from_vec(bytes))
}

// A run that trapped, and what it printed before.
fn trapped(alloc: Global, out: Text, info: &TrapInfo) -> Result<Answer, Memory>
    ensures { IfOk result (λ a. a ≡ plain_answer 3 out (report_text info.now)) }
{
    let err = Text::from_vec(report(alloc, info)?);
    Ok(plain_answer(3, out, err))
}

// A run that was cut after so many ticks, and what it printed before.
fn cut(alloc: Global, out: Text, ticks: u64) -> Result<Answer, Memory>
    ensures { IfOk result (λ a. a ≡ plain_answer 4 out (codes "cut after " ++ decimal ticks ++ codes " ticks\n")) }
{
    let line = format!(in alloc; "cut after {ticks} ticks\n")?;
    let err = Text::from_slice(alloc, line.as_bytes())?;
    Ok(plain_answer(4, out, err))
}

/// What is told of a run with so many ticks.
pub fn told(alloc: Global, ran: &Finished, ticks: u64) -> Result<Answer, Memory>
    ensures { (o : Outcome) → Finishes ran.now ticks o → IfOk result (EndsWith o) }
{
    let out = joined(alloc, &ran.pieces)?;
    match &ran.end {
        End::Done { .. } => Ok(plain_answer(0, out, Text::new(alloc))),
        End::Trap { info, .. } => trapped(alloc, out, info),
        End::Cut => cut(alloc, out, ticks),
        End::Memory => Err(Memory),
    }
}

/// The answer to the run of a program, with 1 to 2^62 ticks to spend.
pub fn run_program(alloc: Global, core: &Core, ticks: u64) -> Result<Answer, Memory>
    requires runs { Runs (view_core core.now) }
    requires some { 0 < ticks }
    requires few { ticks ≤ ticks_limit }
    ensures { IfOk result (EndsWith (meaning (view_core core.now) no_input ticks)) }
{
    let code = lower_code(alloc, core)?;
    let ran = run_certified(alloc, &code, Input::None, ticks);
    told(alloc, &ran, ticks)
}
