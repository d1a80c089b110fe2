// What is told of a trap.
ghost use Rattle.std.specs.Prelude.{◌≡◌, ◌-◌, IfOk, length, slice_get, take};
ghost use Rattle.vale_base.specs.Limits.{report_frames};
ghost use Rattle.vale_code.specs.Kinds.{text_at};
ghost use Rattle.vale_machine.specs.View.{call_of, calls_of, frames_of, name_in};

use crate::machine::{Frame, Machine};
use std::alloc::Global;
use vale_base::{FrameAt, Frames, Memory, REPORT_FRAMES, Spot, Text, TrapInfo, TrapKind};
use vale_code::Code;

// A copy of the name of a function; a number that none has gives the empty one.
fn name_of(alloc: Global, code: &Code, function: u32) -> Result<Text, Memory>
    ensures { IfOk result (λ text. text ≡ name_in code.now (slice_get code.now.funcs function)) }
{
    let functions = code.funcs.as_slice();
    if function as usize >= functions.len() {
        return Ok(Text::new(alloc));
    }
    text_of(alloc, code, functions[function as usize].name)
}

// A copy of a text of the code; a number that none has gives the empty one.
fn text_of(alloc: Global, code: &Code, number: u32) -> Result<Text, Memory>
    ensures { IfOk result (λ text. text ≡ text_at code.now number) }
{
    let texts = code.texts.as_slice();
    if number as usize >= texts.len() {
        return Ok(Text::new(alloc));
    }
    Text::from_slice(alloc, texts[number as usize].as_slice())
}

// The call of a frame.
fn call_at(alloc: Global, code: &Code, frame: &Frame) -> Result<FrameAt, Memory>
    ensures { IfOk result (λ call. call ≡ call_of code.now frame.now) }
{
    let what = name_of(alloc, code, frame.function)?;
    Ok(FrameAt { what, at: frame.at })
}

// The innermost calls.
fn calls(alloc: Global, code: &Code, machine: &Machine) -> Result<Frames, Memory>
    ensures { IfOk result (λ frames. frames ≡ take report_frames (calls_of code.now (frames_of machine.now))) }
{
    let mut calls = Vec::new(alloc);
    calls.push(call_at(alloc, code, &machine.top)?)?;
    let mut rest = machine.below.len();
    while rest > 0 && calls.len() < REPORT_FRAMES {
        rest -= 1;
        calls.push(call_at(alloc, code, &machine.below[rest])?)?;
    }
    Ok(Frames::from_vec(calls))
}

// A trap of the machine.
#[inline(never)]
pub fn trap_at(
    alloc: Global,
    code: &Code,
    machine: &Machine,
    kind: TrapKind,
    at: Spot,
) -> Result<TrapInfo, Memory>
    ensures { IfOk result (λ info. info ≡ record {
      kind = kind;
      at = at;
      frames = take report_frames (calls_of code.now (frames_of machine.now));
      more = length (calls_of code.now (frames_of machine.now)) - report_frames;
    }) }
{
    let frames = calls(alloc, code, machine)?;
    let count = machine.below.len() + 1;
    let more = if count > REPORT_FRAMES {
        (count - REPORT_FRAMES) as u64
    } else {
        0
    };
    Ok(TrapInfo {
        kind,
        at,
        frames,
        more,
    })
}
