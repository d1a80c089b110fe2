ghost use Rattle.std.specs.Prelude.{◌≡◌, ◌++◌, IfOk, OnOk};
ghost use Rattle.vale_model.specs.Report.{kind_text, spot_text, outer_text, frames_text, more_text, report_text};

use std::alloc::Global;
use vale_base::{FrameAt, Memory, Spot, TrapInfo, TrapKind};

fn kind_text(kind: TrapKind) -> &'static str
    ensures { result.now ≡ kind_text kind }
{
    match kind {
        TrapKind::Overflow => "overflow",
        TrapKind::DivisionByZero => "division by zero",
        TrapKind::DeadReference => "dead reference",
        TrapKind::IndexOutOfRange => "index out of range",
        TrapKind::ArrayTooLong => "array too long",
        TrapKind::TextTooLong => "text too long",
        TrapKind::EmptyPop => "empty pop",
        TrapKind::NotANumber => "not a number",
        TrapKind::CallDepth => "call depth",
        TrapKind::LoopTooWide => "loop too wide",
    }
}

fn push_spot(alloc: Global, text: &mut Vec<u8>, at: Spot) -> Result<(), Memory>
    ensures { OnOk result (text.new.items ≡ text.old.items ++ spot_text at) }
{
    let line = at.line;
    let col = at.col;
    text.extend_from_slice(format!(in alloc; "{line}:{col}")?.as_bytes())?;
    Ok(())
}

fn push_outer(
    alloc: Global,
    text: &mut Vec<u8>,
    frames: &[FrameAt],
    inner: Spot,
) -> Result<(), Memory>
    ensures { OnOk result (text.new.items ≡ text.old.items ++ outer_text inner frames.now) }
{
    let mut at = inner;
    for frame in frames {
        text.extend_from_slice(b"called at ")?;
        push_spot(alloc, text, at)?;
        text.extend_from_slice(b" in ")?;
        text.extend_from_slice(frame.what.as_slice())?;
        text.extend_from_slice(b"\n")?;
        at = frame.at;
    }
    Ok(())
}

fn push_frames(alloc: Global, text: &mut Vec<u8>, frames: &[FrameAt]) -> Result<(), Memory>
    ensures { OnOk result (text.new.items ≡ text.old.items ++ frames_text frames.now) }
{
    let [frame, outer @ ..] = frames else {
        return Ok(());
    };
    text.extend_from_slice(b"in ")?;
    text.extend_from_slice(frame.what.as_slice())?;
    text.extend_from_slice(b"\n")?;
    push_outer(alloc, text, outer, frame.at)
}

fn push_more(alloc: Global, text: &mut Vec<u8>, more: u64) -> Result<(), Memory>
    ensures { OnOk result (text.new.items ≡ text.old.items ++ more_text more) }
{
    if more > 0 {
        text.extend_from_slice(format!(in alloc; "and {more} more\n")?.as_bytes())?;
    }
    Ok(())
}

/// The report of a trap (docs/LANGUAGE.md, "Reports"): why and where the program stopped, and what was under way.
pub fn report(alloc: Global, info: &TrapInfo) -> Result<Vec<u8>, Memory>
    ensures { IfOk result (λ text. text.items ≡ report_text info.now) }
{
    let mut text = Vec::new(alloc);
    text.extend_from_slice(b"trap: ")?;
    text.extend_from_slice(kind_text(info.kind).as_bytes())?;
    text.extend_from_slice(b" at ")?;
    push_spot(alloc, &mut text, info.at)?;
    text.extend_from_slice(b"\n")?;
    push_frames(alloc, &mut text, info.frames.as_slice())?;
    push_more(alloc, &mut text, info.more)?;
    Ok(text)
}
