//! A host that runs the programs of its guests, each with a budget of ticks (docs/EMBEDDING.md).
#![tactic(auto)]

mod guest;

use guest::{GUESTS, Guest, Stop, run_guest};
use std::alloc::Global;
use std::process::ExitCode;
use vale_base::Memory;
use vale_machine::{End, Finished};
use vale_ports::{StdSink, write_all};
use vale_trap::report;

// What a guest printed, and how it ended.
fn tell_run(alloc: Global, ran: &Finished, out: &mut Vec<u8>) -> Result<(), Memory> {
    for piece in &ran.pieces {
        out.extend_from_slice(piece.bytes.as_slice())?;
    }
    match &ran.end {
        End::Done { ticks } => {
            out.extend_from_slice(format!(in alloc; "done after {ticks} ticks\n")?.as_bytes())?
        }
        End::Trap { info, .. } => out.extend_from_slice(report(alloc, info)?.as_slice())?,
        End::Cut => out.extend_from_slice(b"its budget is spent\n")?,
        End::Memory => return Err(Memory),
    }
    Ok(())
}

// One guest's run, under its name.
fn tell_guest(alloc: Global, guest: &Guest, out: &mut Vec<u8>) -> Result<(), Memory> {
    out.extend_from_slice(format!(in alloc; "-- {}\n", guest.name)?.as_bytes())?;
    match run_guest(alloc, guest.text.as_bytes(), guest.ticks) {
        Ok(ran) => tell_run(alloc, &ran, out),
        Err(Stop::Refused(refusal)) => {
            out.extend_from_slice(format!(in alloc; "refused: {refusal}\n")?.as_bytes())?;
            Ok(())
        }
        Err(Stop::Uncertified(fault)) => {
            out.extend_from_slice(format!(in alloc; "not certified: {fault}\n")?.as_bytes())?;
            Ok(())
        }
        Err(Stop::Memory) => Err(Memory),
    }
}

fn tell_all(alloc: Global) -> Result<Vec<u8>, Memory> {
    let mut out = Vec::new(alloc);
    for guest in GUESTS {
        tell_guest(alloc, guest, &mut out)?;
    }
    Ok(out)
}

fn main(rt: HostRuntime) -> ExitCode {
    let Ok(told) = tell_all(rt.alloc()) else {
        return ExitCode::from(8);
    };
    let mut out = StdSink::new(rt.stdout());
    match write_all(&mut out, told.as_slice()) {
        Ok(()) => ExitCode::from(0),
        Err(_) => ExitCode::from(7),
    }
}
