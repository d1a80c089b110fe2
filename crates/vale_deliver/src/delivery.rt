// Hands an answer to the outside.
ghost use Rattle.std.specs.Prelude.{◌≡◌, ◌≤◌, None};
ghost use Rattle.vale_deliver.specs.Delivered.{Handed, Sent};
ghost use Rattle.vale_deliver.specs.Outside.{Outside};
ghost use Rattle.vale_ports.specs.Shelf.{ShelfState};
ghost use Rattle.vale_ports.specs.Streams.{SourceState};

use crate::Answer;
use std::alloc::Global;
use vale_ports::{Shelf, ShelfFault, Sink, write_all};

/// The exit status of the program (docs/LANGUAGE.md, "Answers").
#[derive(Clone, Copy, Debug, PartialEq, Eq)]
pub struct Status(pub u8);

const WRITE_FAULT: u8 = 7;

const WANT_OF_MEMORY: u8 = 8;

/// Writes to `out` and then to `err`. A sink that fails ends it, with status 7. It takes no memory.
pub fn send<O: Sink, E: Sink>(
    status: u8,
    text: &[u8],
    report: &[u8],
    out: &mut O,
    err: &mut E,
) -> Status
    ensures sent { (before after : ShelfState) (left right : SourceState) → Sent (record { status = status; file = None; out = text.now; err = report.now }) result.0 (record { shelf = before; input = left; out = O.state out.old; err = E.state err.old }) (record { shelf = after; input = right; out = O.state out.new; err = E.state err.new }) }
    ensures out_later { (O.state out.old).faults ≤ (O.state out.new).faults }
    ensures err_later { (E.state err.old).faults ≤ (E.state err.new).faults }
{
    if let Err(_refused) = write_all(out, text) {
        return Status(WRITE_FAULT);
    }
    match write_all(err, report) {
        Ok(()) => Status(status),
        Err(_refused) => Status(WRITE_FAULT),
    }
}

/// Writes the answer's file, where it has one, and sends the bytes. Where the shelf fails nothing is sent, and the status
/// is 7.
pub fn deliver<H: Shelf, O: Sink, E: Sink>(
    alloc: Global,
    answer: &Answer,
    shelf: &mut H,
    out: &mut O,
    err: &mut E,
) -> Status
    ensures handed { (input : SourceState) → Handed answer.now result.0 (record { shelf = H.state shelf.old; input = input; out = O.state out.old; err = E.state err.old }) (record { shelf = H.state shelf.new; input = input; out = O.state out.new; err = E.state err.new }) }
    ensures kept { answer.now.file ≡ None → shelf.new ≡ shelf.old }
    ensures shelf_later { (H.state shelf.old).faults ≤ (H.state shelf.new).faults }
    ensures out_later { (O.state out.old).faults ≤ (O.state out.new).faults }
    ensures err_later { (E.state err.old).faults ≤ (E.state err.new).faults }
{
    let (text, report) = (answer.out.as_slice(), answer.err.as_slice());
    let Some(file) = &answer.file else {
        return send(answer.status, text, report, out, err);
    };
    match shelf.write(alloc, file.name(), file.bytes()) {
        Ok(()) => send(answer.status, text, report, out, err),
        Err(ShelfFault::Failed) => Status(WRITE_FAULT),
        Err(ShelfFault::Memory) => send(WANT_OF_MEMORY, &[], b"memory\n", out, err),
    }
}
