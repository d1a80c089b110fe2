// The top call.
ghost use Rattle.std.specs.Prelude.{◌≡◌, ◌≢◌};
ghost use Rattle.vale_ports.specs.Shelf.{KeepsFiles};
ghost use Rattle.vale_run.specs.Built.{BuildsWhatIsMeant};
ghost use Rattle.vale_run.specs.Causes.{MayRead, MayTakeInput, MayWrite};
ghost use Rattle.vale_run.specs.Formatted.{StaysFormatted};
ghost use Rattle.vale_run.specs.Headline.{Answers};
ghost use Rattle.vale_run.specs.Owed.{OwesOne};
ghost use Rattle.vale_run.specs.Plain.{TakeNoInput};
ghost use Rattle.vale_words.specs.Words.{texts};

use crate::answer::{Stop, answer_of};
use crate::laws::{built_code_does_what_is_meant, served_programs_are_plain};
use std::alloc::Global;
use std::thread::Threads;
use vale_deliver::{Status, deliver, send};
use vale_ports::{Gate, Shelf, Sink, Source};

const READ_FAULT: u8 = 6;

const WANT_OF_MEMORY: u8 = 8;

/// Does what the words ask for (docs/LANGUAGE.md, "The command line" and "Answers"), with the files of the shelf:
/// `run FILE` and `exec CODE` write what a program prints to `out`, `fmt FILE` a program's canonical text, `list CODE` the
/// listing of a code file, and all to `err` why a file was refused or a run stopped; `build FILE CODE` writes a code file.
pub fn valec<R: Threads + Sync, H: Shelf, I: Source, O: Sink, E: Sink, G: Gate + Sync>(
    rt: &R,
    alloc: Global,
    words: &[String],
    shelf: &mut H,
    input: &mut I,
    out: &mut O,
    err: &mut E,
    gate: &G,
) -> Status
    ensures headline { Answers (texts words.now) (record { shelf = H.state shelf.old; input = I.state input.old; out = O.state out.old; err = E.state err.old }) (record { shelf = H.state shelf.new; input = I.state input.new; out = O.state out.new; err = E.state err.new }) result.0 }
    // at most one answer is owed
    ensures one { OwesOne }
    // `fmt` of what `fmt` printed prints the same
    ensures formatted { StaysFormatted }
    // no file is read unless the words ask for something that is served, and no input unless the program takes it
    ensures unread { (MayRead (texts words.now) → ⊥) → shelf.new ≡ shelf.old }
    ensures untaken { (MayTakeInput (texts words.now) (H.state shelf.old) → ⊥) → input.new ≡ input.old }
    // the code that is built of a program does what the program means
    ensures built { BuildsWhatIsMeant }
    // no file is written unless the words ask for it
    ensures files { (MayWrite (texts words.now) → ⊥) → KeepsFiles (H.state shelf.old).files (H.state shelf.new).files }
    // So far no program takes input, and none needs a page.
    ensures takes_none { TakeNoInput }
    ensures input { input.new ≡ input.old }
    ensures pages { result.0 ≢ 5 }
{
    served_programs_are_plain();
    built_code_does_what_is_meant();
    match answer_of(alloc, words, shelf) {
        Ok(answer) => deliver(alloc, &answer, shelf, out, err),
        Err(Stop::Memory) => send(WANT_OF_MEMORY, &[], b"memory\n", out, err),
        Err(Stop::ReadFault) => send(READ_FAULT, &[], b"read fault\n", out, err),
    }
}
