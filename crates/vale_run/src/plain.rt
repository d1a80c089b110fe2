// Answers that write no file.
ghost use Rattle.std.specs.Prelude.{◌≡◌, IfOk};
ghost use Rattle.vale_run.specs.Owed.{plain_answer, refused, bad_word};

use std::alloc::Global;
use vale_base::{Memory, Spot, Text};
use vale_deliver::Answer;
use vale_front::Refusal;

/// An answer that writes no file.
pub fn plain_answer(status: u8, out: Text, err: Text) -> Answer
    ensures { result ≡ plain_answer status out err }
{
    Answer {
        status,
        file: None,
        out,
        err,
    }
}

/// The answer to a text that is refused.
pub fn refused(alloc: Global, refusal: Refusal) -> Result<Answer, Memory>
    ensures { IfOk result (λ a. a ≡ refused refusal.code refusal.at) }
{
    let (tens, ones) = (refusal.code / 10, refusal.code % 10);
    let Spot { line, col } = refusal.at;
    let line = format!(in alloc; "E{tens}{ones} at {line}:{col}\n")?;
    let err = Text::from_slice(alloc, line.as_bytes())?;
    Ok(plain_answer(1, Text::new(alloc), err))
}

/// The answer to a word that has no meaning, or isn't served.
pub fn bad_word(alloc: Global, index: usize) -> Result<Answer, Memory>
    ensures { IfOk result (λ a. a ≡ bad_word index) }
{
    let line = format!(in alloc; "word {index}\n")?;
    let err = Text::from_slice(alloc, line.as_bytes())?;
    Ok(plain_answer(2, Text::new(alloc), err))
}
