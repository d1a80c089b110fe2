// What the words are owed: a status, and the bytes for `out` and `err`.
ghost use Rattle.std.specs.Prelude.{◌≡◌, ◌≤◌, ◌<◌, ◌+◌, ◌^◌, ℕ, List, [], length, IfOk, IsErrOf};
ghost use Rattle.vale_base.specs.Limits.{ticks_limit};
ghost use Rattle.vale_ports.specs.Shelf.{HasFile, KeepsFiles, ReadsFile};
ghost use Rattle.vale_ports.specs.Streams.{SourceState};
ghost use Rattle.vale_run.specs.Causes.{ReadFailed, FileFails, MayRead};
ghost use Rattle.vale_run.specs.CodeMeans.{BuildsTo, ExecsTo, ListsTo};
ghost use Rattle.vale_run.specs.Means.{counts, RunsTo, ChecksTo, FormatsTo};
ghost use Rattle.vale_run.specs.Owed.{plain_answer, other_option, unserved, AnswersSome, OwesUntaken, Serves};
ghost use Rattle.vale_syntax.specs.Canon.{canon};
ghost use Rattle.vale_syntax.specs.View.{view_tree};
ghost use Rattle.vale_words.specs.Words.{Asks, texts};

use crate::codes::{build_text, exec_code, list_code};
use crate::laws::served_programs_are_plain;
use crate::plain::{bad_word, plain_answer, refused};
use crate::running::run_program;
use std::alloc::Global;
use vale_base::{CODE_FILE_LIMIT, Fail, Memory, PROGRAM_LIMIT, Text};
use vale_deliver::Answer;
use vale_front::{front, read};
use vale_ports::{Shelf, ShelfFault};
use vale_printer::print;
use vale_sound::accepted_programs_run;
use vale_syntax::Tree;
use vale_words::{Job, Options, read_words};

/// Why there is no answer.
#[derive(Clone, Copy, Debug, PartialEq, Eq)]
pub enum Stop {
    Memory,
    ReadFault,
}

impl From<Memory> for Stop {
    ghost use Rattle.std.specs.Prelude.{◌≡◌};
    ghost use Rattle.vale_run.specs.declared.answer.Stop.TheVariants.{Memory as WantsMemory};

    ghost from_gives = { λ _ e. e ≡ WantsMemory };

    fn from(_: Memory) -> Self {
        Stop::Memory
    }
}

/// The answer to the run of a text, with 1 to 2^62 ticks to spend.
pub fn run_text(alloc: Global, text: &[u8], options: &Options) -> Result<Answer, Memory>
    requires some { 0 < options.now.ticks }
    requires few { options.now.ticks ≤ ticks_limit }
    ensures { IfOk result (λ a. (input : SourceState) → AnswersSome (RunsTo text.now options.now input input) a) }
{
    accepted_programs_run();
    served_programs_are_plain();
    match front(alloc, text) {
        Ok(sound) => run_program(alloc, &sound.core, options.ticks),
        Err(Fail::Is(refusal)) => refused(alloc, refusal),
        Err(Fail::Memory) => Err(Memory),
    }
}

// So many checks are kept and so many dropped.
fn counted(alloc: Global, kept: u64, elided: u64) -> Result<Answer, Memory>
    ensures { IfOk result (λ a. a ≡ plain_answer 0 (counts kept elided) []) }
{
    let counts = format!(in alloc; "kept {kept}\nelided {elided}\n")?;
    let out = Text::from_slice(alloc, counts.as_bytes())?;
    Ok(plain_answer(0, out, Text::new(alloc)))
}

/// The answer to the check of a text.
pub fn check_text(alloc: Global, text: &[u8]) -> Result<Answer, Memory>
    ensures { IfOk result (AnswersSome (ChecksTo text.now)) }
{
    served_programs_are_plain();
    match front(alloc, text) {
        Ok(_sound) => counted(alloc, 0, 0),
        Err(Fail::Is(refusal)) => refused(alloc, refusal),
        Err(Fail::Memory) => Err(Memory),
    }
}

fn printed(alloc: Global, tree: &Tree) -> Result<Answer, Memory>
    ensures { IfOk result (λ a. a ≡ plain_answer 0 (canon (view_tree tree.now)) []) }
{
    let out = Text::from_vec(print(alloc, tree)?);
    Ok(plain_answer(0, out, Text::new(alloc)))
}

/// The answer to the laying out of a text.
pub fn format_text(alloc: Global, text: &[u8]) -> Result<Answer, Memory>
    ensures { IfOk result (AnswersSome (FormatsTo text.now)) }
{
    match read(alloc, text) {
        Ok(tree) => printed(alloc, &tree),
        Err(Fail::Is(refusal)) => refused(alloc, refusal),
        Err(Fail::Memory) => Err(Memory),
    }
}

// What is to be known of a file: no more of it than tells that it is too long.
fn read_file<H: Shelf>(
    alloc: Global,
    name: &str,
    limit: usize,
    shelf: &mut H,
) -> Result<Vec<u8>, Stop>
    requires { limit < 2 ^ 32 }
    ensures bytes { IfOk result (λ bytes. ReadsFile (H.state shelf.old).files name.now (limit + 1) bytes.items) }
    ensures read { IsErrOf result Stop.ReadFault → ReadFailed (H.state shelf.old) (H.state shelf.new) name.now }
    ensures files { KeepsFiles (H.state shelf.old).files (H.state shelf.new).files }
    ensures later { (H.state shelf.old).faults ≤ (H.state shelf.new).faults }
{
    match shelf.read(alloc, name, limit as u64 + 1) {
        Ok(bytes) => Ok(bytes),
        Err(ShelfFault::Failed) => Err(Stop::ReadFault),
        Err(ShelfFault::Memory) => Err(Stop::Memory),
    }
}

// The answer to the run of a file.
fn run_file<H: Shelf>(
    alloc: Global,
    name: &str,
    options: &Options,
    shelf: &mut H,
) -> Result<Answer, Stop>
    requires some { 0 < options.now.ticks }
    requires few { options.now.ticks ≤ ticks_limit }
    ensures owed { IfOk result (λ a. (text : List ℕ) × HasFile (H.state shelf.old).files name.now text × ((input : SourceState) → AnswersSome (RunsTo text options.now input input) a)) }
    ensures read { IsErrOf result Stop.ReadFault → ReadFailed (H.state shelf.old) (H.state shelf.new) name.now }
    ensures files { KeepsFiles (H.state shelf.old).files (H.state shelf.new).files }
    ensures later { (H.state shelf.old).faults ≤ (H.state shelf.new).faults }
{
    let text = read_file(alloc, name, PROGRAM_LIMIT, shelf)?;
    Ok(run_text(alloc, &text, options)?)
}

// The answer to the check of a file.
fn check_file<H: Shelf>(alloc: Global, name: &str, shelf: &mut H) -> Result<Answer, Stop>
    ensures owed { IfOk result (λ a. (text : List ℕ) × HasFile (H.state shelf.old).files name.now text × AnswersSome (ChecksTo text) a) }
    ensures read { IsErrOf result Stop.ReadFault → ReadFailed (H.state shelf.old) (H.state shelf.new) name.now }
    ensures files { KeepsFiles (H.state shelf.old).files (H.state shelf.new).files }
    ensures later { (H.state shelf.old).faults ≤ (H.state shelf.new).faults }
{
    let text = read_file(alloc, name, PROGRAM_LIMIT, shelf)?;
    Ok(check_text(alloc, &text)?)
}

// The answer to the laying out of a file.
fn format_file<H: Shelf>(alloc: Global, name: &str, shelf: &mut H) -> Result<Answer, Stop>
    ensures owed { IfOk result (λ a. (text : List ℕ) × HasFile (H.state shelf.old).files name.now text × AnswersSome (FormatsTo text) a) }
    ensures read { IsErrOf result Stop.ReadFault → ReadFailed (H.state shelf.old) (H.state shelf.new) name.now }
    ensures files { KeepsFiles (H.state shelf.old).files (H.state shelf.new).files }
    ensures later { (H.state shelf.old).faults ≤ (H.state shelf.new).faults }
{
    let text = read_file(alloc, name, PROGRAM_LIMIT, shelf)?;
    Ok(format_text(alloc, &text)?)
}

// The answer to the build of a file, whose code gets a file of the other name.
fn build_file<H: Shelf>(
    alloc: Global,
    name: &str,
    code: &str,
    shelf: &mut H,
) -> Result<Answer, Stop>
    ensures owed { IfOk result (λ a. (text : List ℕ) × HasFile (H.state shelf.old).files name.now text × AnswersSome (BuildsTo text code.now) a) }
    ensures read { IsErrOf result Stop.ReadFault → ReadFailed (H.state shelf.old) (H.state shelf.new) name.now }
    ensures files { KeepsFiles (H.state shelf.old).files (H.state shelf.new).files }
    ensures later { (H.state shelf.old).faults ≤ (H.state shelf.new).faults }
{
    let text = read_file(alloc, name, PROGRAM_LIMIT, shelf)?;
    Ok(build_text(alloc, &text, code)?)
}

// The answer to the run of a code file.
fn exec_file<H: Shelf>(
    alloc: Global,
    name: &str,
    options: &Options,
    shelf: &mut H,
) -> Result<Answer, Stop>
    requires some { 0 < options.now.ticks }
    requires few { options.now.ticks ≤ ticks_limit }
    ensures owed { IfOk result (λ a. (text : List ℕ) × HasFile (H.state shelf.old).files name.now text × AnswersSome (ExecsTo text options.now) a) }
    ensures read { IsErrOf result Stop.ReadFault → ReadFailed (H.state shelf.old) (H.state shelf.new) name.now }
    ensures files { KeepsFiles (H.state shelf.old).files (H.state shelf.new).files }
    ensures later { (H.state shelf.old).faults ≤ (H.state shelf.new).faults }
{
    let bytes = read_file(alloc, name, CODE_FILE_LIMIT, shelf)?;
    Ok(exec_code(alloc, &bytes, options)?)
}

// The answer to the listing of a code file.
fn list_file<H: Shelf>(alloc: Global, name: &str, shelf: &mut H) -> Result<Answer, Stop>
    ensures owed { IfOk result (λ a. (text : List ℕ) × HasFile (H.state shelf.old).files name.now text × AnswersSome (ListsTo text) a) }
    ensures read { IsErrOf result Stop.ReadFault → ReadFailed (H.state shelf.old) (H.state shelf.new) name.now }
    ensures files { KeepsFiles (H.state shelf.old).files (H.state shelf.new).files }
    ensures later { (H.state shelf.old).faults ≤ (H.state shelf.new).faults }
{
    let bytes = read_file(alloc, name, CODE_FILE_LIMIT, shelf)?;
    Ok(list_code(alloc, &bytes)?)
}

// The index of the first option that isn't served, where the options begin at this index.
fn other_option(words: &[String], index: usize) -> Option<usize>
    requires { index + length words.now < 2 ^ 64 }
    ensures { result ≡ other_option index (texts words.now) }
{
    let [key, _value, more @ ..] = words else {
        return None;
    };
    if key.as_str() == "--ticks" {
        other_option(more, index + 2)
    } else {
        Some(index)
    }
}

// The index of the first word that isn't served.
fn unserved(job: &Job, words: &[String]) -> Option<usize>
    requires { Asks (texts words.now) job.now }
    ensures { result ≡ unserved job.now (texts words.now) }
{
    match job {
        Job::Run { .. } => other_option(&words[2..], 2),
        Job::Exec { .. } => other_option(&words[2..], 2),
        Job::Gen { .. } => Some(0),
        Job::GenText { .. } => Some(0),
        _ => None,
    }
}

// The answer to a job that is served.
fn do_job<H: Shelf>(
    alloc: Global,
    job: &Job,
    words: &[String],
    shelf: &mut H,
) -> Result<Answer, Stop>
    requires { Serves (texts words.now) job.now }
    ensures owed { IfOk result (OwesUntaken (texts words.now) (H.state shelf.old)) }
    ensures read { IsErrOf result Stop.ReadFault → FileFails (texts words.now) (H.state shelf.old) (H.state shelf.new) }
    ensures files { KeepsFiles (H.state shelf.old).files (H.state shelf.new).files }
    ensures later { (H.state shelf.old).faults ≤ (H.state shelf.new).faults }
{
    match job {
        Job::Run { file, options } => {
            run_file(alloc, words[*file as usize].as_str(), options, shelf)
        }
        Job::Check { file } => check_file(alloc, words[*file as usize].as_str(), shelf),
        Job::Fmt { file } => format_file(alloc, words[*file as usize].as_str(), shelf),
        Job::Build { file, code } => {
            let name = words[*file as usize].as_str();
            build_file(alloc, name, words[*code as usize].as_str(), shelf)
        }
        Job::Exec { code, options } => {
            exec_file(alloc, words[*code as usize].as_str(), options, shelf)
        }
        Job::List { code } => list_file(alloc, words[*code as usize].as_str(), shelf),
        _ => unreachable!(),
    }
}

// The answer to a job that was asked for.
fn answer_job<H: Shelf>(
    alloc: Global,
    job: &Job,
    words: &[String],
    shelf: &mut H,
) -> Result<Answer, Stop>
    requires { Asks (texts words.now) job.now }
    ensures owed { IfOk result (OwesUntaken (texts words.now) (H.state shelf.old)) }
    ensures read { IsErrOf result Stop.ReadFault → FileFails (texts words.now) (H.state shelf.old) (H.state shelf.new) }
    ensures untouched { (MayRead (texts words.now) → ⊥) → shelf.new ≡ shelf.old }
    ensures files { KeepsFiles (H.state shelf.old).files (H.state shelf.new).files }
    ensures later { (H.state shelf.old).faults ≤ (H.state shelf.new).faults }
{
    match unserved(job, words) {
        Some(index) => Ok(bad_word(alloc, index)?),
        None => do_job(alloc, job, words, shelf),
    }
}

/// The answer that is owed to the words.
pub fn answer_of<H: Shelf>(alloc: Global, words: &[String], shelf: &mut H) -> Result<Answer, Stop>
    ensures owed { IfOk result (OwesUntaken (texts words.now) (H.state shelf.old)) }
    ensures read { IsErrOf result Stop.ReadFault → FileFails (texts words.now) (H.state shelf.old) (H.state shelf.new) }
    ensures untouched { (MayRead (texts words.now) → ⊥) → shelf.new ≡ shelf.old }
    ensures files { KeepsFiles (H.state shelf.old).files (H.state shelf.new).files }
    ensures later { (H.state shelf.old).faults ≤ (H.state shelf.new).faults }
{
    match read_words(alloc, words) {
        Ok(job) => answer_job(alloc, &job, words, shelf),
        Err(Fail::Is(fault)) => Ok(bad_word(alloc, fault.index as usize)?),
        Err(Fail::Memory) => Err(Stop::Memory),
    }
}
