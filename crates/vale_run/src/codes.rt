// What the bytes of a code file are answered by, and the file of a program's code.
ghost use Rattle.std.specs.Prelude.{◌≡◌, ◌≤◌, ◌<◌, ℕ, List, [], IfOk, true};
ghost use Rattle.vale_base.specs.Faults.{IfFault};
ghost use Rattle.vale_base.specs.Limits.{ticks_limit};
ghost use Rattle.vale_code.specs.Run.{run_code};
ghost use Rattle.vale_core.specs.View.{view_core};
ghost use Rattle.vale_file_spec.specs.File.{Spells};
ghost use Rattle.vale_listing.specs.Listing.{listing};
ghost use Rattle.vale_lower_facts.specs.Marks.{lowered_facts};
ghost use Rattle.vale_lowering.specs.Lowered.{lowered};
ghost use Rattle.vale_run.specs.CodeFaults.{IsFaulty, told_of};
ghost use Rattle.vale_run.specs.CodeFiles.{ReadsCertified, is_run};
ghost use Rattle.vale_run.specs.CodeMeans.{BuildsTo, ExecsTo, ListsTo};
ghost use Rattle.vale_run.specs.Owed.{AnswersSome, EndsWith, plain_answer, misread, distrusted, written};
ghost use Rattle.vale_sound.specs.Runs.{Runs};
ghost use Rattle.vale_state_spec.specs.State.{no_input};

use crate::plain::{bad_word, plain_answer, refused};
use crate::running::told;
use std::alloc::Global;
use vale_base::{CODE_FILE_LIMIT, Fail, Memory, Text};
use vale_code::Code;
use vale_codefile::{FileFault, read_code, write_code};
use vale_core::Sound;
use vale_deliver::{Answer, NewFile};
use vale_front::front;
use vale_listing::list;
use vale_lower::lower;
use vale_machine::{Input, run};
use vale_sound::accepted_programs_run;
use vale_verifier::{Verified, VerifyFault, verify};
use vale_words::Options;

const TOO_LONG: u8 = 6;

/// Why the code of a file can't be used: it can't be read, or isn't certified.
#[derive(Clone, Copy, Debug, Drop, PartialEq, Eq)]
pub enum CodeFault {
    Misread(FileFault),
    Distrusted(VerifyFault),
}

fn misread(alloc: Global, fault: FileFault) -> Result<Answer, Memory>
    ensures { IfOk result (λ a. a ≡ misread fault.code fault.at) }
{
    let FileFault { code, at } = fault;
    let line = format!(in alloc; "F0{code} at {at}\n")?;
    let err = Text::from_slice(alloc, line.as_bytes())?;
    Ok(plain_answer(9, Text::new(alloc), err))
}

fn distrusted(alloc: Global, fault: VerifyFault) -> Result<Answer, Memory>
    ensures { IfOk result (λ a. a ≡ distrusted fault.rule fault.at) }
{
    let VerifyFault { rule, at } = fault;
    let line = format!(in alloc; "V0{rule} at {at}\n")?;
    let err = Text::from_slice(alloc, line.as_bytes())?;
    Ok(plain_answer(9, Text::new(alloc), err))
}

// The code of a file, which its facts certify.
fn certified_code(alloc: Global, bytes: &[u8]) -> Result<Verified, Fail<CodeFault>>
    ensures found { IfOk result (λ v. ReadsCertified bytes.now v.code v.facts) }
    ensures fault { IfFault result (IsFaulty bytes.now) }
{
    if bytes.len() > CODE_FILE_LIMIT {
        return Err(Fail::Is(CodeFault::Misread(FileFault {
            code: TOO_LONG,
            at: CODE_FILE_LIMIT as u64,
        })));
    }
    let (code, facts) = match read_code(alloc, bytes) {
        Ok(both) => both,
        Err(Fail::Is(fault)) => return Err(Fail::Is(CodeFault::Misread(fault))),
        Err(Fail::Memory) => return Err(Fail::Memory),
    };
    match verify(alloc, code, facts) {
        Ok(verified) => Ok(verified),
        Err(Fail::Is(fault)) => Err(Fail::Is(CodeFault::Distrusted(fault))),
        Err(Fail::Memory) => Err(Fail::Memory),
    }
}

// What is told of a code file that can't be used.
fn told_of(alloc: Global, fault: CodeFault) -> Result<Answer, Memory>
    ensures { IfOk result (λ a. a ≡ told_of fault) }
{
    match fault {
        CodeFault::Misread(fault) => misread(alloc, fault),
        CodeFault::Distrusted(fault) => distrusted(alloc, fault),
    }
}

// Whether the code has no kinds and a `main` that takes nothing, so far the only one that is run.
fn is_run(code: &Code) -> bool
    ensures { result ≡ is_run code.now }
{
    if code.kinds.len() != 0 {
        return false;
    }
    match code.funcs.as_slice().get(code.main as usize) {
        Some(main) => main.params.len() == 0,
        None => false,
    }
}

// The answer to the run of certified code.
fn run_verified(alloc: Global, code: &Verified, ticks: u64) -> Result<Answer, Memory>
    requires runs { is_run code.now.code ≡ true }
    requires some { 0 < ticks }
    requires few { ticks ≤ ticks_limit }
    ensures { IfOk result (EndsWith (run_code code.now.code no_input ticks)) }
{
    let ran = run(alloc, code, Input::None, ticks);
    told(alloc, &ran, ticks)
}

/// The answer to the run of a code file, with 1 to 2^62 ticks to spend.
pub fn exec_code(alloc: Global, bytes: &[u8], options: &Options) -> Result<Answer, Memory>
    requires some { 0 < options.now.ticks }
    requires few { options.now.ticks ≤ ticks_limit }
    ensures { IfOk result (AnswersSome (ExecsTo bytes.now options.now)) }
{
    match certified_code(alloc, bytes) {
        Ok(code) => {
            if !is_run(&code.code) {
                return bad_word(alloc, 0);
            }
            run_verified(alloc, &code, options.ticks)
        }
        Err(Fail::Is(fault)) => told_of(alloc, fault),
        Err(Fail::Memory) => Err(Memory),
    }
}

// The text of certified code.
fn listed(alloc: Global, code: &Verified) -> Result<Answer, Memory>
    ensures { IfOk result (λ a. a ≡ plain_answer 0 (listing code.now.code code.now.facts) []) }
{
    let out = Text::from_vec(list(alloc, &code.code, &code.facts)?);
    Ok(plain_answer(0, out, Text::new(alloc)))
}

/// The answer to the listing of a code file.
pub fn list_code(alloc: Global, bytes: &[u8]) -> Result<Answer, Memory>
    ensures { IfOk result (AnswersSome (ListsTo bytes.now)) }
{
    match certified_code(alloc, bytes) {
        Ok(code) => listed(alloc, &code),
        Err(Fail::Is(fault)) => told_of(alloc, fault),
        Err(Fail::Memory) => Err(Memory),
    }
}

// The bytes of the code of a program that runs.
fn built(alloc: Global, sound: &Sound) -> Result<Vec<u8>, Memory>
    requires runs { Runs (view_core sound.now.core) }
    ensures { IfOk result (λ v. Spells v.items 1 (lowered (view_core sound.now.core)) (lowered_facts (view_core sound.now.core))) }
{
    let (code, facts) = lower(alloc, sound)?;
    let verified = Verified { code, facts };
    write_code(alloc, &verified)
}

// The answer that writes a file.
fn written(alloc: Global, name: &str, bytes: Vec<u8>) -> Result<Answer, Memory>
    ensures { IfOk result (λ a. a ≡ written (record { name = name.now; bytes = bytes.items })) }
{
    let name = String::from_str(alloc, name)?;
    Ok(Answer {
        status: 0,
        file: Some(NewFile::new(name, Text::from_vec(bytes))),
        out: Text::new(alloc),
        err: Text::new(alloc),
    })
}

// The answer to the build of a program that runs.
fn build_program(alloc: Global, sound: &Sound, name: &str) -> Result<Answer, Memory>
    requires runs { Runs (view_core sound.now.core) }
    ensures { IfOk result (λ a. (bytes : List ℕ) × Spells bytes 1 (lowered (view_core sound.now.core)) (lowered_facts (view_core sound.now.core)) × (a ≡ written (record { name = name.now; bytes = bytes }))) }
{
    let bytes = built(alloc, sound)?;
    written(alloc, name, bytes)
}

/// The answer to the build of a text, whose code gets a file of this name.
pub fn build_text(alloc: Global, text: &[u8], name: &str) -> Result<Answer, Memory>
    ensures { IfOk result (AnswersSome (BuildsTo text.now name.now)) }
{
    accepted_programs_run();
    match front(alloc, text) {
        Ok(sound) => build_program(alloc, &sound, name),
        Err(Fail::Is(refusal)) => refused(alloc, refusal),
        Err(Fail::Memory) => Err(Memory),
    }
}
