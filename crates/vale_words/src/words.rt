// The commands.
ghost use Rattle.std.specs.Prelude.{◌≡◌, ◌≤◌, ◌↔◌, ℕ, IfErr, IfOk, IfSome, IsTrue, OnOk, Some, codes, false, true};
ghost use Rattle.vale_base.specs.Faults.{IfFault, IsValueUnlessMemory, IsFaultUnlessMemory};
ghost use Rattle.vale_words.specs.FirstFault.{IsFirstFault};
ghost use Rattle.vale_words.specs.Words.{command_text, IsFileName, IsOneName, AreTwoNames, IsNameWith, IsSomeNameWith, AsksBehind, IsLawfulBehind, Asks, BeginsText, NoText, Lawful, texts};
ghost use Rattle.vale_words.specs.declared.job.Job.{Job};
ghost use Rattle.vale_words.specs.declared.job.Options.{Options};
ghost use Rattle.vale_words.specs.declared.words.Command.{Command};

use crate::numbers::small_number_within;
use crate::options::{fault_at, read_options};
use crate::{Job, Options, WordFault};
use std::alloc::Global;
use vale_base::Fail;

/// The most generated programs: `gen` takes a number from 1 to this.
const PROGRAMS_LIMIT: u32 = 10_000;

/// What word 0 says.
#[derive(Clone, Copy, Debug, PartialEq, Eq)]
pub enum Command {
    Run,
    Check,
    Fmt,
    Build,
    Exec,
    List,
    Gen,
}

fn command_named(word: &str) -> Option<Command>
    ensures found { IfSome result (λ c. command_text c ≡ word.now) }
    ensures complete { (c : Command) → command_text c ≡ word.now → result ≡ Some c }
{
    match word {
        "run" => Some(Command::Run),
        "check" => Some(Command::Check),
        "fmt" => Some(Command::Fmt),
        "build" => Some(Command::Build),
        "exec" => Some(Command::Exec),
        "list" => Some(Command::List),
        "gen" => Some(Command::Gen),
        _ => None,
    }
}

fn is_file_name(word: &str) -> bool
    ensures { IsTrue result ↔ IsFileName word.now }
{
    match word.as_bytes() {
        [] => false,
        [first, ..] => *first != b'-',
    }
}

// One name and no more.
fn read_name(words: &[String]) -> Result<(), WordFault>
    ensures found { OnOk result (IsOneName (texts words.now)) }
    ensures fault { IfErr result (λ f. IsFirstFault IsOneName (texts words.now) f.index) }
    ensures near { IfErr result (λ f. f.index ≤ 1) }
{
    let [name, more @ ..] = words else {
        return Err(WordFault { index: 0 });
    };
    if !is_file_name(name.as_str()) {
        return Err(WordFault { index: 0 });
    }
    if !more.is_empty() {
        return Err(WordFault { index: 1 });
    }
    Ok(())
}

// Two names and no more.
fn read_two_names(words: &[String]) -> Result<(), WordFault>
    ensures found { OnOk result (AreTwoNames (texts words.now)) }
    ensures fault { IfErr result (λ f. IsFirstFault AreTwoNames (texts words.now) f.index) }
    ensures near { IfErr result (λ f. f.index ≤ 2) }
{
    let [name, more @ ..] = words else {
        return Err(WordFault { index: 0 });
    };
    if !is_file_name(name.as_str()) {
        return Err(WordFault { index: 0 });
    }
    match read_name(more) {
        Ok(()) => Ok(()),
        Err(fault) => Err(WordFault {
            index: fault.index + 1,
        }),
    }
}

// A name, and options after it.
fn read_name_with(alloc: Global, words: &[String]) -> Result<Options, Fail<WordFault>>
    ensures found { IfOk result (IsNameWith (texts words.now)) }
    ensures complete { (o : Options) → IsNameWith (texts words.now) o → IsValueUnlessMemory result (λ p. p ≡ o) }
    ensures fault { IfFault result (λ f. IsFirstFault IsSomeNameWith (texts words.now) f.index) }
    ensures near { IfFault result (λ f. f.index ≤ 11) }
{
    let [name, more @ ..] = words else {
        return fault_at(0);
    };
    if !is_file_name(name.as_str()) {
        return fault_at(0);
    }
    match read_options(alloc, more) {
        Ok(options) => Ok(options),
        Err(Fail::Is(fault)) => fault_at(fault.index + 1),
        Err(Fail::Memory) => Err(Fail::Memory),
    }
}

fn is_text_option(word: &str) -> bool
    ensures { IsTrue result ↔ (word.now ≡ codes "--text") }
{
    word == "--text"
}

fn begins_with_text(words: &[String]) -> bool
    ensures yes { result ≡ true → BeginsText (texts words.now) }
    ensures no { result ≡ false → NoText (texts words.now) }
{
    match words {
        [] => false,
        [word, ..] => is_text_option(word.as_str()),
    }
}

// The number of a generated program, and `--text` or options after it.
fn read_program(alloc: Global, words: &[String]) -> Result<Job, Fail<WordFault>>
    ensures found { IfOk result (AsksBehind Command.Gen (texts words.now)) }
    ensures complete { (j : Job) → AsksBehind Command.Gen (texts words.now) j → IsValueUnlessMemory result (λ i. i ≡ j) }
    ensures fault { IfFault result (λ f. IsFirstFault (IsLawfulBehind Command.Gen) (texts words.now) f.index) }
    ensures near { IfFault result (λ f. f.index ≤ 11) }
{
    let [number, more @ ..] = words else {
        return fault_at(0);
    };
    let Some(n) = small_number_within(number.as_str(), 1, PROGRAMS_LIMIT) else {
        return fault_at(0);
    };
    if begins_with_text(more) {
        return if more.len() > 1 {
            fault_at(2)
        } else {
            Ok(Job::GenText { n })
        };
    }
    match read_options(alloc, more) {
        Ok(options) => Ok(Job::Gen { n, options }),
        Err(Fail::Is(fault)) => fault_at(fault.index + 1),
        Err(Fail::Memory) => Err(Fail::Memory),
    }
}

// The job of a command with the words after it.
fn read_behind(alloc: Global, command: Command, words: &[String]) -> Result<Job, Fail<WordFault>>
    ensures found { IfOk result (AsksBehind command (texts words.now)) }
    ensures complete { (j : Job) → AsksBehind command (texts words.now) j → IsValueUnlessMemory result (λ i. i ≡ j) }
    ensures fault { IfFault result (λ f. IsFirstFault (IsLawfulBehind command) (texts words.now) f.index) }
    ensures near { IfFault result (λ f. f.index ≤ 11) }
{
    match command {
        Command::Run => match read_name_with(alloc, words) {
            Ok(options) => Ok(Job::Run { file: 1, options }),
            Err(fault) => Err(fault),
        },
        Command::Check => match read_name(words) {
            Ok(()) => Ok(Job::Check { file: 1 }),
            Err(fault) => fault_at(fault.index),
        },
        Command::Fmt => match read_name(words) {
            Ok(()) => Ok(Job::Fmt { file: 1 }),
            Err(fault) => fault_at(fault.index),
        },
        Command::Build => match read_two_names(words) {
            Ok(()) => Ok(Job::Build { file: 1, code: 2 }),
            Err(fault) => fault_at(fault.index),
        },
        Command::Exec => match read_name_with(alloc, words) {
            Ok(options) => Ok(Job::Exec { code: 1, options }),
            Err(fault) => Err(fault),
        },
        Command::List => match read_name(words) {
            Ok(()) => Ok(Job::List { code: 1 }),
            Err(fault) => fault_at(fault.index),
        },
        Command::Gen => read_program(alloc, words),
    }
}

/// What the words ask for. They have no meaning exactly where a fault is answered.
pub fn read_words(alloc: Global, words: &[String]) -> Result<Job, Fail<WordFault>>
    // what is answered is asked for
    ensures found { IfOk result (Asks (texts words.now)) }
    // what is asked for is answered: words ask for one job at most
    ensures complete { (j : Job) → Asks (texts words.now) j → IsValueUnlessMemory result (λ i. i ≡ j) }
    // the fault that is answered is the first
    ensures fault { IfFault result (λ f. IsFirstFault Lawful (texts words.now) f.index) }
    // the first fault is answered
    ensures faulty { (k : ℕ) → IsFirstFault Lawful (texts words.now) k → IsFaultUnlessMemory result (λ f. f.index ≡ k) }
{
    let [word, more @ ..] = words else {
        return fault_at(0);
    };
    let Some(command) = command_named(word.as_str()) else {
        return fault_at(0);
    };
    match read_behind(alloc, command, more) {
        Ok(job) => Ok(job),
        Err(Fail::Is(fault)) => fault_at(fault.index + 1),
        Err(Fail::Memory) => Err(Fail::Memory),
    }
}
