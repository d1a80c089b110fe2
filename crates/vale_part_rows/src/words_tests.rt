// Words of the command line, with what they ask for.
use std::alloc::Global;
use std::test::Fail;
use vale_base::{Fail as Refused, Memory};
use vale_words::{Job, Options, WordFault, read_words};

fn read(alloc: Global, words: &[&str]) -> Result<Result<Job, u32>, Fail> {
    let mut list = Vec::new(alloc);
    for word in words {
        list.push(String::from_str(alloc, word)?)?;
    }
    match read_words(alloc, &list) {
        Ok(job) => Ok(Ok(job)),
        Err(Refused::Is(WordFault { index })) => Ok(Err(index)),
        Err(Refused::Memory) => Err(Memory.into()),
    }
}

// Words with the index of their fault.
const FAULTY: &[(&[&str], u32)] = &[
    (&[], 0),
    (&["walk"], 0),
    (&["run"], 1),
    (&["run", "p", "--workers", "65"], 3),
    (&["run", "p", "--workers", "0"], 3),
    (&["run", "p", "--workers", "04"], 3),
    (&["run", "p", "--workers", "+4"], 3),
    (&["run", "p", "--ticks", "5", "--ticks", "5"], 4),
    (&["run", "p", "--ticks"], 3),
    (&["run", "p", "--ticks", "4611686018427387905"], 3),
    (&["run", "p", "--frames", "4097"], 3),
    (&["run", "p", "--first-generation", "0"], 3),
    (
        &["run", "p", "--first-generation", "18446744073709551616"],
        3,
    ),
    (&["run", "p", "--schedule", ""], 3),
    (&["run", "p", "--schedule", "1,,2"], 3),
    (&["run", "p", "--schedule", "64"], 3),
    (&["run", "p", "--schedule", "1,2,"], 3),
    (&["check", "p", "q"], 2),
    (&["fmt", "-p"], 1),
    (&["build", "p"], 2),
    (&["build", "p", "c", "d"], 3),
    (&["list"], 1),
    (&["gen", "0"], 1),
    (&["gen", "10001"], 1),
    (&["gen", "5", "--text", "x"], 3),
    (&["gen", "5", "--ticks", "3", "--text"], 4),
];

// Whether the words have no meaning, and this is the index of their fault.
fn are_faulty(alloc: Global, words: &[&str], index: u32) -> Result<bool, Fail> {
    match read(alloc, words)? {
        Ok(_) => Ok(false),
        Err(found) => Ok(found == index),
    }
}

#[test]
fn words_without_meaning_have_their_index(rt: HostRuntime) -> Result<(), Fail> {
    for &(words, index) in FAULTY {
        assert!(rt; are_faulty(rt.alloc(), words, index)?, "{words:?}");
    }
    Ok(())
}

// The command, and the numbers beside its options.
fn outline(job: &Job) -> (&'static str, u32, u32) {
    match job {
        Job::Run { file, .. } => ("run", *file, 0),
        Job::Check { file } => ("check", *file, 0),
        Job::Fmt { file } => ("fmt", *file, 0),
        Job::Build { file, code } => ("build", *file, *code),
        Job::Exec { code, .. } => ("exec", *code, 0),
        Job::List { code } => ("list", *code, 0),
        Job::Gen { n, .. } => ("gen", *n, 0),
        Job::GenText { n } => ("text", *n, 0),
    }
}

// Words with their command and its numbers.
const LAWFUL: &[(&[&str], &str, u32, u32)] = &[
    (&["run", "p"], "run", 1, 0),
    (&["check", "p"], "check", 1, 0),
    (&["fmt", "p"], "fmt", 1, 0),
    (&["build", "p", "c"], "build", 1, 2),
    (&["exec", "c", "--ticks", "9"], "exec", 1, 0),
    (&["list", "c"], "list", 1, 0),
    (&["gen", "10000"], "gen", 10_000, 0),
    (&["gen", "1", "--text"], "text", 1, 0),
];

// Whether the words ask for this command with these numbers.
fn ask_for(
    alloc: Global,
    words: &[&str],
    command: &str,
    first: u32,
    second: u32,
) -> Result<bool, Fail> {
    match read(alloc, words)? {
        Ok(job) => {
            let (found, one, other) = outline(&job);
            Ok(found == command && one == first && other == second)
        }
        Err(_) => Ok(false),
    }
}

#[test]
fn lawful_words_ask_for_their_job(rt: HostRuntime) -> Result<(), Fail> {
    for &(words, command, first, second) in LAWFUL {
        let is_found = ask_for(rt.alloc(), words, command, first, second)?;
        assert!(rt; is_found, "{words:?}");
    }
    Ok(())
}

fn is_chosen(options: &Options) -> bool {
    let Some(schedule) = &options.schedule else {
        return false;
    };
    options.workers == 64
        && options.ticks == 1
        && options.frames == 4096
        && options.first == u64::MAX
        && schedule.as_slice() == [0, 63, 7].as_slice()
}

fn is_default(options: &Options) -> bool {
    options.workers == 4
        && options.ticks == 1_000_000_000
        && options.frames == 4096
        && options.first == 1
        && options.schedule.is_none()
}

fn has_chosen(job: &Job) -> bool {
    match job {
        Job::Run { options, .. } => is_chosen(options),
        Job::Exec { options, .. } => is_default(options),
        _ => false,
    }
}

// Words that choose each option, and words that choose none.
const CHOICES: &[&[&str]] = &[
    &[
        "run",
        "p",
        "--schedule",
        "0,63,7",
        "--first-generation",
        "18446744073709551615",
        "--frames",
        "4096",
        "--ticks",
        "1",
        "--workers",
        "64",
    ],
    &["exec", "c"],
];

// Whether the words ask for a job with the options that its command is to have.
fn choose(alloc: Global, words: &[&str]) -> Result<bool, Fail> {
    match read(alloc, words)? {
        Ok(job) => Ok(has_chosen(&job)),
        Err(_) => Ok(false),
    }
}

#[test]
fn options_have_their_values(rt: HostRuntime) -> Result<(), Fail> {
    for &words in CHOICES {
        assert!(rt; choose(rt.alloc(), words)?, "{words:?}");
    }
    Ok(())
}
