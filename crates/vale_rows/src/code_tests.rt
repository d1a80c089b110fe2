// Code files: what `exec` and `list` answer to bytes, and what `build` writes.

use crate::calls::{CALM, Outside, build, run_code, run_on};
use std::alloc::Global;
use std::test::Fail;
use std::thread::Threads;

const SEVEN: &str = "func main() { println(7); }";

// The code file of SEVEN.
const FILE: &[u8] = b"VALC\x01\x01\x04main\0\0\x01\0\0\0\0\x01\x03\0\0\x0e\x13\0\x01\x1b\0\0";

// Bytes that are no code file, or whose code isn't certified, with what is told of them.
const FAULTY: &[(&[u8], &str)] = &[
    (b"", "F01 at 0\n"),
    (
        b"WALC\x01\x01\x04main\0\0\x01\0\0\0\0\x01\x03\0\0\x0e\x13\0\x01\x1b\0\0",
        "F01 at 0\n",
    ),
    (b"VALC", "F03 at 4\n"),
    (
        b"VALC\x09\x01\x04main\0\0\x01\0\0\0\0\x01\x03\0\0\x0e\x13\0\x01\x1b\0\0",
        "F02 at 4\n",
    ),
    (
        b"VALC\x01\x01\x04main\0\0\x01\0\0\0\0\x01\x03\0\0\x0e\x13\0\x01\x1b\0",
        "F03 at 28\n",
    ),
    (
        b"VALC\x01\x01\x04main\0\0\x01\0\0\0\0\x01\x03\0\0\x8e\0\x13\0\x01\x1b\0\0",
        "F04 at 22\n",
    ),
    (
        b"VALC\x01\x01\x04main\0\0\x01\0\0\0\0\x01\x03\0\0\x0e\x13\0\x01\x1b\0\0\0",
        "F05 at 29\n",
    ),
    // `main` is a function that isn't there
    (
        b"VALC\x01\x01\x04main\0\0\x01\0\0\0\0\x01\x03\0\0\x0e\x13\0\x01\x1b\0\x01",
        "V01 at 1\n",
    ),
    // `not` of a number
    (
        b"VALC\x01\x01\x04main\0\0\x01\0\0\0\0\x01\x03\0\0\x0e\x0b\0\0\x1b\0\0",
        "V02 at 1\n",
    ),
    // what is printed isn't there yet
    (
        b"VALC\x01\x01\x04main\0\0\x01\0\0\0\0\x01\x03\x13\0\x01\0\0\x0e\x1b\0\0",
        "V03 at 0\n",
    ),
    // a function is left within a freeze
    (
        b"VALC\x01\x01\x04main\0\0\x01\0\0\0\0\0\x02\x1b\x1b\x01\x01\x01\0",
        "V04 at 1\n",
    ),
    // a label states a text where there is a number
    (
        b"VALC\x01\x01\x04main\0\0\x01\0\0\0\0\x01\x03\0\0\x0e\x14\x02\x1b\x01\x02\0\x01\x03\0\0",
        "V05 at 1\n",
    ),
    // a jump to no label
    (
        b"VALC\x01\x01\x04main\0\0\x01\0\0\0\0\x01\x03\0\0\x0e\x14\x02\x1b\0\0",
        "V07 at 1\n",
    ),
];

#[test]
fn a_file_that_is_none_has_its_first_fault(rt: HostRuntime) -> Result<(), Fail> {
    for &(bytes, line) in FAULTY {
        let run = run_code(&rt, rt.alloc(), &["exec", "c"], bytes)?;
        assert!(rt; run.is(9, "", line), "{line}");
        let listed = run_code(&rt, rt.alloc(), &["list", "c"], bytes)?;
        assert!(rt; listed.is(9, "", line), "{line}");
    }
    Ok(())
}

// Words on the code file of SEVEN, with the status, and the texts for `out` and `err`.
const ANSWERS: &[(&[&str], u8, &str, &str)] = &[
    (&["exec", "c"], 0, "7\n", ""),
    (&["exec", "c", "--ticks", "1"], 0, "7\n", ""),
    (&["exec", "q"], 6, "", "read fault\n"),
    (&["exec", "c", "--workers", "3"], 2, "", "word 2\n"),
    (&["exec"], 2, "", "word 1\n"),
    (
        &["list", "c"],
        0,
        "func 0 main\n  0 int 0 7\n  1 print 0 1\n  2 retvoid\n",
        "",
    ),
    (&["list", "q"], 6, "", "read fault\n"),
    (&["list", "c", "--ticks", "1"], 2, "", "word 2\n"),
    (&["build", "q", "d"], 6, "", "read fault\n"),
    (&["build", "c"], 2, "", "word 2\n"),
    (&["build", "c", "d"], 1, "", "E02 at 1:5\n"),
];

#[test]
fn a_code_file_is_run_and_listed(rt: HostRuntime) -> Result<(), Fail> {
    for &(words, status, out, err) in ANSWERS {
        let seen = run_code(&rt, rt.alloc(), words, FILE)?;
        assert!(rt; seen.is(status, out, err), "{words:?}");
    }
    Ok(())
}

// Whether a text's code file runs as the text does, with these ticks.
fn runs_alike<R: Threads + Sync>(
    rt: &R,
    alloc: Global,
    text: &str,
    ticks: &str,
) -> Result<bool, Fail> {
    let run = run_on(
        rt,
        alloc,
        &["run", "p", "--ticks", ticks],
        text.as_bytes(),
        &CALM,
    )?;
    let (built, code) = build(rt, alloc, text.as_bytes(), &CALM)?;
    let again = run_code(rt, alloc, &["exec", "c", "--ticks", ticks], &code)?;
    Ok(
        built.is(0, "", "")
            && again.status == run.status
            && again.out == run.out
            && again.err == run.err,
    )
}

const PROGRAMS: &[&str] = &[
    SEVEN,
    "func main() { println(1 / 0); }",
    "func f(n int) int { if n < 2 { return n; } return f(n - 1) + f(n - 2); } func main() { println(f(11)); }",
    "func main() { s = \"\"; foreach i in 0..10 { set s = s + text(i); println(s); } }",
    "func main() { i = 0; while i < 20 { print(i); set i = i + 1; } println(\"\"); }",
];

#[test]
fn what_is_built_runs_as_its_text(rt: HostRuntime) -> Result<(), Fail> {
    for &text in PROGRAMS {
        assert!(rt; runs_alike(&rt, rt.alloc(), text, "1000000")?, "{text}");
        assert!(rt; runs_alike(&rt, rt.alloc(), text, "9")?, "{text}");
    }
    let (_, code) = build(&rt, rt.alloc(), SEVEN.as_bytes(), &CALM)?;
    let listed = run_code(&rt, rt.alloc(), &["list", "c"], &code)?;
    let text = "func 0 main\n  0 int 1 7\n  1 print 1 1\n  2 retvoid\n";
    assert!(rt; listed.is(0, text, ""));
    Ok(())
}

#[test]
fn a_code_file_that_cannot_be_written_is_a_write_fault(rt: HostRuntime) -> Result<(), Fail> {
    let second = Outside {
        shelf_fails: &[2],
        ..CALM
    };
    let (seen, code) = build(&rt, rt.alloc(), SEVEN.as_bytes(), &second)?;
    assert!(rt; seen.is(7, "", ""));
    assert!(rt; code.is_empty());
    Ok(())
}
