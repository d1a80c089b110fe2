// Whole runs: the words, the file `p` and the outside, with the bytes and the status that come of them.

use crate::calls::{CALM, Outside, gives, run_on};
use std::alloc::Global;
use std::test::Fail;
use std::thread::Threads;

const SUM: &str = "func main() { println(1 + 2); }\n";

// Texts with the status of their run, and what goes to `out` and `err`.
const RUN: &[(&str, u8, &str, &str)] = &[
    (SUM, 0, "3\n", ""),
    (
        "func main() { println(9223372036854775807 + 1); }\n",
        3,
        "",
        "trap: overflow at 1:43\nin main\n",
    ),
    ("", 1, "", "E13 at 1:1\n"),
    ("func main(){}", 0, "", ""),
    (
        "func\tmain\r\n(){println(007);println(1+1+1);\n}",
        0,
        "7\n3\n",
        "",
    ),
    (
        "func main() { println(9223372036854775808); }",
        1,
        "",
        "E03 at 1:23\n",
    ),
    ("funcmain() { }", 1, "", "E05 at 1:1\n"),
    ("func main() { println(1 +); }", 1, "", "E05 at 1:26\n"),
    ("func main() { println(1); } x", 1, "", "E05 at 1:29\n"),
    (
        "func main() {\n  println(1);\n  println(1 + 9223372036854775807\n + 1); }",
        3,
        "1\n",
        "trap: overflow at 3:13\nin main\n",
    ),
];

#[test]
fn texts_have_their_answers(rt: HostRuntime) -> Result<(), Fail> {
    for &(text, status, out, err) in RUN {
        let answer = (status, out, err);
        let is_given = gives(&rt, rt.alloc(), &["run", "p"], text.as_bytes(), answer)?;
        assert!(rt; is_given, "{text}");
    }
    Ok(())
}

// Texts with their canonical texts.
const FORMATTED: &[(&str, &str)] = &[
    (
        "func main(){if true{println( 1+2 );}}\n",
        "func main() {\n  if true {\n    println(1 + 2);\n  }\n}\n",
    ),
    ("", ""),
    ("// nothing\n", ""),
    ("func\tmain( ) { }", "func main() {\n}\n"),
    (
        "struct S{a! int;}impl I for S{}func f(x &imm S,y []int)int{return(007);}",
        "struct S {\n  a! int;\n}\nimpl I for S {\n}\nfunc f(x &imm S, y []int) int {\n  return(7);\n}\n",
    ),
];

// Whether `fmt` gives this text for `out`.
fn is_formatted<R: Threads + Sync>(
    rt: &R,
    alloc: Global,
    text: &str,
    out: &str,
) -> Result<bool, Fail> {
    gives(rt, alloc, &["fmt", "p"], text.as_bytes(), (0, out, ""))
}

#[test]
fn texts_have_their_canonical_text(rt: HostRuntime) -> Result<(), Fail> {
    for &(text, canonical) in FORMATTED {
        assert!(rt; is_formatted(&rt, rt.alloc(), text, canonical)?, "{text}");
        assert!(rt;
            is_formatted(&rt, rt.alloc(), canonical, canonical)?,
            "{text}"
        );
    }
    Ok(())
}

// A shelf whose first call fails.
const NO_FILE: Outside<'static> = Outside {
    shelf_fails: &[1],
    ..CALM
};

// Words with what is told of them.
const UNSERVED: &[(&[&str], &str)] = &[
    (&[], "word 0\n"),
    (&["walk", "p"], "word 0\n"),
    (&["run"], "word 1\n"),
    (&["run", "-p"], "word 1\n"),
    (&["run", ""], "word 1\n"),
    (&["run", "p", "q"], "word 2\n"),
    (&["run", "p", "--workers", "65"], "word 3\n"),
    (&["run", "p", "--ticks", "5", "--ticks", "5"], "word 4\n"),
    (&["run", "p", "--ticks", "0"], "word 3\n"),
    (&["run", "p", "--workers", "2"], "word 2\n"),
    (&["run", "p", "--first-generation", "1"], "word 2\n"),
    (&["run", "p", "--schedule", "0", "--ticks", "3"], "word 2\n"),
    (&["run", "p", "--ticks", "3", "--frames", "5"], "word 4\n"),
    (&["fmt"], "word 1\n"),
    (&["fmt", "p", "q"], "word 2\n"),
    (&["fmt", "p", "--ticks", "3"], "word 2\n"),
    (&["check"], "word 1\n"),
    (&["check", "p", "q"], "word 2\n"),
    (&["exec", "c", "--frames", "5"], "word 2\n"),
    (&["gen", "0"], "word 1\n"),
    (&["gen", "1"], "word 0\n"),
];

// Whether the words are refused with this line.
fn is_told<R: Threads + Sync>(
    rt: &R,
    alloc: Global,
    words: &[&str],
    line: &str,
) -> Result<bool, Fail> {
    // the answer shows that no file is read
    let seen = run_on(rt, alloc, words, SUM.as_bytes(), &NO_FILE)?;
    Ok(seen.is(2, "", line))
}

#[test]
fn words_that_are_not_served_have_their_index(rt: HostRuntime) -> Result<(), Fail> {
    for &(words, line) in UNSERVED {
        assert!(rt; is_told(&rt, rt.alloc(), words, line)?, "{words:?}");
    }
    Ok(())
}

// Whether a read fault is told where the shelf fails at once.
fn is_unread<R: Threads + Sync>(rt: &R, alloc: Global, command: &str) -> Result<bool, Fail> {
    let seen = run_on(rt, alloc, &[command, "p"], SUM.as_bytes(), &NO_FILE)?;
    Ok(seen.status == 6 && seen.err.as_slice() == b"read fault\n".as_slice())
}

#[test]
fn a_failing_shelf_is_a_read_fault(rt: HostRuntime) -> Result<(), Fail> {
    assert!(rt; is_unread(&rt, rt.alloc(), "run")?);
    assert!(rt; is_unread(&rt, rt.alloc(), "fmt")?);
    let absent = run_on(&rt, rt.alloc(), &["run", "q"], SUM.as_bytes(), &CALM)?;
    assert!(rt; absent.status == 6);
    Ok(())
}

// An `out` that takes a byte at a time, and whose second call fails.
const BROKEN_OUT: Outside<'static> = Outside {
    out_fails: &[2],
    out_most: 1,
    ..CALM
};

// An `err` whose first call fails.
const NO_ERR: Outside<'static> = Outside {
    err_fails: &[1],
    ..CALM
};

#[test]
fn a_failing_sink_is_a_write_fault(rt: HostRuntime) -> Result<(), Fail> {
    let write = run_on(&rt, rt.alloc(), &["run", "p"], SUM.as_bytes(), &BROKEN_OUT)?;
    assert!(rt; write.is(7, "3", ""));
    let refused = run_on(&rt, rt.alloc(), &["run", "p"], b"", &NO_ERR)?;
    assert!(rt; refused.status == 7);
    Ok(())
}
