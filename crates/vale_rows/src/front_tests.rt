// What `check`, `run` and `fmt` answer to a text.
use crate::calls::{CALM, gives, run_on};
use Answer::{NotServed, Refused, Runs, Unread};
use std::alloc::Global;
use std::test::Fail;
use std::thread::Threads;
use vale_part_rows::texts::{NAMES, numbered};

#[derive(Clone, Copy)]
enum Answer {
    // It has no tree: all three refuse it with this line.
    Unread(&'static str),
    // It breaks a rule: `check` and `run` refuse it with this line.
    Refused(&'static str),
    // It has something that isn't served yet.
    NotServed,
    // It is accepted, runs and prints this.
    Runs(&'static str),
}

const TEXTS: &[(&str, Answer)] = &[
    ("func main() { @ }", Unread("E02 at 1:15\n")),
    ("func main() { print(\"\\q\"); }", Unread("E02 at 1:22\n")),
    (
        "func main() { x = 9223372036854775808; }",
        Unread("E03 at 1:19\n"),
    ),
    (
        "func main() { println(18446744073709551616); }",
        Unread("E03 at 1:23\n"),
    ),
    ("func main() { print(\"a); }", Unread("E04 at 1:21\n")),
    ("\"", Unread("E04 at 1:1\n")),
    ("func main() { x = ; }", Unread("E05 at 1:19\n")),
    ("func main() {", Unread("E05 at 1:14\n")),
    (
        "func main() { x = ((((((((((((((((((((((((((((((((((((((((((((((((((((((((((((((((1)))))))))))))))))))))))))))))))))))))))))))))))))))))))))))))))); }",
        Unread("E06 at 1:82\n"),
    ),
    (
        "func main() { x = ----------------------------------------------------------------1; }",
        Unread("E06 at 1:82\n"),
    ),
    (
        "struct A { } struct A { } func main() { }",
        Refused("E10 at 1:21\n"),
    ),
    ("func print() { } func main() { }", Refused("E10 at 1:6\n")),
    (
        "func f(x Foo) { } func main() { }",
        Refused("E11 at 1:10\n"),
    ),
    ("func main() { x = []Foo(); }", Refused("E11 at 1:21\n")),
    ("", Refused("E13 at 1:1\n")),
    ("pure func main() { }", Refused("E13 at 1:11\n")),
    (
        "func f(x iso []iso S) { } struct S { } func main() { }",
        Refused("E14 at 1:10\n"),
    ),
    (
        "func f(x iso [][]iso S) { } struct S { } func main() { }",
        Refused("E14 at 1:10\n"),
    ),
    (
        "func drop(x int) { } func main() { }",
        Refused("E15 at 1:6\n"),
    ),
    (
        "struct S { } func drop(self S) int { return 1; } func main() { }",
        Refused("E15 at 1:19\n"),
    ),
    (
        "struct S { a &imm S; } func main() { }",
        Refused("E16 at 1:14\n"),
    ),
    (
        "func f(x &int) { } func main() { }",
        Refused("E16 at 1:10\n"),
    ),
    ("func main() { x = 1 + true; }", Refused("E20 at 1:21\n")),
    ("func main() { if 1 { } }", Refused("E20 at 1:15\n")),
    ("func main() { println(y); }", Refused("E21 at 1:23\n")),
    ("func main() { f(); }", Refused("E21 at 1:15\n")),
    (
        "func f(a int) { } func main() { f(); }",
        Refused("E22 at 1:33\n"),
    ),
    ("func main() { print(); }", Refused("E22 at 1:15\n")),
    ("func main() { set 1 = 2; }", Refused("E23 at 1:15\n")),
    ("func main() { x = &1; }", Refused("E23 at 1:19\n")),
    (
        "struct S { a int; } func main() { s = S(1); set s.a = 2; }",
        Refused("E24 at 1:45\n"),
    ),
    (
        "struct P { x int; y! int; } func main() { p = P(1, 2); set p.y = 3; set p.x = 4; }",
        Refused("E24 at 1:69\n"),
    ),
    (
        "struct S { a int; } func main() { println(S(1).a); }",
        Refused("E25 at 1:47\n"),
    ),
    (
        "struct S { a int; } func main() { x = []S(S(1))[0].a; }",
        Refused("E25 at 1:48\n"),
    ),
    ("func f() int { } func main() { }", Refused("E26 at 1:6\n")),
    (
        "func f(c bool) int { if c { return 1; } } func main() { }",
        Refused("E26 at 1:6\n"),
    ),
    ("func main() { x = 1; x = 2; }", Refused("E27 at 1:22\n")),
    (
        "func main() { foreach i in 0..2 { i = 1; } }",
        Refused("E27 at 1:35\n"),
    ),
    (
        "struct S { } struct B { s S; } func main() { b = B(S()); t = b.s; }",
        Refused("E28 at 1:63\n"),
    ),
    (
        "struct S { } struct B { s S; } func main() { b = B(S()); drop(b.s); }",
        Refused("E28 at 1:64\n"),
    ),
    ("func main() { println(1 + 2); }", Runs("3\n")),
    ("func main() { }", Runs("")),
    ("func main() { println(1); println(2); }", Runs("1\n2\n")),
    (
        "func f(a int, b str) int { return a; } func main() { println(f(1, \"x\")); }",
        Runs("1\n"),
    ),
    (
        "func main() { x = 1; while x < 10 { set x = x * 2; } println(x); }",
        Runs("16\n"),
    ),
    (
        "func main() { foreach i in 0..3 { print(i); } }",
        Runs("012"),
    ),
    (
        "func main() { if true { print(1); } else if false { print(2); } else { print(3); } }",
        Runs("1"),
    ),
    (
        "func f(c bool) int { if c { return 1; } else { return 2; } } func main() { print(f(true)); }",
        Runs("1"),
    ),
    (
        "func main() { println(slice(\"abc\", 0, len(\"abc\"))); println(byte(\"a\", 0)); }",
        Runs("abc\n97\n"),
    ),
    (
        "func main() { println(text(number(\"12\") - 3)); println(is_number(\"a\")); }",
        Runs("9\nfalse\n"),
    ),
    (
        "func main() { println(not (1 < 2) and \"a\" != \"b\" or true == false); }",
        Runs("false\n"),
    ),
    (
        "func main() { x = if true { 1 } else { 2 }; println(x); }",
        Runs("1\n"),
    ),
    (
        "struct S { } func main() { a = S(); drop(a); drop(a); }",
        Refused("E30 at 1:51\n"),
    ),
    (
        "struct S { } func main() { a = S(); if true { drop(a); } }",
        Refused("E31 at 1:37\n"),
    ),
    (
        "struct S { } func f(s S) bool { drop(s); return true; } func main() { a = S(); x = true and f(a); }",
        Refused("E31 at 1:89\n"),
    ),
    (
        "struct S { } func main() { a = S(); while true { drop(a); } }",
        Refused("E32 at 1:37\n"),
    ),
    (
        "struct S { } func drop(self S) { } func main() { }",
        Refused("E33 at 1:19\n"),
    ),
    (
        "struct S { a! int; } func main() { s = S(1); pure { set s.a = 2; } }",
        Refused("E40 at 1:53\n"),
    ),
    (
        "func main() { a = []int(); pure { push(&a, 1); } }",
        Refused("E40 at 1:35\n"),
    ),
    (
        "struct S { } struct R { s &S; } func main() { a = S(); pure { r = R(&a); } }",
        Refused("E41 at 1:67\n"),
    ),
    (
        "struct S { } func main() { a = S(); pure { &a }; }",
        Refused("E41 at 1:37\n"),
    ),
    (
        "func main() { x = 1; pure { set x = 2; } }",
        Refused("E42 at 1:29\n"),
    ),
    (
        "struct S { } func main() { a = S(); pure { b = a; } }",
        Refused("E42 at 1:48\n"),
    ),
    (
        "struct S { } pure func f(s &S) { } func main() { }",
        Refused("E43 at 1:26\n"),
    ),
    (
        "struct S { } pure func f(s &imm S) &imm S { return s; } func main() { }",
        Refused("E43 at 1:24\n"),
    ),
    ("func main() { pure { return; } }", Refused("E44 at 1:22\n")),
    (
        "struct S { a int; } func main() { x = iso { S(1) }; println(x.a); }",
        Refused("E50 at 1:62\n"),
    ),
    (
        "struct S { } func f(s &S) { parallel foreach i in 0..1 { s } } func main() { }",
        Refused("E51 at 1:29\n"),
    ),
    (
        "struct S { a int; } func main() { x = iso { S(1) }; println(x.a); pure { return; } }",
        Refused("E44 at 1:74\n"),
    ),
    (
        "struct S { } func main() { pure { return; } a = S(); drop(a); drop(a); }",
        Refused("E30 at 1:68\n"),
    ),
    (
        "struct S { } func main() { a = S(); if true { drop(a); } else { drop(a); } }",
        NotServed,
    ),
    (
        "struct S { a! int; } func main() { s = S(1); set s.a = 2; println(s.a); }",
        NotServed,
    ),
    (
        "func main() { xs = []int(1, 2); push(&xs, 3); println(len(&xs)); }",
        NotServed,
    ),
    (
        "pure func f(n int) int { return n; } func main() { println(f(1)); }",
        NotServed,
    ),
    (
        "struct S { a int; } func main() { s = S(1); x = pure { s.a }; println(x); }",
        NotServed,
    ),
    (
        "struct S { a int; } func main() { x = iso { S(1) }; println(pure { x.a }); }",
        NotServed,
    ),
    (
        "func main(input []int) { println(len(&input)); }",
        NotServed,
    ),
    (
        "interface I { func m(self &I); } func main() { }",
        NotServed,
    ),
];

const NOT_SERVED: &str = "E05 at 1:1\n";

const COUNTS: &str = "kept 0\nelided 0\n";

// The status, and what goes to `out` and `err`.
type Expected = (u8, &'static str, &'static str);

fn of_check(answer: Answer) -> Expected {
    match answer {
        Unread(line) | Refused(line) => (1, "", line),
        NotServed => (1, "", NOT_SERVED),
        Runs(_) => (0, COUNTS, ""),
    }
}

fn of_run(answer: Answer) -> Expected {
    match answer {
        Unread(line) | Refused(line) => (1, "", line),
        NotServed => (1, "", NOT_SERVED),
        Runs(out) => (0, out, ""),
    }
}

// Whether `fmt` refuses the text with this line, or accepts it where there is none.
fn is_formatted<R: Threads + Sync>(
    rt: &R,
    alloc: Global,
    text: &[u8],
    answer: Answer,
) -> Result<bool, Fail> {
    let seen = run_on(rt, alloc, &["fmt", "p"], text, &CALM)?;
    match answer {
        Unread(line) => Ok(seen.is(1, "", line)),
        _ => Ok(seen.status == 0 && seen.err.is_empty()),
    }
}

// Whether the three commands give the text this answer.
fn answers<R: Threads + Sync>(
    rt: &R,
    alloc: Global,
    text: &[u8],
    answer: Answer,
) -> Result<bool, Fail> {
    let is_checked = gives(rt, alloc, &["check", "p"], text, of_check(answer))?;
    let is_run = gives(rt, alloc, &["run", "p"], text, of_run(answer))?;
    let is_laid_out = is_formatted(rt, alloc, text, answer)?;
    Ok(is_checked && is_run && is_laid_out)
}

#[test]
fn the_commands_agree_on_each_text(rt: HostRuntime) -> Result<(), Fail> {
    for &(text, answer) in TEXTS {
        let agree = answers(&rt, rt.alloc(), text.as_bytes(), answer)?;
        assert!(rt; agree, "{text}");
    }
    Ok(())
}

// Bytes with how often each stands in a text, and the text's answer.
const LIMITS: &[(u8, usize, Answer)] = &[
    (b' ', 1_048_576, Refused("E13 at 1:1\n")),
    (b' ', 1_048_577, Unread("E01 at 1:1\n")),
    (b'a', 1_048_577, Unread("E01 at 1:1\n")),
];

#[test]
fn a_text_is_refused_from_its_limit_on(rt: HostRuntime) -> Result<(), Fail> {
    for &(byte, count, answer) in LIMITS {
        let text = vec![in rt.alloc(); byte; count]?;
        assert!(rt; answers(&rt, rt.alloc(), &text, answer)?);
    }
    Ok(())
}

// What stands around so many more parameters of a function.
const PARAMS: (&str, &str, &str, &str) = ("func f(x int", ", x", " int", ") { } func main() { }");

// Functions with so many names, and their answer.
const SIZES: &[((&str, &str, &str, &str), u32, Answer)] = &[
    (NAMES, 1024, Runs("")),
    (NAMES, 1025, Refused("E17 at 1:6\n")),
    (PARAMS, 1023, Runs("")),
    (PARAMS, 1024, Refused("E17 at 1:6\n")),
];

#[test]
fn a_function_has_at_most_1024_names(rt: HostRuntime) -> Result<(), Fail> {
    for &(parts, count, answer) in SIZES {
        let text = numbered(rt.alloc(), parts, count)?;
        assert!(rt; answers(&rt, rt.alloc(), &text, answer)?);
    }
    Ok(())
}
