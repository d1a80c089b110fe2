// Whole runs of accepted programs: what they print, how they trap and where they are cut.
use crate::calls::gives;
use std::alloc::Global;
use std::test::Fail;
use std::thread::Threads;

// Programs that come to their end, each with what it prints.
const DONE: &[(&str, &str)] = &[
    (
        "func fact(n int) int { if n < 2 { return 1; } return n * fact(n - 1); } func main() { println(fact(5)); println(fact(20)); }",
        "120\n2432902008176640000\n",
    ),
    (
        "func fib(n int) int { if n < 2 { return n; } return fib(n - 1) + fib(n - 2); } func main() { foreach i in 0..11 { print(fib(i)); print(\" \"); } }",
        "0 1 1 2 3 5 8 13 21 34 55 ",
    ),
    (
        "func even(n int) bool { if n == 0 { return true; } return odd(n - 1); } func odd(n int) bool { if n == 0 { return false; } return even(n - 1); } func main() { println(even(10)); println(odd(10)); }",
        "true\nfalse\n",
    ),
    (
        "func f(n int) { if n > 2 { return; } print(n); } func main() { foreach i in 0..5 { f(i); } }",
        "012",
    ),
    (
        "func max(a int, b int) int { if a < b { return b; } else { return a; } } func main() { println(max(max(3, 9), max(7, 2))); }",
        "9\n",
    ),
    (
        "func f(a int, b str) int { return a; } func main() { println(f(1, \"x\")); }",
        "1\n",
    ),
    (
        "func f(a int) int { set a = a + 1; return a; } func main() { a = 1; println(f(a)); println(a); }",
        "2\n1\n",
    ),
    (
        "func main() { foreach i in 1..4 { foreach j in 1..4 { print(i * j); print(\" \"); } println(\"\"); } }",
        "1 2 3 \n2 4 6 \n3 6 9 \n",
    ),
    (
        "func prime(n int) bool { d = 2; while d * d <= n { if n % d == 0 { return false; } set d = d + 1; } return true; } func main() { foreach n in 2..30 { if prime(n) { print(n); print(\" \"); } } }",
        "2 3 5 7 11 13 17 19 23 29 ",
    ),
    (
        "func main() { foreach i in 0..3 { print(i); set i = 10; print(i); } }",
        "010110210",
    ),
    (
        "func main() { n = 2; foreach i in 0..n { set n = 5; print(i); } println(n); }",
        "015\n",
    ),
    (
        "func main() { foreach i in 3..1 { print(i); } foreach i in -1..1 { print(i); } }",
        "-10",
    ),
    (
        "func main() { x = 1; while x < 1000 { x2 = x * x; print(x2); print(\" \"); set x = x * 10; } while false { print(x); } println(x); }",
        "1 100 10000 1000\n",
    ),
    (
        "func first(n int) int { foreach d in 2..n { if n % d == 0 { return d; } } return n; } func main() { println(first(91)); println(first(97)); }",
        "7\n97\n",
    ),
    (
        "func find(limit int) int { foreach a in 1..limit { b = a; while b < limit { if a * a + b * b == 25 { return a * 10 + b; } set b = b + 1; } } return -1; } func main() { println(find(10)); println(find(3)); }",
        "34\n-1\n",
    ),
    (
        "func reversed(s str) str { r = \"\"; foreach i in 0..len(s) { set r = slice(s, i, i + 1) + r; } return r; } func main() { println(reversed(\"stressed\")); println(reversed(\"\")); }",
        "desserts\n\n",
    ),
    (
        "func digits(s str) int { sum = 0; foreach i in 0..len(s) { set sum = sum + byte(s, i) - 48; } return sum; } func main() { println(digits(\"2026\")); }",
        "10\n",
    ),
    (
        "func main() { println(number(\"-12\") * 3); println(number(\"007\")); println(is_number(\"+1\")); println(is_number(\"-9223372036854775808\")); println(is_number(\"9223372036854775808\")); println(text(-7) + \"!\"); }",
        "-36\n7\nfalse\ntrue\nfalse\n-7!\n",
    ),
    (
        "func main() { println(len(\"a\\n\\\"\")); print(\"a\\tb\\\\\\n\"); println(\"ab\" < \"b\"); println(\"a\" + \"b\" == \"ab\"); }",
        "3\na\tb\\\ntrue\ntrue\n",
    ),
    (
        "func f(s str) str { print(s); return s; } func main() { println(f(\"a\") + f(\"b\")); }",
        "abab\n",
    ),
    (
        "func loud(b bool) bool { print(\"!\"); return b; } func main() { println(false and loud(true)); println(true or loud(false)); println(true and loud(false)); println(false or loud(true)); }",
        "false\ntrue\n!false\n!true\n",
    ),
    (
        "func main() { x = 1; println(set x = 2); println(x); println((set x = x + 1) + x); }",
        "1\n2\n5\n",
    ),
    (
        "func sign(n int) int { return if n < 0 { -1 } else if n == 0 { 0 } else { 1 }; } func main() { print(sign(-5)); print(sign(0)); print(sign(5)); }",
        "-101",
    ),
    (
        "func main() { println(-7 / 2); println(-7 % 2); println(7 / -2); println(7 % -2); println(2 + 3 * 4 - 10 / 3 % 2); }",
        "-3\n-1\n-3\n1\n13\n",
    ),
    (
        "func main() { println(not (1 < 2) and \"a\" != \"b\" or true == false); println(1 == 1 and not false); }",
        "false\ntrue\n",
    ),
    (
        "func main() { println(-9223372036854775807 - 1); println(9223372036854775807); }",
        "-9223372036854775808\n9223372036854775807\n",
    ),
];

// Programs that trap, each with what it prints before and the report.
const TRAPPED: &[(&str, &str, &str)] = &[
    (
        "func main() { println(1); println(9223372036854775807 + 1); }",
        "1\n",
        "trap: overflow at 1:55\nin main\n",
    ),
    (
        "func main() { x = -9223372036854775807; println(x - 1); println(x - 2); }",
        "-9223372036854775808\n",
        "trap: overflow at 1:67\nin main\n",
    ),
    (
        "func main() { println(3037000499 * 3037000499); println(3037000500 * 3037000500); }",
        "9223372030926249001\n",
        "trap: overflow at 1:68\nin main\n",
    ),
    (
        "func main() { x = -9223372036854775807 - 1; println(-x); }",
        "",
        "trap: overflow at 1:53\nin main\n",
    ),
    (
        "func main() { x = -9223372036854775807 - 1; println(x / 1); println(x / -1); }",
        "-9223372036854775808\n",
        "trap: overflow at 1:71\nin main\n",
    ),
    (
        "func main() { x = -9223372036854775807 - 1; println(x % -1); }",
        "",
        "trap: overflow at 1:55\nin main\n",
    ),
    (
        "func main() { x = 0; println(x / 1); println(1 / x); }",
        "0\n",
        "trap: division by zero at 1:48\nin main\n",
    ),
    (
        "func main() { x = 0; println(x % 7); println(7 % x); }",
        "0\n",
        "trap: division by zero at 1:48\nin main\n",
    ),
    (
        "func main() { println(slice(\"abc\", 3, 3)); println(slice(\"abc\", 2, 4)); }",
        "\n",
        "trap: index out of range at 1:52\nin main\n",
    ),
    (
        "func main() { println(slice(\"abc\", 2, 1)); }",
        "",
        "trap: index out of range at 1:23\nin main\n",
    ),
    (
        "func main() { println(slice(\"abc\", -1, 1)); }",
        "",
        "trap: index out of range at 1:23\nin main\n",
    ),
    (
        "func main() { println(byte(\"abc\", 2)); println(byte(\"abc\", 3)); }",
        "99\n",
        "trap: index out of range at 1:48\nin main\n",
    ),
    (
        "func main() { println(byte(\"abc\", -1)); }",
        "",
        "trap: index out of range at 1:23\nin main\n",
    ),
    (
        "func main() { println(number(\"1x\")); }",
        "",
        "trap: not a number at 1:23\nin main\n",
    ),
    (
        "func main() { println(number(\"9223372036854775808\")); }",
        "",
        "trap: not a number at 1:23\nin main\n",
    ),
    (
        "func main() { s = \"a\"; while true { println(len(s)); set s = s + s; } }",
        "1\n2\n4\n8\n16\n32\n64\n128\n256\n512\n1024\n2048\n4096\n8192\n16384\n32768\n65536\n",
        "trap: text too long at 1:64\nin main\n",
    ),
    (
        "func fact(n int) int {\n  if n < 2 { return 1; }\n  return n * fact(n - 1);\n}\nfunc main() {\n  println(fact(21));\n}\n",
        "",
        "trap: overflow at 3:12\nin fact\ncalled at 6:11 in main\n",
    ),
    (
        "func a(n int) int { return 6 / n; }\nfunc b(n int) int { return a(n - 1); }\nfunc main() {\n  foreach i in 0..3 { print(b(3 - i)); }\n}\n",
        "36",
        "trap: division by zero at 1:30\nin a\ncalled at 2:28 in b\ncalled at 4:29 in main\n",
    ),
];

// Programs with the ticks that they may spend, the status, what is printed and what is told.
const TICKED: &[(&str, &str, u8, &str, &str)] = &[
    (
        "func main() { println(1); while true { print(\"x\"); } }",
        "4",
        4,
        "1\nxxx",
        "cut after 4 ticks\n",
    ),
    (
        "func main() { println(1); while true { print(\"x\"); } }",
        "1",
        4,
        "1\n",
        "cut after 1 ticks\n",
    ),
    (
        "func main() { foreach i in 0..3 { print(i); } }",
        "3",
        4,
        "01",
        "cut after 3 ticks\n",
    ),
    (
        "func main() { foreach i in 0..3 { print(i); } }",
        "4",
        0,
        "012",
        "",
    ),
    (
        "func f() { print(\"f\"); } func main() { f(); f(); }",
        "2",
        4,
        "f",
        "cut after 2 ticks\n",
    ),
    (
        "func f() { print(\"f\"); } func main() { f(); f(); }",
        "3",
        0,
        "ff",
        "",
    ),
    (
        "func main() { println(1); println(1 / 0); }",
        "1",
        3,
        "1\n",
        "trap: division by zero at 1:37\nin main\n",
    ),
    (
        "func main() { f(1); } func f(n int) { f(n + 1); }",
        "99999",
        4,
        "",
        "cut after 99999 ticks\n",
    ),
];

// Each call calls itself once more.
const DEEP: &str = "func f(n int) { f(n + 1); } func main() { f(0); }";

// Whether a run of the program gives this.
fn runs<R: Threads + Sync>(
    rt: &R,
    alloc: Global,
    text: &str,
    expected: (u8, &str, &str),
) -> Result<bool, Fail> {
    gives(rt, alloc, &["run", "p"], text.as_bytes(), expected)
}

// Whether a run of the program that may spend so many ticks gives this.
fn runs_with<R: Threads + Sync>(
    rt: &R,
    alloc: Global,
    text: &str,
    ticks: &str,
    expected: (u8, &str, &str),
) -> Result<bool, Fail> {
    let words = ["run", "p", "--ticks", ticks];
    gives(rt, alloc, &words, text.as_bytes(), expected)
}

#[test]
fn programs_print_what_they_mean(rt: HostRuntime) -> Result<(), Fail> {
    for &(text, out) in DONE {
        assert!(rt; runs(&rt, rt.alloc(), text, (0, out, ""))?, "{text}");
    }
    Ok(())
}

#[test]
fn traps_are_told(rt: HostRuntime) -> Result<(), Fail> {
    for &(text, out, report) in TRAPPED {
        assert!(rt; runs(&rt, rt.alloc(), text, (3, out, report))?, "{text}");
    }
    Ok(())
}

#[test]
fn a_run_is_cut_where_no_tick_is_left(rt: HostRuntime) -> Result<(), Fail> {
    for &(text, ticks, status, out, err) in TICKED {
        let agrees = runs_with(&rt, rt.alloc(), text, ticks, (status, out, err))?;
        assert!(rt; agrees, "{text}");
    }
    Ok(())
}

// The report of the trap in `DEEP`: of 100,000 frames 64 are named.
fn deep_report(alloc: Global) -> Result<String, Fail> {
    let mut report = String::from_str(alloc, "trap: call depth at 1:17\nin f\n")?;
    for _ in 0..63 {
        report.push_str("called at 1:17 in f\n")?;
    }
    report.push_str("and 99936 more\n")?;
    Ok(report)
}

#[test]
fn the_depth_of_calls_has_an_end(rt: HostRuntime) -> Result<(), Fail> {
    let report = deep_report(rt.alloc())?;
    let trapped = (3, "", report.as_str());
    assert!(rt; runs(&rt, rt.alloc(), DEEP, trapped)?);
    // the call that is too deep spends no tick
    assert!(rt; runs_with(&rt, rt.alloc(), DEEP, "100000", trapped)?);
    let cut = (4, "", "cut after 99999 ticks\n");
    assert!(rt; runs_with(&rt, rt.alloc(), DEEP, "99999", cut)?);
    Ok(())
}
