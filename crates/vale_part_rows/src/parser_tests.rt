// Texts that are a program and texts that aren't, and canonical texts, which are printed as they were read.
use crate::reading::read;
use crate::texts::repeated;
use std::alloc::Global;
use std::test::Fail;
use vale_printer::print;

// Whether this is the text's fault, or the code is 0 and it has none.
fn has_fault(alloc: Global, text: &[u8], code: u8, line: u32, col: u32) -> Result<bool, Fail> {
    match read(alloc, text)? {
        Ok(_) => Ok(code == 0),
        Err((found, at)) => Ok(found == code && at.line == line && at.col == col),
    }
}

// Texts with the code, line and column of their fault.
const TEXTS: &[(&str, u8, u32, u32)] = &[
    ("", 0, 0, 0),
    ("func main() { x = ; }", 5, 1, 19),
    ("func main() {", 5, 1, 14),
    ("func main() { x = 1 < 2 < 3; }", 5, 1, 25),
    ("func main() { if true { } else 1 }", 5, 1, 32),
    ("func main() { if true { } + 1; }", 5, 1, 27),
    ("func main() { x = 1 < 2 and 2 < 3; }", 0, 0, 0),
    ("func main() { (if true { } else { }) + 1; }", 0, 0, 0),
    ("func main() { [a] }", 5, 1, 19),
    ("struct S { a int }", 5, 1, 18),
    ("func f() ; ", 5, 1, 10),
    ("func main() { while true { }; }", 5, 1, 29),
    ("func main() { foreach i in 0 { } }", 5, 1, 30),
    ("func main() { x = 1 y = 2; }", 5, 1, 21),
    ("impl I for S { func m() ; }", 5, 1, 25),
    ("func main() { set a; }", 5, 1, 20),
    ("func main() {\n  return\n}\n", 5, 3, 1),
];

#[test]
fn a_text_is_a_program_or_has_a_fault(rt: HostRuntime) -> Result<(), Fail> {
    for &(text, code, line, col) in TEXTS {
        let is_found = has_fault(rt.alloc(), text.as_bytes(), code, line, col)?;
        assert!(rt; is_found, "{text}");
    }
    Ok(())
}

// What opens a level, its count, and the code and column of the fault.
const LEVELS: &[((&str, &str, &str, &str), u32, u8, u32)] = &[
    (("func main() { x = ", "(", "1", ")"), 63, 5, 146),
    (("func main() { x = ", "(", "1", ")"), 64, 6, 82),
    (("func main() { x = ", "(", "1(", ")"), 63, 5, 83),
    (("func main() { x = ", "-", "1", ""), 63, 5, 83),
    (("func main() { x = ", "-", "1", ""), 64, 6, 82),
    (("func f(x ", "[]", "int", ""), 63, 5, 139),
    (("func f(x ", "[]", "int", ""), 64, 6, 136),
];

#[test]
fn a_text_has_sixty_four_levels(rt: HostRuntime) -> Result<(), Fail> {
    for &((front, open, middle, close), times, code, col) in LEVELS {
        let text = repeated(rt.alloc(), (front, open, middle, close), times)?;
        let is_found = has_fault(rt.alloc(), &text, code, 1, col)?;
        assert!(rt; is_found, "{times} times {open} in {front}");
    }
    Ok(())
}

// Whether the text has a tree, and this is the tree's text.
fn is_printed_as(alloc: Global, text: &[u8], canonical: &[u8]) -> Result<bool, Fail> {
    match read(alloc, text)? {
        Ok(tree) => Ok(print(alloc, &tree)?.as_slice() == canonical),
        Err(_) => Ok(false),
    }
}

// Canonical texts of items.
const ITEMS: &[&str] = &[
    "struct A {\n}\n",
    "struct A {\n  x! int;\n  y bool;\n}\nstruct B {\n}\n",
    "interface I {\n}\n",
    "interface I {\n  pure func m(self &imm I) int;\n  func n(self &I, a str);\n}\n",
    "impl I for A {\n}\n",
    "impl I for A {\n  pure func m(self &imm A) int {\n    self.x\n  }\n  func n(self &A, a str) {\n  }\n}\n",
    "func f() {\n}\n",
    "pure func f(a int, b bool) str {\n  \"c\"\n}\n",
    "func f(a A, b []A, c &A, d &imm A, e iso A) &[]iso []A {\n}\n",
];

#[test]
fn items_are_printed_as_they_were_read(rt: HostRuntime) -> Result<(), Fail> {
    for &text in ITEMS {
        let is_kept = is_printed_as(rt.alloc(), text.as_bytes(), text.as_bytes())?;
        assert!(rt; is_kept, "{text}");
    }
    Ok(())
}

// What stands in a canonical block: statements, and last expressions.
const LINES: &[&str] = &[
    "x = 1;",
    "[] = x;",
    "[a] = x;",
    "[a, b] = x;",
    "return;",
    "return x;",
    "while x {\n  }",
    "foreach i in 0..n {\n    println(i);\n  }",
    "if x {\n  }",
    "if x {\n  } else {\n  }\n  x;",
    "if x {\n    1\n  } else if y {\n    2\n  } else {\n    3\n  }",
    "pure {\n  }\n  x",
    "pure {\n  };",
    "parallel foreach i in x {\n    i\n  }",
    "parallel foreach i in 0..n {\n  }",
    "x = parallel foreach i in 0..n {\n  };",
    "x;",
    "set a = b",
    "set a.b[0] = c;",
    "a or b or c",
    "a and b and c",
    "a or b and c == d",
    "a == b",
    "a != b",
    "a < b",
    "a <= b",
    "a > b",
    "a >= b",
    "a + b - c",
    "a * b / c % d",
    "a + b * c",
    "-a",
    "not a",
    "not(a)",
    "&a",
    "merge a",
    "--a",
    "a.b",
    "a.b()",
    "a.b(c, d)",
    "a[b]",
    "a.b[c].d(e)[f]",
    "0",
    "9223372036854775807",
    "\"a\\n\\t\\\\\\\"\"",
    "true",
    "false",
    "a",
    "a()",
    "a(b, c)",
    "(a)",
    "[]A()",
    "[]int(1, 2)",
    "[]&imm []A(a)",
    "iso {\n    A()\n  }",
    "f(pure {\n    1\n  }, 2)",
];

#[test]
fn lines_are_printed_as_they_were_read(rt: HostRuntime) -> Result<(), Fail> {
    for &line in LINES {
        let text = repeated(rt.alloc(), ("func main() {\n  ", line, "\n}\n", ""), 1)?;
        assert!(rt; is_printed_as(rt.alloc(), &text, &text)?, "{line}");
    }
    Ok(())
}

// Texts with their canonical texts.
const LAYOUTS: &[(&str, &str)] = &[
    (
        "func\tmain ( ) // a\r\n{ x=007 ;}",
        "func main() {\n  x = 7;\n}\n",
    ),
    (
        "struct A{x!int;}func f(a&imm A,b[]A)[]A{[]A(a,b)}",
        "struct A {\n  x! int;\n}\nfunc f(a &imm A, b []A) []A {\n  []A(a, b)\n}\n",
    ),
    (
        "func f(){if(a){return(1);}else if not(b){}else{}}",
        "func f() {\n  if(a) {\n    return(1);\n  } else if not(b) {\n  } else {\n  }\n}\n",
    ),
    (
        "func f(){foreach i in(0)..(1){set(a . b)[ 0 ]=-1+ - 2;}}",
        "func f() {\n  foreach i in (0)..(1) {\n    set(a.b)[0] = -1 + -2;\n  }\n}\n",
    ),
];

#[test]
fn a_text_is_laid_out(rt: HostRuntime) -> Result<(), Fail> {
    for &(text, canonical) in LAYOUTS {
        let is_laid_out = is_printed_as(rt.alloc(), text.as_bytes(), canonical.as_bytes())?;
        assert!(rt; is_laid_out, "{text}");
    }
    Ok(())
}
