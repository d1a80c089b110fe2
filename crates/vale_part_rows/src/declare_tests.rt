// Programs whose declarations are lawful, and programs whose declarations aren't.
use crate::reading::read;
use crate::texts::{NAMES, numbered};
use std::alloc::Global;
use std::test::Fail;
use vale_base::{Fail as Refused, Memory};
use vale_syntax::Tree;
use vale_types::{declare, has_no_interface};

// Whether the declarations of the text's tree have this fault, or the code is 0 and they have none.
fn declares(alloc: Global, tree: &Tree, code: u8, line: u32, col: u32) -> Result<bool, Fail> {
    // an interface or an implementation counts as E05 at 1:1
    if !has_no_interface(tree) {
        return Ok(code == 5 && line == 1 && col == 1);
    }
    match declare(alloc, tree) {
        Ok(_decls) => Ok(code == 0),
        Err(Refused::Is(fault)) => {
            Ok(fault.code == code && fault.at.line == line && fault.at.col == col)
        }
        Err(Refused::Memory) => Err(Memory.into()),
    }
}

// Whether this is the text's fault, or the code is 0 and it has none.
fn has_fault(alloc: Global, text: &[u8], code: u8, line: u32, col: u32) -> Result<bool, Fail> {
    match read(alloc, text)? {
        Ok(tree) => declares(alloc, &tree, code, line, col),
        Err((found, at)) => Ok(found == code && at.line == line && at.col == col),
    }
}

// Texts with the code, line and column of their fault.
const TEXTS: &[(&str, u8, u32, u32)] = &[
    ("func main() { }", 0, 0, 0),
    (
        "struct S { a! int; } func f(s &S) []S { } func main(input []int) { }",
        0,
        0,
        0,
    ),
    (
        "func drop(self S) { } func drop(self B) { } struct S { } struct B { } func main() { }",
        0,
        0,
        0,
    ),
    ("", 13, 1, 1),
    ("struct A { } struct A { } func main() { }", 10, 1, 21),
    ("func len() { } func main() { }", 10, 1, 6),
    ("func f(x Foo) { } func main() { }", 11, 1, 10),
    ("pure func main() { }", 13, 1, 11),
    (
        "func f(x iso []iso S) { } struct S { } func main() { }",
        14,
        1,
        10,
    ),
    ("func drop(x int) { } func main() { }", 15, 1, 6),
    ("struct S { a &imm S; } func main() { }", 16, 1, 14),
    ("func main() { x = []&int(); }", 16, 1, 21),
    ("struct S { a Foo; a int; } func main() { }", 11, 1, 14),
    ("interface I { } func main() { }", 5, 1, 1),
];

#[test]
fn declarations_are_lawful_or_have_a_fault(rt: HostRuntime) -> Result<(), Fail> {
    for &(text, code, line, col) in TEXTS {
        let is_found = has_fault(rt.alloc(), text.as_bytes(), code, line, col)?;
        assert!(rt; is_found, "{text}");
    }
    Ok(())
}

// How many names a function has, with the code and spot of its fault.
const SIZES: &[(u32, u8, u32, u32)] = &[(1024, 0, 0, 0), (1025, 17, 1, 6)];

#[test]
fn a_function_has_at_most_1024_names(rt: HostRuntime) -> Result<(), Fail> {
    for &(count, code, line, col) in SIZES {
        let text = numbered(rt.alloc(), NAMES, count)?;
        assert!(rt; has_fault(rt.alloc(), &text, code, line, col)?);
    }
    Ok(())
}
