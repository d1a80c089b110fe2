// What the front answers to a text, and how a refusal is told.
use std::alloc::Global;
use std::test::Fail;
use vale_base::{Fail as Fault, Spot};
use vale_front::{Refusal, front};

// The refusal of a text that has one.
fn refusal(alloc: Global, text: &str) -> Option<Refusal> {
    match front(alloc, text.as_bytes()) {
        Err(Fault::Is(refusal)) => Some(refusal),
        _ => None,
    }
}

// Refusals with what is told of them.
const TOLD: &[(u8, u32, u32, &str)] = &[
    (20, 1, 21, "E20 at 1:21"),
    (1, 1, 1, "E01 at 1:1"),
    (5, 12, 1048, "E05 at 12:1048"),
];

#[test]
fn a_refusal_is_told_by_its_code_and_spot(rt: HostRuntime) -> Result<(), Fail> {
    let alloc = rt.alloc();
    for &(code, line, col, text) in TOLD {
        let refusal = Refusal {
            code,
            at: Spot { line, col },
        };
        let told = format!(in alloc; "{refusal}")?;
        assert!(rt; told.as_str() == text, "{text}");
    }
    Ok(())
}

#[test]
fn the_front_refuses_with_the_first_fault(rt: HostRuntime) -> Result<(), Fail> {
    let alloc = rt.alloc();
    let at = Spot { line: 1, col: 21 };
    let found = refusal(alloc, "func main() { x = 1 + true; }");
    assert!(rt; found == Some(Refusal { code: 20, at }));
    assert!(rt; refusal(alloc, "func main() { }") == None);
    Ok(())
}
