// Tokens that are formatted as the canonical text of what they spell.
use std::alloc::Global;
use std::test::Fail;
use vale_base::{Fail as Refused, Memory};
use vale_format::format;
use vale_lexer::{LexFault, lex};
use vale_parser::ParseFault;

// The text formatted, or the code of its fault.
fn formatted(alloc: Global, text: &[u8]) -> Result<Result<Vec<u8>, u8>, Fail> {
    if text.len() > 1_048_576 {
        return Ok(Err(1));
    }
    let tokens = match lex(alloc, text) {
        Ok(tokens) => tokens,
        Err(Refused::Is(LexFault { code, .. })) => return Ok(Err(code)),
        Err(Refused::Memory) => return Err(Memory.into()),
    };
    match format(alloc, &tokens) {
        Ok(text) => Ok(Ok(text)),
        Err(Refused::Is(ParseFault { code, .. })) => Ok(Err(code)),
        Err(Refused::Memory) => Err(Memory.into()),
    }
}

fn is_formatted_as(alloc: Global, text: &str, canonical: &str) -> Result<bool, Fail> {
    match formatted(alloc, text.as_bytes())? {
        Ok(found) => Ok(found.as_slice() == canonical.as_bytes()),
        Err(_) => Ok(false),
    }
}

fn has_fault(alloc: Global, text: &str, code: u8) -> Result<bool, Fail> {
    match formatted(alloc, text.as_bytes())? {
        Ok(_) => Ok(false),
        Err(found) => Ok(found == code),
    }
}

const CANONICAL: &str = "func main() {\n  if true {\n    println(1 + 2);\n  }\n}\n";

const WRITTEN: &[&str] = &["func main(){if true{println( 1+2 );}}", CANONICAL];

#[test]
fn a_text_is_formatted_once(rt: HostRuntime) -> Result<(), Fail> {
    for &text in WRITTEN {
        assert!(rt; is_formatted_as(rt.alloc(), text, CANONICAL)?, "{text}");
    }
    Ok(())
}

// Texts with the code of their fault.
const FAULTY: &[(&str, u8)] = &[("func main() { @ }", 2), ("func main() { x = ; }", 5)];

#[test]
fn what_is_no_program_is_not_formatted(rt: HostRuntime) -> Result<(), Fail> {
    for &(text, code) in FAULTY {
        assert!(rt; has_fault(rt.alloc(), text, code)?, "{text}");
    }
    Ok(())
}
