// Texts with their tokens or their first fault.
use std::alloc::Global;
use std::test::Fail;
use vale_base::{Fail as Refused, Memory};
use vale_lexer::{LexFault, lex};
use vale_syntax::{Sign, Token, TokenKind, Tokens};

// Whether the text has this outline: 100 more than its number of tokens and the spot of its end, or the code and spot of its
// fault.
fn has_outline(
    alloc: Global,
    text: &[u8],
    outline: usize,
    line: u32,
    col: u32,
) -> Result<bool, Fail> {
    if text.len() > 1_048_576 {
        return Ok(false);
    }
    let (found, at) = match lex(alloc, text) {
        Ok(tokens) => (100 + tokens.list.as_slice().len(), tokens.end),
        Err(Refused::Is(LexFault { code, at })) => (code as usize, at),
        Err(Refused::Memory) => return Err(Memory.into()),
    };
    Ok(found == outline && at.line == line && at.col == col)
}

// Texts with their outlines.
const TEXTS: &[(&str, usize, u32, u32)] = &[
    ("func main() { @ }", 2, 1, 15),
    ("func main() { x = 9223372036854775808; }", 3, 1, 19),
    ("func main() { print(\"a); }", 4, 1, 21),
    ("", 100, 1, 1),
    ("{}()[],;...!&= == != < <= > >=+-*/%", 124, 1, 36),
    ("\"a\\n\\t\\\\\\\"b\"", 101, 1, 13),
    ("a // b", 101, 1, 7),
    ("//x\n\tb\r\nc", 102, 3, 2),
    ("007 9223372036854775807 0..10.", 106, 1, 31),
    ("iffy if _1 1a", 105, 1, 14),
    ("a/b", 103, 1, 4),
    ("\"a\\q\n", 2, 1, 3),
    ("\"a\n\\q\"", 4, 1, 1),
    ("\"a\\", 2, 1, 3),
    ("a:b", 2, 1, 2),
    ("10000000000000000000", 3, 1, 1),
    ("x\n  \"", 4, 2, 3),
    ("9223372036854775808 @", 3, 1, 1),
    ("@ 9223372036854775808", 2, 1, 1),
    (
        "func pure struct interface impl for iso imm set return if else while foreach in parallel merge and or not true false int bool str",
        125,
        1,
        130,
    ),
];

// Bytes that are no text of letters, with their outlines.
const BYTES: &[(&[u8], usize, u32, u32)] = &[(b"\x80", 2, 1, 1), (b"\"\x80\x00\"", 101, 1, 5)];

#[test]
fn texts_have_their_tokens_or_their_fault(rt: HostRuntime) -> Result<(), Fail> {
    for &(text, outline, line, col) in TEXTS {
        let is_found = has_outline(rt.alloc(), text.as_bytes(), outline, line, col)?;
        assert!(rt; is_found, "{text}");
    }
    for &(bytes, outline, line, col) in BYTES {
        assert!(rt; has_outline(rt.alloc(), bytes, outline, line, col)?);
    }
    Ok(())
}

// A quote of so many letters.
fn quote(alloc: Global, letters: usize) -> Result<Vec<u8>, Fail> {
    let mut text = Vec::from_slice(alloc, b"\"")?;
    for _ in 0..letters {
        text.push(b'a')?;
    }
    text.push(b'"')?;
    Ok(text)
}

// How many letters a quote has, with its outline and the column of that.
const QUOTES: &[(usize, usize, u32)] = &[(65_536, 101, 65_539), (65_537, 3, 1)];

#[test]
fn a_quote_has_a_limit(rt: HostRuntime) -> Result<(), Fail> {
    for &(letters, outline, col) in QUOTES {
        let text = quote(rt.alloc(), letters)?;
        assert!(rt; has_outline(rt.alloc(), &text, outline, 1, col)?);
    }
    Ok(())
}

fn is_quote(tokens: &Tokens, text: &[u8]) -> bool {
    match tokens.list.as_slice() {
        [
            Token {
                kind: TokenKind::Quote(found),
                ..
            },
        ] => found.as_slice() == text,
        _ => false,
    }
}

fn is_number(tokens: &Tokens, value: i64) -> bool {
    match tokens.list.as_slice() {
        [
            Token {
                kind: TokenKind::Number(found),
                ..
            },
        ] => *found == value,
        _ => false,
    }
}

fn is_sign(tokens: &Tokens, sign: Sign) -> bool {
    match tokens.list.as_slice() {
        [
            Token {
                kind: TokenKind::Sign(found),
                ..
            },
        ] => *found == sign,
        _ => false,
    }
}

// The tokens of a short text.
fn lexed(alloc: Global, text: &str) -> Result<Tokens, Fail> {
    if text.len() > 100 {
        return Err("a short text".into());
    }
    Ok(lex(alloc, text.as_bytes())?)
}

#[test]
fn tokens_have_their_values(rt: HostRuntime) -> Result<(), Fail> {
    let quote = "\"a\\n\\t\\\\\\\"b\"";
    assert!(rt; is_quote(&lexed(rt.alloc(), quote)?, &[97, 10, 9, 92, 34, 98]));
    assert!(rt; is_number(&lexed(rt.alloc(), "007")?, 7));
    assert!(rt; is_sign(&lexed(rt.alloc(), "..")?, Sign::DotDot));
    assert!(rt; is_sign(&lexed(rt.alloc(), "<=")?, Sign::LessEqual));
    Ok(())
}
