// Cuts a text into tokens.
ghost use Rattle.std.specs.Prelude.{◌≡◌, ℕ, ◌+◌, ◌<◌, ◌≤◌, ◌^◌, length, drop, IfOk};
ghost use Rattle.vale_base.specs.Faults.{IfFault, IsValueUnlessMemory, IsFaultUnlessMemory};
ghost use Rattle.vale_base.specs.declared.spot.Spot.{Spot};
ghost use Rattle.vale_syntax.specs.Cut.{cut, step, LexFaultAt};
ghost use Rattle.vale_syntax.specs.declared.token.Tokens.{Tokens};

use crate::pieces::{Piece, first_piece};
use std::alloc::Global;
use vale_base::{Fail, Spot};
use vale_syntax::{Token, TokenList, Tokens};

/// Why a text has no tokens, and where.
#[derive(Clone, Copy, Debug, PartialEq, Eq)]
pub struct LexFault {
    /// 2 at a byte that begins no token, or at a `\` in a quote that begins no escape. 3 at a number above
    /// 9,223,372,036,854,775,807, or at a whole quote whose text has more than 65,536 bytes. 4 at a quote that a line
    /// feed or the end of the text comes upon, where no such `\` is in it.
    pub code: u8,
    pub at: Spot,
}

fn step(at: Spot, byte: u8) -> Spot
    requires lines { at.line + 1 < 2 ^ 32 }
    requires cols { at.col + 1 < 2 ^ 32 }
    ensures { result ≡ step at byte }
{
    if byte == b'\n' {
        Spot {
            line: at.line + 1,
            col: 1,
        }
    } else {
        Spot {
            line: at.line,
            col: at.col + 1,
        }
    }
}

// The spot so many bytes further in the line.
fn along(at: Spot, len: usize) -> Spot
    requires { at.col + len < 2 ^ 32 }
    ensures { result ≡ record { line = at.line; col = at.col + len } }
{
    Spot {
        line: at.line,
        col: at.col + len as u32,
    }
}

// What is after so many bytes.
fn behind(bytes: &[u8], len: usize) -> &[u8]
    requires { len ≤ length bytes.now }
    ensures { result.now ≡ drop len bytes.now }
{
    &bytes[len..]
}

/// The tokens of a text, or its first fault (docs/LANGUAGE.md, "Tokens"). In fewer than 4,294,967,295 bytes each line and
/// each column fits its type. `Fail::Is` comes where no tokens cut the text, and only there; `Fail::Memory` may always
/// come.
pub fn lex(alloc: Global, bytes: &[u8]) -> Result<Tokens, Fail<LexFault>>
    requires { length bytes.now < 4294967295 }
    // what is answered cuts the text
    ensures found { IfOk result (λ tokens. cut bytes.now tokens) }
    // what cuts the text is answered
    ensures complete { (tokens : Tokens) → cut bytes.now tokens → IsValueUnlessMemory result (λ t. t ≡ tokens) }
    // the fault that is answered is the text's first
    ensures fault { IfFault result (λ f. LexFaultAt bytes.now f.code f.at) }
    // the text's first fault is answered
    ensures refused { (code : ℕ) (at : Spot) → LexFaultAt bytes.now code at
        → IsFaultUnlessMemory result (λ f. (f.code ≡ code) × (f.at ≡ at)) }
    // where a fault is answered, nothing cuts the text
    ensures uncut { IfFault result (λ f. (tokens : Tokens) → cut bytes.now tokens → ⊥) }
    // there is at most one cutting
    ensures unique { (t u : Tokens) → cut bytes.now t → cut bytes.now u → t ≡ u }
{
    let mut list = Vec::new(alloc);
    let mut rest = bytes;
    let mut at = Spot { line: 1, col: 1 };
    loop {
        match first_piece(alloc, rest)? {
            Piece::End => {
                return Ok(Tokens {
                    list: TokenList::from_vec(list),
                    end: at,
                });
            }
            Piece::Blank(byte) => {
                rest = behind(rest, 1);
                at = step(at, byte);
            }
            Piece::Comment(len) => {
                rest = behind(rest, len);
                at = along(at, len);
            }
            Piece::Token(kind, len) => {
                list.push(Token { kind, at })?;
                rest = behind(rest, len);
                at = along(at, len);
            }
            Piece::Fault(code, offset) => {
                return Err(Fail::Is(LexFault {
                    code,
                    at: along(at, offset),
                }));
            }
        }
    }
}
