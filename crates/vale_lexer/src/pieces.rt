// What begins a text.
ghost use Rattle.std.specs.Prelude.{◌≡◌, ◌<◌, ◌^◌, IfOk, length};
ghost use Rattle.vale_lexer.specs.Next.{number_piece, quote_piece, sign_piece, next};

use crate::bytes::{digits_len, is_blank, is_digit, is_letter, line_len, name_len};
use crate::numbers::number_of;
use crate::quotes::{Inner, scan};
use crate::signs::{one_sign, two_sign};
use crate::words::name_kind;
use std::alloc::Global;
use vale_base::{Memory, TEXT_LIMIT, Text};
use vale_syntax::TokenKind;

/// The code of a byte that begins no token, and of a `\` that begins no escape.
const NO_TOKEN: u8 = 2;

/// The code of a number that is no int, and of a quote whose text is too long.
const TOO_LARGE: u8 = 3;

/// The code of a quote that a line feed or the end comes upon.
const NO_END: u8 = 4;

/// The first piece of a text, with its length.
#[derive(Drop)]
pub enum Piece {
    /// The text is empty.
    End,
    /// A blank, which is this byte.
    Blank(u8),
    /// A comment of so many bytes.
    Comment(usize),
    /// A token of so many bytes.
    Token(TokenKind, usize),
    /// The fault of this code, so many bytes after the front.
    Fault(u8, usize),
}

fn number_piece(digits: &[u8]) -> Piece
    ensures { result ≡ number_piece digits.now }
{
    match number_of(digits) {
        Some(number) => Piece::Token(TokenKind::Number(number), digits.len()),
        None => Piece::Fault(TOO_LARGE, 0),
    }
}

// The bytes are those after the first `"`.
fn quote_piece(alloc: Global, bytes: &[u8]) -> Result<Piece, Memory>
    requires { length bytes.now < 2 ^ 32 }
    ensures { IfOk result (λ piece. piece ≡ quote_piece bytes.now) }
{
    let Inner { text, rest } = scan(alloc, bytes)?;
    let inner = bytes.len() - rest.len();
    Ok(match rest {
        [b'"', ..] if text.len() <= TEXT_LIMIT => Piece::Token(
            TokenKind::Quote(Text::from_vec(text)),
            inner + 2,
        ),
        [b'"', ..] => Piece::Fault(TOO_LARGE, 0),
        [b'\\', ..] => Piece::Fault(NO_TOKEN, inner + 1),
        _ => Piece::Fault(NO_END, 0),
    })
}

fn sign_piece(first: u8, more: &[u8]) -> Piece
    ensures { result ≡ sign_piece first more.now }
{
    if let [second, ..] = more {
        if let Some(sign) = two_sign(first, *second) {
            return Piece::Token(TokenKind::Sign(sign), 2);
        }
    }
    match one_sign(first) {
        Some(sign) => Piece::Token(TokenKind::Sign(sign), 1),
        None => Piece::Fault(NO_TOKEN, 0),
    }
}

/// What begins these bytes.
#[tactic(auto, unfolding(crate::specs::Next::next))]
pub fn first_piece(alloc: Global, bytes: &[u8]) -> Result<Piece, Memory>
    requires { length bytes.now < 2 ^ 32 }
    ensures { IfOk result (λ piece. piece ≡ next bytes.now) }
{
    let [first, more @ ..] = bytes else {
        return Ok(Piece::End);
    };
    if is_blank(*first) {
        Ok(Piece::Blank(*first))
    } else if is_letter(*first) {
        let len = name_len(bytes);
        Ok(Piece::Token(name_kind(alloc, &bytes[..len])?, len))
    } else if is_digit(*first) {
        Ok(number_piece(&bytes[..digits_len(bytes)]))
    } else if *first == b'"' {
        quote_piece(alloc, more)
    } else if bytes.starts_with(b"//") {
        Ok(Piece::Comment(line_len(bytes)))
    } else {
        Ok(sign_piece(*first, more))
    }
}
