// What stands in a quote.
ghost use Rattle.std.specs.Prelude.{◌≡◌, ◌≤◌, IfOk, length};
ghost use Rattle.vale_lexer.specs.Next.{part_of, scan};

use crate::bytes::{escape_of, is_plain};
use std::alloc::Global;
use vale_base::Memory;

/// The byte that the front stands for in a quote, and how many bytes it takes.
fn part(bytes: &[u8]) -> Option<(u8, usize)>
    ensures { result ≡ part_of bytes.now }
{
    match bytes {
        [byte, ..] if is_plain(*byte) => Some((*byte, 1)),
        [b'\\', byte, ..] => escape_of(*byte).map(|meant| (meant, 2)),
        _ => None,
    }
}

/// The longest front that may stand in a quote: the bytes that it stands for, and what is after it.
#[derive(Drop)]
pub struct Inner<'a> {
    pub text: Vec<u8>,
    pub rest: &'a [u8],
}

pub fn scan<'a>(alloc: Global, bytes: &'a [u8]) -> Result<Inner<'a>, Memory>
    ensures text { IfOk result (λ s. s.text.items ≡ (scan bytes.now).text) }
    ensures rest { IfOk result (λ s. s.rest.now ≡ (scan bytes.now).rest) }
    ensures within { IfOk result (λ s. length s.rest.now ≤ length bytes.now) }
{
    let mut text = Vec::new(alloc);
    let mut rest = bytes;
    while let Some((byte, len)) = part(rest) {
        text.push(byte)?;
        rest = &rest[len..];
    }
    Ok(Inner { text, rest })
}
