//! Texts.

ghost use Rattle.std.specs.Prelude.{◌≡◌};
ghost use Rattle.vale_text.specs.Gives.{Gives};
ghost use Rattle.vale_text.specs.Operations.{join, slice, byte};

use std::alloc::Global;
use vale_base::{Fail, TEXT_LIMIT, Text, TrapKind};

/// Both texts, one after the other; `TextTooLong` exactly where they have more than 65,536 bytes together.
pub fn join(alloc: Global, s: &Text, t: &Text) -> Result<Text, Fail<TrapKind>>
    ensures { Gives result (join s.now t.now) }
{
    if s.len() > TEXT_LIMIT || t.len() > TEXT_LIMIT - s.len() {
        return Err(Fail::Is(TrapKind::TextTooLong));
    }
    let mut bytes = Vec::with_capacity(alloc, s.len() + t.len())?;
    bytes.extend_from_slice(s.as_slice())?;
    bytes.extend_from_slice(t.as_slice())?;
    Ok(Text::from_vec(bytes))
}

/// The bytes of s from a to b - 1; `IndexOutOfRange` exactly unless 0 <= a <= b <= the length of s.
pub fn slice(alloc: Global, s: &Text, a: i64, b: i64) -> Result<Text, Fail<TrapKind>>
    ensures { Gives result (slice s.now a b) }
{
    if a < 0 || b < a || b as u64 > s.len() as u64 {
        return Err(Fail::Is(TrapKind::IndexOutOfRange));
    }
    Ok(Text::from_slice(alloc, &s.as_slice()[a as usize..b as usize])?)
}

/// The byte of s at i, from 0 to 255; `IndexOutOfRange` exactly unless 0 <= i < the length of s.
pub fn byte(s: &Text, i: i64) -> Result<i64, TrapKind>
    ensures { result ≡ byte s.now i }
{
    if i < 0 || i as u64 >= s.len() as u64 {
        return Err(TrapKind::IndexOutOfRange);
    }
    Ok(i64::from(s.as_slice()[i as usize]))
}
