//! Numbers in base 128.

ghost use Rattle.std.specs.Prelude.{◌≡◌, ◌<◌, ◌≤◌, ◌++◌, ℕ, length, get_or, IfSome, IfNone, IfOk, OnOk};
ghost use Rattle.vale_codec.specs.Format.{Gives};
ghost use Rattle.vale_codec.specs.Numbers.{number_read, spell, largest_word};

use crate::{Fault, Reason};
use vale_base::{Fail, Memory};

// The place of the first byte that ends a number.
fn end_of_number(bytes: &[u8]) -> Option<usize>
    ensures some { IfSome result (λ n. (n < length bytes.now) × (get_or bytes.now n 0 < 128) × ((k : ℕ) → k < n → 128 ≤ get_or bytes.now k 0)) }
    ensures none { IfNone result ((k : ℕ) → k < length bytes.now → 128 ≤ get_or bytes.now k 0) }
{
    let mut end = 0;
    for b in bytes {
        if *b < 128 {
            return Some(end);
        }
        end += 1;
    }
    None
}

/// A number up to the limit at the front, and the bytes after it.
pub fn read_number(bytes: &[u8], limit: u64) -> Result<(u64, &[u8]), Fail<Fault>>
    ensures given { Gives (λ x. (x.0, x.1.now)) result (number_read limit bytes.now) }
    ensures within { IfOk result (λ x. x.0 ≤ limit) }
{
    let wrong = Fault {
        reason: Reason::Number,
        left: bytes.len(),
    };
    let Some(end) = end_of_number(bytes) else {
        return Err(Fail::Is(Fault {
            reason: Reason::Ends,
            left: 0,
        }));
    };
    let mut worth = u64::from(bytes[end]);
    let mut place = end;
    while place > 0 {
        place -= 1;
        if worth == 0 || worth > limit / 128 {
            return Err(Fail::Is(wrong));
        }
        let high = 128 * worth;
        let low = u64::from(bytes[place] - 128);
        if low > limit - high {
            return Err(Fail::Is(wrong));
        }
        worth = low + high;
    }
    if worth > limit {
        return Err(Fail::Is(wrong));
    }
    let (_, rest) = bytes.split_at(end + 1);
    Ok((worth, rest))
}

/// A number below 2^32.
pub fn read_word(bytes: &[u8]) -> Result<(u32, &[u8]), Fail<Fault>>
    ensures { Gives (λ x. (x.0, x.1.now)) result (number_read largest_word bytes.now) }
{
    let (number, rest) = read_number(bytes, 4_294_967_295)?;
    Ok((number as u32, rest))
}

/// A number up to a limit below 256.
pub fn read_choice(bytes: &[u8], limit: u8) -> Result<(u8, &[u8]), Fail<Fault>>
    ensures given { Gives (λ x. (x.0, x.1.now)) result (number_read limit bytes.now) }
    ensures within { IfOk result (λ x. x.0 ≤ limit) }
{
    let (number, rest) = read_number(bytes, u64::from(limit))?;
    Ok((number as u8, rest))
}

/// A number.
pub fn write_number(out: &mut Vec<u8>, number: u64) -> Result<(), Memory>
    ensures { OnOk result (out.new.items ≡ out.old.items ++ spell number) }
{
    let mut rest = number;
    while rest >= 128 {
        out.push((rest % 128) as u8 + 128)?;
        rest /= 128;
    }
    out.push(rest as u8)?;
    Ok(())
}

/// A number below 2^32.
pub fn write_word(out: &mut Vec<u8>, number: u32) -> Result<(), Memory>
    ensures { OnOk result (out.new.items ≡ out.old.items ++ spell number) }
{
    write_number(out, u64::from(number))
}
