//! Numbers in texts.

ghost use Rattle.std.specs.Prelude.{◌≡◌, ◌≤◌, ◌^◌, IfOk, IsTrue, SomeIff, pos};
ghost use Rattle.std.specs.Str.Parse.{digits_value};
ghost use Rattle.vale_text.specs.Operations.{are_digits, number, is_number, text_of};

use itoa::Buffer;
use std::alloc::Global;
use vale_base::{Memory, Text, TrapKind};

// The size of the least int, the greatest of all.
const SIZE_LIMIT: u128 = 9_223_372_036_854_775_808;

// The number that the digits write, where they are some and it is the size of an int.
fn size(digits: &[u8]) -> Option<i128>
    ensures { SomeIff result (IsTrue (are_digits digits.now) × (digits_value 10 digits.now ≤ 2 ^ 63)) (pos (digits_value 10 digits.now)) }
{
    if digits.is_empty() {
        return None;
    }
    let mut size = 0u128;
    for digit in digits {
        if !digit.is_ascii_digit() {
            return None;
        }
        size = 10 * size + u128::from(digit - b'0');
        if size > SIZE_LIMIT {
            return None;
        }
    }
    Some(size as i128)
}

/// The number that s writes: an optional `-` and one or more digits; `NotANumber` exactly where it writes none, or none
/// within the range of int.
pub fn number(s: &Text) -> Result<i64, TrapKind>
    ensures { result ≡ number s.now }
{
    let number = match s.as_slice() {
        [b'-', digits @ ..] => size(digits).map(|size| -size),
        digits => size(digits),
    };
    match number {
        Some(number) => i64::try_from(number).map_err(|_| TrapKind::NotANumber),
        None => Err(TrapKind::NotANumber),
    }
}

/// Whether s writes a number (`number`).
pub fn is_number(s: &Text) -> bool
    ensures { result ≡ is_number s.now }
{
    number(s).is_ok()
}

/// The decimal digits of n, after a `-` where it is negative.
pub fn text_of(alloc: Global, n: i64) -> Result<Text, Memory>
    ensures { IfOk result (λ t. t ≡ text_of n) }
{
    let mut digits = Buffer::new();
    Text::from_slice(alloc, digits.format(n).as_bytes())
}
