// The numbers that digits stand for.
ghost use Rattle.std.specs.Prelude.{◌≡◌};
ghost use Rattle.vale_lexer.specs.Next.{number_of};

const INT_MAX: u128 = 9_223_372_036_854_775_807;

/// The number of the digits, where it is an int.
pub fn number_of(digits: &[u8]) -> Option<i64>
    ensures { result ≡ number_of digits.now }
{
    let mut value = 0u128;
    for digit in digits {
        value = 10 * value + u128::from(digit.saturating_sub(b'0'));
        if value > INT_MAX {
            return None;
        }
    }
    Some(value as i64)
}
