//! Numbers.

ghost use Rattle.std.specs.Prelude.{◌≡◌};
ghost use Rattle.vale_text.specs.Operations.{add, sub, mul, div, rem};

use vale_base::TrapKind;

/// `a + b`; `Overflow` exactly where the sum is no int.
pub fn add(a: i64, b: i64) -> Result<i64, TrapKind>
    ensures { result ≡ add a b }
{
    a.checked_add(b).ok_or(TrapKind::Overflow)
}

/// `a - b`; `Overflow` exactly where the difference is no int.
pub fn sub(a: i64, b: i64) -> Result<i64, TrapKind>
    ensures { result ≡ sub a b }
{
    a.checked_sub(b).ok_or(TrapKind::Overflow)
}

/// `a * b`; `Overflow` exactly where the product is no int.
pub fn mul(a: i64, b: i64) -> Result<i64, TrapKind>
    ensures { result ≡ mul a b }
{
    a.checked_mul(b).ok_or(TrapKind::Overflow)
}

/// `a / b`, towards zero; `DivisionByZero` exactly where b is 0, `Overflow` exactly for the least int and -1.
pub fn div(a: i64, b: i64) -> Result<i64, TrapKind>
    ensures { result ≡ div a b }
{
    if b == 0 {
        return Err(TrapKind::DivisionByZero);
    }
    a.checked_div(b).ok_or(TrapKind::Overflow)
}

/// `a % b`, with the sign of a; `DivisionByZero` exactly where b is 0, `Overflow` exactly for the least int and -1.
pub fn rem(a: i64, b: i64) -> Result<i64, TrapKind>
    ensures { result ≡ rem a b }
{
    if b == 0 {
        return Err(TrapKind::DivisionByZero);
    }
    a.checked_rem(b).ok_or(TrapKind::Overflow)
}
