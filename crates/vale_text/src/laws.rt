//! What the operations have to do with one another: laws of their definitions, each the contract of a function that
//! does nothing.

ghost use Rattle.std.specs.Prelude.{◌≡◌, ◌↔◌, ◌⊎◌, ◌<◌, ℕ, List, ℤ, ◌+ℤ◌, ◌*ℤ◌, pos, int_lt, unsigned_abs, length, Ok, Err};
ghost use Rattle.vale_base.specs.declared.trap.TrapKind.{TrapKind};
ghost use Rattle.vale_text.specs.Operations.{div, rem, join, slice, number, text_of};

use vale_base::Text;

/// What is written of an int is read as this int.
pub fn written_is_read(n: i64)
    ensures { number (text_of n) ≡ Ok n }
{}

/// Quotient and remainder make up the dividend; the remainder is smaller in size than the divisor, and is 0 or has the
/// dividend's sign. Where one of both is a trap, the other is the same.
pub fn division_is_whole(x: i64, y: i64)
    ensures parts { (q r : ℤ) → div x y ≡ Ok q → rem x y ≡ Ok r → x ≡ q *ℤ y +ℤ r }
    ensures small { (r : ℤ) → rem x y ≡ Ok r → unsigned_abs r < unsigned_abs y }
    ensures sign { (r : ℤ) → rem x y ≡ Ok r → (r ≡ pos 0) ⊎ (int_lt r (pos 0) ≡ int_lt x (pos 0)) }
    ensures traps { (kind : TrapKind) → (div x y ≡ Err kind) ↔ (rem x y ≡ Err kind) }
{}

/// A joined text is cut into the two that it was made of.
pub fn joined_is_cut(s: &Text, t: &Text)
    ensures first { (text : List ℕ) → join s.now t.now ≡ Ok text → slice text (pos 0) (pos (length s.now)) ≡ Ok s.now }
    ensures second { (text : List ℕ) → join s.now t.now ≡ Ok text
        → slice text (pos (length s.now)) (pos (length text)) ≡ Ok t.now }
{}
