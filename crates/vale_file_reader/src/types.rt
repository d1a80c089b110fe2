//! Signed numbers, truths, kinds, spots and types, from a file.

ghost use Rattle.std.specs.Prelude.{◌≡◌};
ghost use Rattle.vale_codec.specs.Format.{Gives};
ghost use Rattle.vale_file_spec.specs.Types.{signed, truth, kind_number, spot, ty};

use vale_base::{Fail, Kind, Spot};
use vale_code::Ty;
use vale_codec::{Fault, read_choice, read_number, read_word};

/// A signed number.
pub fn read_signed(bytes: &[u8]) -> Result<(i64, &[u8]), Fail<Fault>>
    ensures { Gives (λ x. (x.0, x.1.now)) result (signed.read bytes.now) }
{
    let (number, rest) = read_number(bytes, u64::MAX)?;
    let half = (number / 2) as i64;
    let signed = if number % 2 == 0 { half } else { -half - 1 };
    Ok((signed, rest))
}

/// A truth.
pub fn read_truth(bytes: &[u8]) -> Result<(bool, &[u8]), Fail<Fault>>
    ensures { Gives (λ x. (x.0, x.1.now)) result (truth.read bytes.now) }
{
    let (number, rest) = read_choice(bytes, 1)?;
    Ok((number == 1, rest))
}

/// The number of a kind.
pub fn read_kind_number(bytes: &[u8]) -> Result<(Kind, &[u8]), Fail<Fault>>
    ensures { Gives (λ x. (x.0, x.1.now)) result (kind_number.read bytes.now) }
{
    let (number, rest) = read_word(bytes)?;
    Ok((Kind(number), rest))
}

/// A spot.
pub fn read_spot(bytes: &[u8]) -> Result<(Spot, &[u8]), Fail<Fault>>
    ensures { Gives (λ x. (x.0, x.1.now)) result (spot.read bytes.now) }
{
    let (line, rest) = read_word(bytes)?;
    let (col, rest) = read_word(rest)?;
    Ok((Spot { line, col }, rest))
}

/// A type.
#[tactic(auto, unfolding(vale_file_spec::specs::Types::ty))]
pub fn read_ty(bytes: &[u8]) -> Result<(Ty, &[u8]), Fail<Fault>>
    ensures { Gives (λ x. (x.0, x.1.now)) result (ty.read bytes.now) }
{
    let (tag, rest) = read_choice(bytes, 7)?;
    match tag {
        0 => Ok((Ty::Void, rest)),
        1 => Ok((Ty::Int, rest)),
        2 => Ok((Ty::Truth, rest)),
        3 => Ok((Ty::Text, rest)),
        _ => {
            let (number, rest) = read_word(rest)?;
            let kind = Kind(number);
            let ty = match tag {
                4 => Ty::Own(kind),
                5 => Ty::Ref(kind),
                6 => Ty::Frozen(kind),
                _ => Ty::Iso(kind),
            };
            Ok((ty, rest))
        }
    }
}
