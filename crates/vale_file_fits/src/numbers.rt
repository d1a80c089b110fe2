//! Numbers, spots and kinds: that each is within the range of its type is known to whoever reads it.

ghost use Rattle.std.specs.Prelude.{◌≡◌, true, length};
ghost use Rattle.std.specs.List.{AllByRecursion};
ghost use Rattle.vale_code.specs.Sizes.{is_few};
ghost use Rattle.vale_file_spec.specs.Instructions.{words};
ghost use Rattle.vale_file_spec.specs.Types.{word, signed, folded, kind_number, spot};

use vale_base::{Kind, Spot};
use vale_code::Sequence;

pub fn word_fits(number: u32)
    ensures { word.Fits number }
{}

// The number that a signed number is written as.
fn folded(number: i64) -> u64
    ensures { result ≡ folded number }
{
    if number >= 0 {
        2 * (number as u64)
    } else {
        2 * ((-(number + 1)) as u64) + 1
    }
}

#[tactic(auto, using(crate::proofs::PartFits::signed_fits))]
pub fn signed_fits(number: i64)
    ensures { signed.Fits number }
{
    let _folded = folded(number);
}

#[tactic(auto, using(crate::proofs::PartFits::kind_number_fits))]
pub fn kind_number_fits(kind: Kind)
    ensures { kind_number.Fits kind }
{
    let _number = kind.0;
}

#[tactic(auto, using(crate::proofs::PartFits::spot_fits))]
pub fn spot_fits(at: Spot)
    ensures { spot.Fits at }
{
    let _line = at.line;
    let _col = at.col;
}

fn each_word_fits(numbers: &[u32])
    ensures { AllByRecursion word.Fits numbers.now }
{}

#[tactic(auto, using(crate::proofs::PartFits::words_fit))]
pub fn words_fit(numbers: &Sequence<u32>)
    ensures { is_few (length numbers.now) ≡ true → words.Fits numbers.now }
{
    each_word_fits(numbers.as_slice());
}
