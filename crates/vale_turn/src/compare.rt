// Comparisons of numbers and truths.
ghost use Rattle.std.specs.Prelude.{◌≡◌, Bool, Some};
ghost use Rattle.vale_state_spec.specs.World.{Int as an_int, Truth as a_truth};
ghost use Rattle.vale_code.specs.Instructions.{comparison_of};
ghost use Rattle.vale_turn.specs.Comparing.{compared};

/// Whether a comparison holds of two that are ordered so.
#[inline(always)]
pub fn ordered(choice: u8, left: i64, right: i64) -> bool
    requires { (b : Bool) × (compared (comparison_of choice) (Some (an_int left)) (Some (an_int right)) ≡ Some b) }
    ensures { compared (comparison_of choice) (Some (an_int left)) (Some (an_int right)) ≡ Some result }
{
    match choice {
        0 => left == right,
        1 => left != right,
        2 => left < right,
        3 => left <= right,
        4 => left > right,
        5 => left >= right,
        _ => unreachable!(),
    }
}

/// Whether a comparison holds of two truths.
#[inline(always)]
pub fn matched(choice: u8, left: bool, right: bool) -> bool
    requires { (b : Bool) × (compared (comparison_of choice) (Some (a_truth left)) (Some (a_truth right)) ≡ Some b) }
    ensures { compared (comparison_of choice) (Some (a_truth left)) (Some (a_truth right)) ≡ Some result }
{
    match choice {
        0 => left == right,
        1 => left != right,
        _ => unreachable!(),
    }
}
