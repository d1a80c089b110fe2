ghost use Rattle.std.specs.Prelude.{◌≡◌};
ghost use Rattle.vale_base.specs.declared.fault.Fail.TheVariants.{Is};

use vale_base::{Fail, Spot};

/// Why a program is refused, and where: the code of the rule that is broken (docs/LANGUAGE.md, "Refusals"), and the spot
/// of the node that breaks it.
#[derive(Clone, Copy, Debug, PartialEq, Eq)]
pub struct Fault {
    pub code: u8,
    pub at: Spot,
}

impl From<Fault> for Fail<Fault> {
    ghost from_gives = { λ fault fail. fail ≡ Is fault };

    fn from(fault: Fault) -> Self {
        Fail::Is(fault)
    }
}
