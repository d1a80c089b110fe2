// What a text is refused with.
ghost use Rattle.std.specs.Prelude.{◌≡◌};

use thiserror::Error;
use vale_base::Spot;
use vale_syntax::Fault;

/// Why a text is no program: the code of a rule, from 1 to 51, and where it is broken (docs/LANGUAGE.md, "Refusals").
#[derive(Clone, Copy, Debug, Drop, PartialEq, Eq, Error)]
#[error("E{code:02} at {line}:{col}", line = .at.line, col = .at.col)]
pub struct Refusal {
    pub code: u8,
    pub at: Spot,
}

impl Refusal {
    /// What a phase found.
    pub fn of(fault: Fault) -> Self
        ensures code { result.code ≡ fault.code }
        ensures at { result.at ≡ fault.at }
    {
        Refusal {
            code: fault.code,
            at: fault.at,
        }
    }
}
