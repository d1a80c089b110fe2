// The first fault of a part, and what is answered by it.
ghost use Rattle.std.specs.Prelude.{◌≡◌};
ghost use Rattle.std.specs.Option.{option_or};
ghost use Rattle.vale_region_spec.specs.Found.{found_at, verdict};

use vale_base::Spot;
use vale_syntax::Fault;

/// The fault of a node by itself, which stands here and breaks the rule of this code.
pub fn found_at(at: Spot, code: Option<u8>) -> Option<Fault>
    ensures { result ≡ found_at at code }
{
    match code {
        Some(code) => Some(Fault { code, at }),
        None => None,
    }
}

/// The first fault of two parts, one after the other.
pub fn earlier(first: Option<Fault>, second: Option<Fault>) -> Option<Fault>
    ensures { result ≡ option_or first second }
{
    match first {
        Some(fault) => Some(fault),
        None => second,
    }
}

/// What a phase answers, where this is the first fault.
pub fn verdict(fault: Option<Fault>) -> Result<(), Fault>
    ensures { result ≡ verdict fault }
{
    match fault {
        Some(fault) => Err(fault),
        None => Ok(()),
    }
}
