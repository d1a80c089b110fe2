ghost use Rattle.std.specs.Prelude.{◌≡◌};
ghost use Rattle.vale_turn.specs.View.{is_going};

use vale_base::{Spot, TrapKind};

/// What an instruction comes to within its function: the function goes on; the instruction at the place is done aside from
/// its cells, enters another function, or leaves this one, with the value of a register or with none; a trap; or no tick is
/// left.
#[derive(Clone, Copy)]
pub enum Stop {
    Going,
    Aside,
    Enters,
    Leaves(Option<u32>),
    Trap(TrapKind, Spot),
    Cut,
}

impl Stop {
    /// Whether the function goes on.
    pub fn is_going(&self) -> bool
        ensures { result ≡ is_going self.now }
    {
        match self {
            Stop::Going => true,
            _ => false,
        }
    }
}
