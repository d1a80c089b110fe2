// The token of the root or of one worker.
ghost use Rattle.std.specs.Prelude.{◌≡◌, ◌<◌, ℕ, true, []};
ghost use Rattle.vale_table.specs.Marks.{mark};
ghost use Rattle.vale_table.specs.Seats.{IsResting};

use crate::view::View;
use vale_page::Page;

pub(crate) type Token<B> = atomic_table::Seat<Option<Page<B>>, View>;

/// The token with which the root or one worker draws from a shared table. It has a hand, the frames that it claimed, and
/// it knows some frames to be out. Between two calls it has no slot of the table.
#[derive(Drop)]
pub struct Seat<B> {
    pub(crate) token: Token<B>,
    // Each frame below it is known to be out, so that a claim goes on there.
    pub(crate) next: u32,
    ghost empty: { token.me.1 ≡ [] },
    ghost passed: { (f : ℕ) → f < next → (mark token.me.0 f).is_out ≡ true },
    ghost rests: { IsResting token.table_id.slots token.me.0 },
}
