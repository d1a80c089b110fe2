// The rule of the table, and the names of its steps.
ghost use Rattle.vale_table.specs.Steps.{looked, tried, put_home, fetched, gave, told};
ghost use Rattle.vale_table.specs.Marks.{root_left, worker_right, both_views, spent_view};

use crate::view::View;
use atomic_table::{Join, Play, Split, TableRule};
use vale_page::Page;

/// How many frames there are, and the base at which each begins.
#[derive(Clone, Copy)]
pub struct Opening {
    pub frames: u32,
    pub first: u64,
}

/// The rule that holds between any two steps.
pub struct FrameRule;

impl<B> TableRule<Option<Page<B>>, View, Opening> for FrameRule {
    ghost use Rattle.vale_table.specs.Rule.{Keeps};
    ghost use Rattle.vale_table.specs.Marks.{root_view};

    ghost holds = { λ key. Keeps key.frames key.first };

    ghost first = { λ key. root_view key.frames key.first };
}

// A load of a frame's word.
pub(crate) struct Look;

impl<B> Play<Option<Page<B>>, View> for Look {
    ghost then = { looked };
}

// An exchange of a frame's base for 0.
pub(crate) struct Claim;

impl<B> Play<Option<Page<B>>, View> for Claim {
    ghost then = { tried };
}

// An own frame's slot goes home.
pub(crate) struct PutHome;

impl<B> Play<Option<Page<B>>, View> for PutHome {
    ghost then = { put_home };
}

// An own frame's empty slot comes into the hand.
pub(crate) struct Fetch;

impl<B> Play<Option<Page<B>>, View> for Fetch {
    ghost then = { fetched };
}

// An own frame goes home, with the page in its slot.
pub(crate) struct Give;

impl<B> Play<Option<Page<B>>, View> for Give {
    ghost then = { gave };
}

// A load that tells what the rule says of the seat's own view.
pub(crate) struct Tell;

impl<B> Play<Option<Page<B>>, View> for Tell {
    ghost then = { told };
}

// A worker is cut off from the root, or taken in again.
pub(crate) struct Cut;

impl Split<View> for Cut {
    ghost left = { root_left };

    ghost right = { worker_right };
}

impl Join<View> for Cut {
    ghost both = { both_views };

    ghost spent = { spent_view };
}
