// The interface of what lends pages.
ghost use Rattle.std.specs.Prelude.{◌≡◌, ℕ, Bool, Option, IfNone, IfSome};
ghost use Rattle.vale_table.specs.Lending.{Post, IsAlone, IsSoundHand, Same, StillOut, FoundNone, IsClaimed, CanGive, IsGiven};

use vale_page::Page;

/// What lends empty pages, one for each frame that is free. Neither `claim` nor `give` takes memory.
pub trait Lender<B> {
    /// How many frames there are, free and out. They are numbered from 0.
    ghost frames: { Self → ℕ };

    /// The frames that were claimed here and not given back, each with the base at which it was claimed.
    ghost hand: { Self → ℕ → Option ℕ };

    /// Whether a frame is known to be out. One that isn't may be out all the same, where others claim too.
    ghost out: { Self → ℕ → Bool };

    /// No generation of a frame that is free will be below its floor when the frame is claimed.
    ghost floors: { Self → ℕ → ℕ };

    /// At which table it lends, and who else may.
    ghost post: { Self → Post };

    /// How many frames there are, free and out.
    fn frames(&self) -> u32
        ensures { result ≡ frames self.now };

    /// Claims a free frame, and answers its page: empty, and each generation the base of the frame. `None` comes only
    /// where every frame is out.
    fn claim(&mut self) -> Option<Page<B>>
        ensures none { IfNone result (FoundNone (frames self.old) (hand self.old) (hand self.new) (out self.new)) }
        ensures some { IfSome result (IsClaimed (frames self.old) (hand self.old) (hand self.new) (out self.old) (out self.new) (floors self.old)) }
        ensures known { StillOut (out self.old) (out self.new) }
        ensures floors { Same (floors self.old) (floors self.new) }
        ensures frames { frames self.new ≡ frames self.old }
        ensures post { post self.new ≡ post self.old };

    /// Takes an empty page home. Its frame is free from then on, at the greatest generation of the page.
    fn give(&mut self, page: Page<B>)
        requires alone { IsAlone (post self.old) }
        requires can { CanGive (hand self.old) page }
        ensures given { IsGiven (hand self.old) (hand self.new) (out self.old) (out self.new) (floors self.old) (floors self.new) page }
        ensures frames { frames self.new ≡ frames self.old }
        ensures post { post self.new ≡ post self.old };

    /// Each frame of the hand is known to be out, and was claimed at no less than its floor.
    ghost held: { (l : Self) → IsSoundHand (frames l) (hand l) (out l) (floors l) };
}
