// The table of one thread.
ghost use Rattle.std.specs.Prelude.{◌≡◌, ℕ, ◌<◌, ◌≤◌, length, None, IfOk, IsSome, slice_index_or};
ghost use Rattle.std.specs.Mem.{type_size};
ghost use Rattle.vale_table.specs.Lending.{IsAlone, CanGive, IsGiven, own_post};
ghost use Rattle.vale_table.specs.Plain.{frames_of, out_of, floor_of, hand_of, OpensAt, sound_hand};

use crate::lender::Lender;
use std::alloc::Global;
use std::marker::Model;
use vale_base::Memory;
use vale_page::Page;

/// A table of pages for one thread. Contracts see whether each frame is out, and its base: the generation of all its slots
/// while it is free, and that at which it was claimed while it is out.
#[derive(Drop)]
pub struct PlainTable<B> {
    pages: Vec<Option<Page<B>>>,
    bases: Vec<u64>,
    // No frame before this one is at home.
    next: usize,
}

impl<B> Model for PlainTable<B> {
    ghost use Rattle.std.specs.Prelude.{map, is_none};
    ghost use Rattle.vale_table.specs.Plain.{Plain, plain_code, IsTable};

    ghost Value = { Plain };

    ghost coded = { plain_code };

    ghost view = { λ t. record { out = map is_none t.pages.items; bases = t.bases.items } };

    ghost invariant = { λ t. IsTable t.pages.items t.bases.items t.next };
}

// The first frame from `from` on that is at home, or how many there are.
fn first_home<B>(pages: &[Option<Page<B>>], from: usize) -> usize
    requires { from ≤ length pages.now }
    ensures within { result ≤ length pages.now }
    ensures passed { (frame : ℕ) → from ≤ frame → frame < result → slice_index_or pages.now frame None ≡ None }
    ensures home { result < length pages.now → IsSome (slice_index_or pages.now result None) }
{
    for frame in from..pages.len() {
        if pages[frame].is_some() {
            return frame;
        }
    }
    pages.len()
}

impl<B: Drop> PlainTable<B> {
    /// A table whose frames are all free, at the base `first`.
    pub fn open(alloc: Global, frames: u32, first: u64) -> Result<PlainTable<B>, Memory>
        requires { 0 < type_size B.row }
        ensures { IfOk result (λ table. OpensAt table frames first) }
    {
        let mut pages = Vec::with_capacity(alloc, frames as usize)?;
        for page in Page::batch(alloc, frames, first)? {
            pages.push(Some(page))?;
        }
        Ok(PlainTable {
            pages,
            bases: vec![in alloc; first; frames as usize]?,
            next: 0,
        })
    }
}

impl<B: Drop> Lender<B> for PlainTable<B> {
    ghost frames = { frames_of };

    ghost hand = { hand_of };

    ghost out = { out_of };

    ghost floors = { floor_of };

    ghost post = { λ _. own_post };

    ghost held = { sound_hand };

    fn frames(&self) -> u32 {
        self.pages.len() as u32
    }

    fn claim(&mut self) -> Option<Page<B>> {
        let frame = first_home(&self.pages, self.next);
        if frame == self.pages.len() {
            self.next = frame;
            return None;
        }
        self.next = frame + 1;
        self.pages[frame].take()
    }

    fn give(&mut self, page: Page<B>)
        requires alone { IsAlone own_post }
        requires can { CanGive (hand_of self.old) page }
        ensures given { IsGiven (hand_of self.old) (hand_of self.new) (out_of self.old) (out_of self.new) (floor_of self.old) (floor_of self.new) page }
        ensures frames { frames_of self.new ≡ frames_of self.old }
        ensures post { own_post ≡ own_post }
    {
        let mut page = page;
        let frame = page.frame() as usize;
        let base = page.base();
        page.reset(base);
        self.pages[frame] = Some(page);
        self.bases[frame] = base;
        self.next = self.next.min(frame);
    }
}
