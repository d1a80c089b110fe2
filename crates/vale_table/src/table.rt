// The table that all workers of a run draw from.
ghost use Rattle.std.specs.Prelude.{◌≡◌, ◌≢◌, ◌<◌, ◌≤◌, ◌+◌, [], ◌∷◌, IfOk, MatchOption, false, ℕ, None, true};
ghost use Rattle.std.specs.Mem.{type_size};
ghost use Rattle.vale_page.specs.PageState.{IsBlankAt};
ghost use Rattle.vale_table.specs.Lending.{IsAlone, CanGive};
ghost use Rattle.vale_table.specs.Marks.{mark, knows_out, saw, given_at};
ghost use Rattle.vale_table.specs.Steps.{IsSane};
ghost use Rattle.vale_table.specs.Seats.{IsMarked, held_at, IsLearned, IsLent, IsBack, IsSplit, IsJoined, IsOpened};
ghost use Rattle.vale_table.specs.declared.view.Role.TheVariants.{Root, Spent};

use crate::rule::{Claim, Cut, Fetch, FrameRule, Give, Look, Opening, PutHome, Tell};
use crate::seat::{Seat, Token};
use crate::view::View;
use atomic_table::{Refused, Table};
use std::alloc::Global;
use vale_base::Memory;
use vale_page::Page;

/// A table of pages that one root and its workers claim from at once. Each frame has one word, 0 while the frame is out and
/// else its base, and one slot, which has the frame's page while the frame is free. Every step is sequentially consistent.
#[derive(Drop)]
pub struct SharedTable<B> {
    table: Table<Option<Page<B>>, View, Opening, FrameRule, Global>,
    frames: u32,
    ghost words: { table.shared.table_id.words ≡ frames },
    ghost slots: { table.shared.table_id.slots ≡ frames },
    ghost key: { table.shared.key.frames ≡ frames },
    ghost positive: { 0 < frames },
}

impl<B> SharedTable<B> {
    ghost use Rattle.vale_table.specs.Means.{IsAt, frames_of, seat_means};

    /// How many frames there are, free and out.
    pub fn frames(&self) -> u32
        ensures { result ≡ frames_of self.now }
    {
        self.frames
    }

    // The base at which the frame is free, or 0 where it is out.
    fn look(&self, token: &mut Token<B>, frame: u32) -> u64
        requires table { token.old.table_id ≡ self.now.table.shared.table_id }
        requires frame { frame < self.now.frames }
        requires alive { token.old.me.0.role ≢ Spent }
        ensures table { token.new.table_id ≡ token.old.table_id }
        ensures seat { token.new.id ≡ token.old.id }
        ensures slots { token.new.me.1 ≡ token.old.me.1 }
        ensures out { result ≡ 0 → IsMarked token.old.me.0 frame (knows_out (mark token.old.me.0 frame)) token.new.me.0 }
        ensures seen { result ≢ 0 → IsMarked token.old.me.0 frame (saw result (mark token.old.me.0 frame)) token.new.me.0 }
    {
        self.table.shared.load::<Look>(token, frame as usize)
    }

    // The page of a frame that was seen free at this base, or `None` where another seat took it meanwhile.
    fn win(&self, token: &mut Token<B>, frame: u32, base: u64) -> Option<Page<B>>
        requires table { token.old.table_id ≡ self.now.table.shared.table_id }
        requires slots { token.old.me.1 ≡ [] }
        requires frame { frame < self.now.frames }
        requires base { 0 < base }
        requires alive { token.old.me.0.role ≢ Spent }
        requires seen { (mark token.old.me.0 frame).seen ≡ base }
        ensures table { token.new.table_id ≡ token.old.table_id }
        ensures seat { token.new.id ≡ token.old.id }
        ensures slots { token.new.me.1 ≡ [] }
        ensures page { MatchOption result
            (IsMarked token.old.me.0 frame (knows_out (mark token.old.me.0 frame)) token.new.me.0)
            (λ p. IsBlankAt p frame base × IsMarked token.old.me.0 frame (held_at base (mark token.old.me.0 frame)) token.new.me.0
            × ((mark token.old.me.0 frame).floor ≤ base) × ((mark token.old.me.0 frame).is_out ≡ false) × ((mark token.old.me.0 frame).bases ≡ [])) }
    {
        let shared = &self.table.shared;
        let word = frame as usize;
        if shared.compare_exchange::<Claim>(token, word, base, 0) != base {
            return None;
        }
        let page = shared.exchange(token, word, None);
        shared.load::<PutHome>(token, word);
        page
    }

    // Puts the frame's page into its slot. The frame is then free at the base.
    fn give_home(&self, token: &mut Token<B>, frame: u32, base: u64, page: Page<B>)
        requires table { token.old.table_id ≡ self.now.table.shared.table_id }
        requires slots { token.old.me.1 ≡ [] }
        requires frame { frame < self.now.frames }
        requires base { 0 < base }
        requires page { IsBlankAt page frame base }
        requires root { token.old.me.0.role ≡ Root }
        requires no_worker { token.old.me.0.workers ≡ 0 }
        requires held { (b : ℕ) × ((mark token.old.me.0 frame).bases ≡ b ∷ []) × (b ≤ base) }
        requires home { (mark token.old.me.0 frame).carried ≡ false }
        ensures table { token.new.table_id ≡ token.old.table_id }
        ensures seat { token.new.id ≡ token.old.id }
        ensures slots { token.new.me.1 ≡ [] }
        ensures view { IsMarked token.old.me.0 frame (given_at base) token.new.me.0 }
    {
        let shared = &self.table.shared;
        let word = frame as usize;
        shared.load::<Fetch>(token, word);
        let before = shared.exchange(token, word, Some(page));
        let None = before else { unreachable!() };
        shared.swap::<Give>(token, word, base);
    }

    // What the rule says of the seat's own view.
    fn tell(&self, token: &mut Token<B>)
        requires { token.old.table_id ≡ self.now.table.shared.table_id }
        ensures table { token.new.table_id ≡ token.old.table_id }
        ensures seat { token.new.id ≡ token.old.id }
        ensures same { token.new.me ≡ token.old.me }
        ensures sane { (f : ℕ) → f < self.now.frames → IsSane (mark token.old.me.0 f) }
    {
        self.table.shared.load::<Tell>(token, 0);
    }

    // The page of the next frame, where it is free. The seat goes on to the frame after it.
    pub(crate) fn try_next(&self, seat: &mut Seat<B>) -> Option<Page<B>>
        requires table { IsAt seat.old self.now }
        requires next { seat.old.next < frames_of self.now }
        ensures table { IsAt seat.new self.now }
        ensures next { seat.new.next ≡ seat.old.next + 1 }
        ensures page { MatchOption result (IsLearned (seat_means seat.old) (seat_means seat.new)) (IsLent (seat_means seat.old) (seat_means seat.new)) }
    {
        let frame = seat.next;
        let base = self.look(&mut seat.token, frame);
        seat.next = frame + 1;
        if base == 0 {
            return None;
        }
        self.win(&mut seat.token, frame, base)
    }

    // The root gives a page of its hand home.
    pub(crate) fn take_back(&self, seat: &mut Seat<B>, mut page: Page<B>)
        requires table { IsAt seat.old self.now }
        requires alone { IsAlone (seat_means seat.old).post }
        requires can { CanGive (seat_means seat.old).hand page }
        ensures table { IsAt seat.new self.now }
        ensures back { IsBack (seat_means seat.old) (seat_means seat.new) page }
    {
        let frame = page.frame();
        let base = page.base();
        page.reset(base);
        seat.next = seat.next.min(frame);
        self.give_home(&mut seat.token, frame, base, page);
    }

    /// A seat for a worker. The seat that is handed in is the root's. It takes no memory.
    pub fn split(&self, seat: &mut Seat<B>) -> Seat<B>
        requires table { IsAt seat.old self.now }
        requires root { (seat_means seat.old).post.is_root ≡ true }
        ensures table { IsAt seat.new self.now × IsAt result self.now }
        ensures split { IsSplit (seat_means seat.old) (seat_means seat.new) (seat_means result) }
    {
        Seat {
            token: self.table.shared.split_seat::<Cut>(&mut seat.token),
            next: seat.next,
        }
    }

    /// The root's seat takes in a worker's. It takes no memory.
    pub fn join(&self, seat: &mut Seat<B>, other: Seat<B>)
        requires table { IsAt seat.old self.now × IsAt other self.now }
        requires root { (seat_means seat.old).post.is_root ≡ true }
        requires worker { (seat_means other).post.is_root ≡ false }
        ensures table { IsAt seat.new self.now }
        ensures joined { IsJoined (seat_means seat.old) (seat_means other) (seat_means seat.new) }
    {
        let Seat { token: other, next } = other;
        seat.next = seat.next.max(next);
        self.table.shared.join_seat::<Cut>(&mut seat.token, other);
        self.tell(&mut seat.token);
    }
}

impl<B: Drop> SharedTable<B> {
    ghost use Rattle.vale_table.specs.Means.{IsAt, frames_of, seat_means};

    /// A table whose frames are all free at the base `first`, and the root's seat.
    pub fn open(alloc: Global, frames: u32, first: u64) -> Result<(SharedTable<B>, Seat<B>), Memory>
        requires frames { 0 < frames }
        requires first { 0 < first }
        requires body { 0 < type_size B.row }
        ensures { IfOk result (λ t. IsAt t.1 t.0 × (frames_of t.0 ≡ frames) × IsOpened frames first (seat_means t.1)) }
    {
        let mut words = Vec::with_capacity(alloc, frames as usize)?;
        let mut slots = Vec::with_capacity(alloc, frames as usize)?;
        for page in Page::batch(alloc, frames, first)? {
            words.push(first)?;
            slots.push(Some(page))?;
        }
        match Table::new(alloc, &words, slots, &Opening { frames, first }) {
            Ok((table, token)) => Ok((SharedTable { table, frames }, Seat { token, next: 0 })),
            Err(Refused { slots: _ }) => Err(Memory),
        }
    }
}
