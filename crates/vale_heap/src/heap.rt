// The heap.
ghost use Rattle.std.specs.Prelude.{◌≡◌, ◌≢◌, ℕ, ◌-◌, ◌<◌, ◌≤◌, IfErr, IfNone, IfOk, IfSome, IsSome, OnErr, OnSome, None, Some, length, map, replicate, true, option_copied};
ghost use Rattle.std.specs.Borrow.{sem};
ghost use Rattle.std.specs.Option.{option_copied_mut};
ghost use Rattle.vale_page.specs.PageState.{IsBlankAt};
ghost use Rattle.vale_table.specs.Lending.{Same, StillOut};
ghost use Rattle.vale_heap.specs.HeapLends.{lends_if, lends_body, changed};
ghost use Rattle.vale_heap.specs.HeapState.{opened, seat_at, look_in, innermost, has_room, HasNoRoom, IsHeap, IsRoot, LivesIn, IsFor, NoneFor, IsMovable, IsExit, ClearsPage, IsPut, IsEnded, IsMade, IsRefused, IsCleared, KnowsFrames, Lent, OfHand, KeepsFrames, ClaimsFrugally, with_spare, with_moved, with_rehomed, with_region, without_region, with_merged};
ghost use Rattle.vale_heap.specs.Standing.{look_over, StandsMade, StandsLooked, StandsFound, StandsEnded, StandsChanged, StandsSame, StandsMerged, StandsKept, StandsCleared, StandsIsoMerged};

use crate::body::{Body, Place};
use crate::lists::Lists;
use crate::seat::{
    Home, Seat, clear_in, end_in, list_for, put_in, relist, roomy_list, seat_body_mut, seat_mut,
    set_home,
};
use std::alloc::Global;
use std::marker::Model;
use vale_base::Memory;
use vale_page::Page;
use vale_table::Lender;

/// No page was free for a body.
#[derive(Drop)]
pub struct NoPage {
    /// The body, given back.
    pub body: Body,
}

/// A heap of objects. It has regions, one inside the other, and isolates. An object is made in the innermost region. A page has
/// objects of one region or of one isolate, or it is spare.
#[derive(Drop)]
pub struct Heap {
    seats: Vec<Option<Seat>>,
    // The frames of the pages, by what the pages are for.
    lists: Lists,
    // How many regions are open.
    regions: u32,
    depth: u32,
}

impl Model for Heap {
    ghost use Rattle.vale_heap.specs.HeapState.{HeapState};
    ghost use Rattle.vale_heap.specs.Layout.{IsLaidOut};

    ghost Value = { HeapState };

    ghost view = { λ h. record { seats = h.seats.items; regions = h.regions; depth = h.depth } };

    ghost invariant = { λ h. IsLaidOut (record { seats = h.seats.items; regions = h.regions; depth = h.depth }) h.lists };
}

fn no_seats(alloc: Global, frames: u32) -> Result<Vec<Option<Seat>>, Memory>
    ensures { IfOk result (λ v. v.items ≡ replicate frames None) }
{
    let mut seats = Vec::with_capacity(alloc, frames as usize)?;
    for _frame in 0..frames {
        seats.push(None)?;
    }
    Ok(seats)
}

impl Heap {
    /// A heap with one open region and no page. It has room for pages of the frames below `frames`, and for regions that are
    /// `depth` deep, so that no other call takes memory.
    pub fn open(alloc: Global, frames: u32, depth: u32) -> Result<Heap, Memory>
        ensures { IfOk result (λ heap. heap ≡ opened frames depth) }
    {
        let seats = no_seats(alloc, frames)?;
        let count = frames as usize;
        let most = count + 1 + 2 * depth.max(1) as usize;
        Ok(Heap {
            seats,
            lists: Lists::open(alloc, count, count + 3, most)?,
            regions: 1,
            depth,
        })
    }

    // A frame whose page can take an object of the innermost region.
    #[inline(always)]
    fn find_room(&self) -> Option<usize>
        ensures some { IfSome result (λ frame. has_room (innermost self.now) (seat_at self.now frame) ≡ true) }
        ensures none { IfNone result (HasNoRoom self.now) }
        ensures sound { IsHeap self.now }
    {
        let frames = self.seats.len();
        match self.lists.first(roomy_list(frames, self.regions - 1)) {
            Some(frame) => Some(frame),
            None => self.lists.first(frames),
        }
    }

    // Puts a body into a page of the innermost region, or a spare one, that has room.
    #[inline(always)]
    fn put_at(&mut self, frame: usize, body: Body) -> Place
        requires { has_room (innermost self.old) (seat_at self.old frame) ≡ true }
        ensures put { IsPut self.old self.new body result }
        ensures frame { result.frame ≡ frame }
    {
        let frames = self.seats.len();
        let seat = &mut self.seats[frame];
        let (place, moves) = put_in(seat, self.regions - 1, body);
        if moves {
            self.lists.move_to(frame, list_for(frames, frame, seat));
        }
        place
    }

    /// Makes an object in the innermost region. It claims a page only where no page of that region and no spare page has room,
    /// and at most one. At `NoPage` all frames are out, and nothing has changed.
    #[inline(always)]
    pub fn make<L: Lender<Body>>(&mut self, lender: &mut L, body: Body) -> Result<Place, NoPage>
        requires few { L.frames lender.old ≤ length self.old.seats }
        requires known { KnowsFrames self.old (L.out lender.old) }
        ensures made { let lent : Lent = record {
          frames = L.frames lender.old;
          hand = L.hand lender.old;
          new_hand = L.hand lender.new;
          out = L.out lender.old;
          new_out = L.out lender.new;
          floors = L.floors lender.old;
        } in
            IfOk result (IsMade self.old self.new lent body) }
        ensures refused { let lent : Lent = record {
          frames = L.frames lender.old;
          hand = L.hand lender.old;
          new_hand = L.hand lender.new;
          out = L.out lender.old;
          new_out = L.out lender.new;
          floors = L.floors lender.old;
        } in
            OnErr result (IsRefused self.old self.new lent) }
        ensures body_back { IfErr result (λ refused. refused.body ≡ body) }
        ensures stands { IfOk result (StandsMade self.old self.new (L.out lender.old) (L.floors lender.old) body) }
        ensures frugal { IfOk result (ClaimsFrugally self.old self.new) }
        ensures of_hand { OfHand self.old (L.hand lender.old) → OfHand self.new (L.hand lender.new) }
        ensures still_known { KnowsFrames self.new (L.out lender.new) }
        ensures as_long { length self.new.seats ≡ length self.old.seats }
        ensures in_page { IfOk result (λ place. place.slot < 64) }
        ensures known_out { StillOut (L.out lender.old) (L.out lender.new) }
        ensures floors { Same (L.floors lender.old) (L.floors lender.new) }
        ensures frames { L.frames lender.new ≡ L.frames lender.old }
        ensures post { L.post lender.new ≡ L.post lender.old }
    {
        if let Some(frame) = self.find_room() {
            return Ok(self.put_at(frame, body));
        }
        self.make_by_claim(lender, body)
    }

    // Makes an object in a page that is claimed for it.
    #[cold]
    #[inline(never)]
    fn make_by_claim<L: Lender<Body>>(
        &mut self,
        lender: &mut L,
        body: Body,
    ) -> Result<Place, NoPage>
        requires no_room { HasNoRoom self.old }
        requires sound { IsHeap self.old }
        requires few { L.frames lender.old ≤ length self.old.seats }
        requires known { KnowsFrames self.old (L.out lender.old) }
        ensures made { let lent : Lent = record {
          frames = L.frames lender.old;
          hand = L.hand lender.old;
          new_hand = L.hand lender.new;
          out = L.out lender.old;
          new_out = L.out lender.new;
          floors = L.floors lender.old;
        } in
            IfOk result (IsMade self.old self.new lent body) }
        ensures refused { let lent : Lent = record {
          frames = L.frames lender.old;
          hand = L.hand lender.old;
          new_hand = L.hand lender.new;
          out = L.out lender.old;
          new_out = L.out lender.new;
          floors = L.floors lender.old;
        } in
            OnErr result (IsRefused self.old self.new lent) }
        ensures body_back { IfErr result (λ refused. refused.body ≡ body) }
        ensures stands { IfOk result (StandsMade self.old self.new (L.out lender.old) (L.floors lender.old) body) }
        ensures frugal { IfOk result (ClaimsFrugally self.old self.new) }
        ensures of_hand { OfHand self.old (L.hand lender.old) → OfHand self.new (L.hand lender.new) }
        ensures still_known { KnowsFrames self.new (L.out lender.new) }
        ensures as_long { length self.new.seats ≡ length self.old.seats }
        ensures in_page { IfOk result (λ place. place.slot < 64) }
        ensures known_out { StillOut (L.out lender.old) (L.out lender.new) }
        ensures floors { Same (L.floors lender.old) (L.floors lender.new) }
        ensures frames { L.frames lender.new ≡ L.frames lender.old }
        ensures post { L.post lender.new ≡ L.post lender.old }
    {
        match lender.claim() {
            Some(page) => {
                let frame = self.take_page(page);
                Ok(self.put_at(frame, body))
            }
            None => Err(NoPage { body }),
        }
    }

    // Takes an empty page in as a spare one.
    fn take_page(&mut self, page: Page<Body>) -> usize
        requires within { page.frame < length self.old.seats }
        requires none { seat_at self.old page.frame ≡ None }
        requires blank { (base : ℕ) × IsBlankAt page page.frame base }
        ensures after { self.new ≡ with_spare self.old page.frame page }
        ensures frame { result ≡ page.frame }
    {
        let frame = page.frame() as usize;
        self.seats[frame] = Some(Seat {
            page,
            home: Home::Spare,
        });
        relist(&self.seats, &mut self.lists, frame);
        frame
    }

    /// The body at a place of this heap, or of the heap below it. `None` comes exactly where the name that the place stands for
    /// is dead.
    pub fn look<'h>(&'h self, below: Option<&'h Heap>, at: Place) -> Option<&'h Body>
        requires { at.slot < 64 }
        ensures value { option_copied result ≡ look_over self.now (option_copied below.entry) at }
        ensures stands { StandsLooked self.now (option_copied below.entry) at (option_copied result) }
    {
        self.find(below, at)
    }

    /// The body at a place of this heap, or of the heap below it, whose name is alive.
    pub fn look_live<'h>(&'h self, below: Option<&'h Heap>, at: Place) -> &'h Body
        requires within { at.slot < 64 }
        requires live { IsSome (look_over self.now (option_copied below) at) }
        ensures value { look_over self.now (option_copied below.entry) at ≡ Some result.now }
        ensures stands { StandsLooked self.now (option_copied below.entry) at (Some result.now) }
    {
        match self.find(below, at) {
            Some(body) => body,
            None => unreachable!(),
        }
    }

    fn find<'h>(&'h self, below: Option<&'h Heap>, at: Place) -> Option<&'h Body>
        requires { at.slot < 64 }
        ensures { option_copied result ≡ look_over self.now (option_copied below.entry) at }
    {
        match self.seats.get(at.frame as usize) {
            Some(Some(seat)) => seat.page.get(at.slot, at.generation),
            _ => match below {
                Some(heap) => heap.look_here(at),
                None => None,
            },
        }
    }

    fn look_here(&self, at: Place) -> Option<&Body>
        requires { at.slot < 64 }
        ensures { option_copied result ≡ look_in self.now at }
    {
        let seat = self.seats.get(at.frame as usize)?.as_ref()?;
        seat.page.get(at.slot, at.generation)
    }

    /// The body at a place of this heap, for writing. `None` comes exactly where the name that the place stands for isn't alive
    /// in this heap.
    pub fn change(&mut self, at: Place) -> Option<&mut Body>
        requires { at.slot < 64 }
        ensures* writes_back { sem 𝓛 (lends_if self.entry at result) }
        ensures value { option_copied_mut result ≡ look_in self.old at }
        ensures found { StandsFound self.old at (option_copied_mut result) }
        ensures stands { (left : Body) → StandsChanged self.old at left }
        ensures keeps { (left : Body) → KeepsFrames self.old (changed self.old at left) }
    {
        if self.look_here(at).is_some() {
            Some(self.body_mut(at))
        } else {
            None
        }
    }

    fn body_mut(&mut self, at: Place) -> &mut Body
        requires within { at.slot < 64 }
        requires there { IsSome (look_in self.old at) }
        ensures* writes_back { sem 𝓛 (lends_body self.entry at result) }
        ensures value { look_in self.old at ≡ Some result.now }
    {
        let seat = seat_mut(&mut self.seats[at.frame as usize]);
        seat_body_mut(seat, at.slot)
    }

    /// Ends the object at a place, which isn't the root of an isolate, and takes its body out. A page that has no object left is
    /// spare. `None` comes exactly where the name that the place stands for isn't alive in this heap; nothing has changed then.
    #[inline(always)]
    pub fn end(&mut self, at: Place) -> Option<Body>
        requires within { at.slot < 64 }
        requires no_root { IsRoot self.old at → ⊥ }
        ensures body { result ≡ look_in self.old at }
        ensures none { IfNone result (self.new ≡ self.old) }
        ensures ended { IfSome result (λ body. IsEnded self.old self.new body at) }
        ensures found { StandsFound self.old at result }
        ensures stands { OnSome result (StandsEnded self.old self.new at) }
        ensures keeps { KeepsFrames self.old self.new }
    {
        let frame = at.frame as usize;
        let frames = self.seats.len();
        if frame >= frames {
            return None;
        }
        let seat = &mut self.seats[frame];
        match end_in(seat, at) {
            Some((body, moves)) => {
                if moves {
                    self.lists.move_to(frame, list_for(frames, frame, seat));
                }
                Some(body)
            }
            None => None,
        }
    }

    /// Opens a region inside the innermost one.
    pub fn freeze_in(&mut self)
        requires { self.old.regions < self.old.depth }
        ensures after { self.new ≡ with_region self.old }
        ensures stands { StandsSame self.old self.new }
        ensures keeps { KeepsFrames self.old self.new }
    {
        self.lists.add();
        self.lists.add();
        self.regions += 1;
    }

    /// Closes the innermost region. Its objects join the one around it.
    pub fn freeze_merge(&mut self)
        requires { 1 < self.old.regions }
        ensures after { self.new ≡ without_region self.old (Home.Open (innermost self.old - 1)) }
        ensures stands { StandsMerged self.old self.new }
        ensures keeps { KeepsFrames self.old self.new }
    {
        let outer = self.regions - 2;
        self.empty_region(Home::Open(outer));
        self.close_region();
    }

    /// Closes the innermost region. It becomes an isolate with this root, which is alive in it.
    pub fn freeze_keep(&mut self, root: Place)
        requires many { 1 < self.old.regions }
        requires root { LivesIn self.old (Home.Open (innermost self.old)) root }
        ensures after { self.new ≡ without_region self.old (Home.Kept root) }
        ensures stands { StandsKept self.old self.new root }
        ensures keeps { KeepsFrames self.old self.new }
    {
        // The proof needs what the type keeps.
        let _ = &self.seats;
        let to = Home::Kept(root);
        self.rehome(root.frame as usize, to);
        self.empty_region(to);
        self.close_region();
    }

    /// Closes the innermost region. Its objects die.
    pub fn freeze_clear(&mut self)
        requires { 1 < self.old.regions }
        ensures after { IsCleared self.old self.new }
        ensures stands { StandsCleared self.old self.new }
        ensures keeps { KeepsFrames self.old self.new }
    {
        let inner = self.regions - 1;
        while let Some(frame) = self.first_open(inner) {
            self.clear_page(frame);
        }
        self.close_region();
    }

    /// Joins the isolate with this root to the innermost region.
    pub fn merge(&mut self, iso: Place)
        requires { IsRoot self.old iso }
        ensures after { self.new ≡ with_merged self.old iso }
        ensures stands { StandsIsoMerged self.old self.new iso }
        ensures keeps { KeepsFrames self.old self.new }
    {
        let to = Home::Open(self.regions - 1);
        while let Some(frame) = self.first_beside(iso) {
            self.rehome(frame, to);
        }
        self.rehome(iso.frame as usize, to);
    }

    // The frame of a page of an open region.
    fn first_open(&self, region: u32) -> Option<usize>
        requires { region < self.now.regions }
        ensures some { IfSome result (λ frame. IsFor (Home.Open region) (seat_at self.now frame)) }
        ensures none { IfNone result (NoneFor (Home.Open region) self.now) }
        ensures sound { IsHeap self.now }
    {
        let roomy = roomy_list(self.seats.len(), region);
        match self.lists.first(roomy) {
            Some(frame) => Some(frame),
            None => self.lists.first(roomy + 1),
        }
    }

    // The frame of a page of an isolate, beside its root's page.
    fn first_beside(&self, iso: Place) -> Option<usize>
        requires { IsRoot self.now iso }
        ensures some { IfSome result (λ frame. (frame ≢ iso.frame) × IsFor (Home.Kept iso) (seat_at self.now frame)) }
        ensures none { IfNone result ((frame : ℕ) → IsFor (Home.Kept iso) (seat_at self.now frame) → frame ≡ iso.frame) }
        ensures sound { IsHeap self.now }
    {
        self.lists.first(iso.frame as usize)
    }

    // Lets a page be for something else.
    fn rehome(&mut self, frame: usize, to: Home)
        requires { IsMovable self.old frame to }
        ensures { self.new ≡ with_moved self.old frame to }
    {
        set_home(&mut self.seats[frame], to);
        relist(&self.seats, &mut self.lists, frame);
    }

    // Lets each page of the innermost region be for something else.
    fn empty_region(&mut self, to: Home)
        requires { IsExit self.old to }
        ensures after { self.new ≡ with_rehomed self.old (Home.Open (innermost self.old)) to }
        ensures none { NoneFor (Home.Open (innermost self.old)) self.new }
    {
        let inner = self.regions - 1;
        while let Some(frame) = self.first_open(inner) {
            self.rehome(frame, to);
        }
    }

    // Closes the innermost region, which has no page.
    fn close_region(&mut self)
        requires many { 1 < self.old.regions }
        requires none { NoneFor (Home.Open (innermost self.old)) self.old }
        ensures after { self.new ≡ record self.old { regions = innermost self.old } }
        ensures sound { IsHeap self.new }
    {
        self.lists.remove_last();
        self.lists.remove_last();
        self.regions -= 1;
    }

    // Ends each object of a page of the innermost region. The page is spare then.
    fn clear_page(&mut self, frame: usize)
        requires { IsFor (Home.Open (innermost self.old)) (seat_at self.old frame) }
        ensures { ClearsPage self.old self.new frame }
    {
        clear_in(&mut self.seats[frame]);
        relist(&self.seats, &mut self.lists, frame);
    }
}

fn is_send<T: Send>() {}

fn is_sync<T: Sync>() {}

// A heap may move to another thread and be read from several, and a body that found no page may move.
fn crosses_threads() {
    is_send::<Heap>();
    is_sync::<Heap>();
    is_send::<NoPage>();
}
