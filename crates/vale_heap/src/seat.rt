// The pages of a heap, and what a page is for.
ghost use Rattle.std.specs.Prelude.{◌≡◌, ◌<◌, ◌^◌, length, IfNone, IfSome, IsSome, None, Some, slice_index_or, slice_set, true};
ghost use Rattle.std.specs.Borrow.{sem};
ghost use Rattle.std.specs.Option.{option_map};
ghost use Rattle.std.specs.Option.Follows.{option_follows_value};
ghost use Rattle.vale_page.specs.PageState.{body_of, IsPage};
ghost use Rattle.vale_heap.specs.contracts.seat.Seat as seat_row;
ghost use Rattle.vale_heap.specs.HeapLends.{lends_seat_body};
ghost use Rattle.vale_heap.specs.HeapState.{body_in, has_room, with_home, PutsIn, EndsIn, IsEmptied, ClearsSeat};
ghost use Rattle.vale_heap.specs.Layout.{list_of, list_for, roomy_list, StaysListed};

use crate::body::{Body, Place};
use crate::lists::Lists;
use vale_page::Page;

/// What a page is for.
#[derive(Clone, Copy, Debug, PartialEq, Eq)]
pub enum Home {
    /// No object is in the page.
    Spare,
    /// The objects of an open region, by how many are open around it in this heap.
    Open(u32),
    /// The objects of an isolate, by the place of its root.
    Kept(Place),
}

/// A page of a heap.
#[derive(Drop)]
pub struct Seat {
    /// The page.
    pub page: Page<Body>,
    /// What it is for.
    pub home: Home,
}

/// The list of the region's pages that can take an object.
#[inline(always)]
pub fn roomy_list(frames: usize, region: u32) -> usize
    requires { frames < 2 ^ 32 }
    ensures { result ≡ roomy_list frames region }
{
    frames + 1 + 2 * region as usize
}

#[inline(always)]
fn list_of(frames: usize, frame: usize, home: Home, room: bool) -> Option<usize>
    requires { frames < 2 ^ 32 }
    ensures { result ≡ list_of frames frame home room }
{
    match home {
        Home::Spare => { if room { Some(frames) } else { None } }
        Home::Open(region) => {
            let list = roomy_list(frames, region);
            if room { Some(list) } else { Some(list + 1) }
        }
        Home::Kept(root) => {
            if root.frame as usize == frame {
                None
            } else {
                Some(root.frame as usize)
            }
        }
    }
}

/// The list of this frame's page.
#[inline(always)]
pub fn list_for(frames: usize, frame: usize, seat: &Option<Seat>) -> Option<usize>
    requires { frames < 2 ^ 32 }
    ensures { result ≡ list_for frames frame seat.now }
{
    match seat {
        Some(seat) => list_of(frames, frame, seat.home, seat.page.free() > 0),
        None => None,
    }
}

/// Puts the frame on the list for its page.
pub fn relist(seats: &[Option<Seat>], lists: &mut Lists, frame: usize)
    requires within { frame < length seats.now }
    requires few { length seats.now < 2 ^ 32 }
    requires items { length lists.old.on ≡ length seats.now }
    requires list { IfSome (list_for (length seats.now) frame (slice_index_or seats.now frame None)) (λ l. l < lists.old.lists) }
    ensures { lists.new ≡ record lists.old { on = slice_set lists.old.on frame (list_for (length seats.now) frame (slice_index_or seats.now frame None)) } }
{
    let list = list_for(seats.len(), frame, &seats[frame]);
    lists.move_to(frame, list);
}

/// Puts a body into a free slot of a page, which is the region's then. It answers the place, and whether the page's list may be
/// another one now.
#[inline(always)]
pub fn put_in(seat: &mut Option<Seat>, region: u32, body: Body) -> (Place, bool)
    requires { has_room region seat.old ≡ true }
    ensures put { PutsIn seat.old seat.new region body result.0 }
    ensures stays { StaysListed seat.old seat.new result.1 }
{
    match seat {
        Some(seat) => {
            let frame = seat.page.frame();
            let spare = matches!(seat.home, Home::Spare);
            let (slot, generation) = seat.page.put(body);
            seat.home = Home::Open(region);
            let place = Place {
                frame,
                slot,
                generation,
            };
            (place, spare || seat.page.free() == 0)
        }
        None => unreachable!(),
    }
}

/// Takes the body at a place out of a page, which is spare then if it was the last one. It answers beside the body whether the
/// page's list may be another one now.
#[inline(always)]
pub fn end_in(seat: &mut Option<Seat>, at: Place) -> Option<(Body, bool)>
    requires { at.slot < 64 }
    ensures body { option_map (λ ended. ended.0) result ≡ body_in seat.old at.slot at.generation }
    ensures none { IfNone result (seat.new ≡ seat.old) }
    ensures ended { IfSome result (λ ended. EndsIn seat.old seat.new ended.0 at) }
    ensures stays { IfSome result (λ ended. StaysListed seat.old seat.new ended.1) }
{
    match seat {
        Some(seat) => {
            let had_room = seat.page.free() > 0;
            let body = seat.page.end(at.slot, at.generation)?;
            if seat.page.live() == 0 {
                seat.home = Home::Spare;
                return Some((body, true));
            }
            let has_room = seat.page.free() > 0;
            Some((body, has_room != had_room))
        }
        None => None,
    }
}

/// Ends each object of a page, which is spare then.
pub fn clear_in(seat: &mut Option<Seat>)
    requires { IfSome seat.old (λ s. IsPage s.page) }
    ensures { ClearsSeat seat.old seat.new }
{
    if let Some(seat) = seat {
        clear(&mut seat.page);
        seat.home = Home::Spare;
    }
}

// Ends each object of a page.
fn clear(page: &mut Page<Body>)
    requires { IsPage page.old }
    ensures { IsEmptied page.old page.new }
{
    for slot in 0..64u8 {
        let generation = page.generation(slot);
        page.end(slot, generation);
    }
}

/// Lets a page be for something else.
pub fn set_home(seat: &mut Option<Seat>, to: Home)
    ensures { seat.new ≡ option_map (with_home to) seat.old }
{
    if let Some(seat) = seat {
        seat.home = to;
    }
}

/// The page of a frame that has one, for writing.
pub fn seat_mut(seat: &mut Option<Seat>) -> &mut Seat
    requires { IsSome seat.old }
    ensures* writes_back { sem 𝓛 (option_follows_value seat_row.the_row seat.entry result) }
    ensures value { seat.old ≡ Some result.now }
{
    match seat {
        Some(seat) => seat,
        None => unreachable!(),
    }
}

/// The body of a slot that has one, for writing.
pub fn seat_body_mut(seat: &mut Seat, slot: u8) -> &mut Body
    requires within { slot < 64 }
    requires there { IsSome (body_of seat.old.page slot) }
    ensures* writes_back { sem 𝓛 (lends_seat_body seat.entry slot result) }
    ensures value { body_of seat.old.page slot ≡ Some result.now }
{
    seat.page.body_mut(slot)
}
