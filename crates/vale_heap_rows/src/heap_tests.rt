use crate::lent_heap::LentHeap;
use std::alloc::{AllocError, Global};
use std::test::Fail;
use vale_base::Kind;
use vale_heap::{Body, Cell, Cells, NoPage, Place};

// An object without cells.
fn bare(alloc: Global, kind: u32) -> Body {
    Body {
        kind: Kind(kind),
        cells: Cells::from_vec(Vec::new(alloc)),
    }
}

// Makes an object without cells, if a page is free.
fn made(heap: &mut LentHeap, alloc: Global, kind: u32) -> Option<Place> {
    match heap.make(bare(alloc, kind)) {
        Ok(place) => Some(place),
        Err(_) => None,
    }
}

// Whether no page is free for an object, which is given back.
fn is_refused(heap: &mut LentHeap, alloc: Global, kind: u32) -> bool {
    match heap.make(bare(alloc, kind)) {
        Ok(_) => false,
        Err(NoPage { body }) => body.kind.0 == kind,
    }
}

// Whether an object of this kind lives at the place.
fn lives(heap: &LentHeap, at: Place, kind: u32) -> bool {
    match heap.look(at) {
        Some(body) => body.kind.0 == kind,
        None => false,
    }
}

fn is_gone(heap: &LentHeap, at: Place) -> bool {
    heap.look(at).is_none()
}

// Ends the object at a place, and answers whether it lived and was of this kind.
fn ends(heap: &mut LentHeap, at: Place, kind: u32) -> bool {
    match heap.end(at) {
        Some(body) => body.kind.0 == kind,
        None => false,
    }
}

// Ends nothing, since no object lives at the place.
fn ends_nothing(heap: &mut LentHeap, at: Place) -> bool {
    heap.end(at).is_none()
}

// Makes objects of the kinds 0, 1 and so on, until there are as many or no page is left.
fn fill(heap: &mut LentHeap, alloc: Global, most: u32) -> Result<Vec<Place>, AllocError> {
    let mut places = Vec::with_capacity(alloc, most as usize)?;
    for kind in 0..most {
        match made(heap, alloc, kind) {
            Some(place) => places.push(place)?,
            None => return Ok(places),
        }
    }
    Ok(places)
}

// How many of the places have the object of the kind that `fill` gave it.
fn found(heap: &LentHeap, places: &[Place]) -> u32 {
    let mut count = 0u32;
    let mut kind = 0u32;
    for place in places {
        if lives(heap, *place, kind) {
            count = count.saturating_add(1);
        }
        kind = kind.saturating_add(1);
    }
    count
}

// Whether there are so many places, each with the object of the kind that `fill` gave it.
fn are_found(heap: &LentHeap, places: &[Place], count: u32) -> bool {
    places.len() == count as usize && found(heap, places) == count
}

// Makes and ends objects one after the other, up to this many, and answers how many there were.
fn made_and_ended(heap: &mut LentHeap, alloc: Global, most: u32) -> u32 {
    for kind in 0..most {
        let Some(place) = made(heap, alloc, kind) else {
            return kind;
        };
        if ends_nothing(heap, place) {
            return kind;
        }
    }
    most
}

#[test]
fn an_ended_object_is_gone_and_its_place_does_not_return(rt: HostRuntime) -> Result<(), Fail> {
    let mut heap = LentHeap::open(rt.alloc(), 1, 1, 1)?;
    let place = made(&mut heap, rt.alloc(), 7).ok_or("a page is free")?;
    assert!(rt; lives(&heap, place, 7));
    assert!(rt; ends(&mut heap, place, 7));
    assert!(rt; is_gone(&heap, place));
    assert!(rt; ends_nothing(&mut heap, place));
    let again = made(&mut heap, rt.alloc(), 8).ok_or("a page is free again")?;
    assert!(rt; again != place);
    assert!(rt; is_gone(&heap, place));
    assert!(rt; lives(&heap, again, 8));
    Ok(())
}

// A first generation, and how many objects a page has from it on.
const LAST: &[(u64, u32)] = &[(u64::MAX - 1, 128), (u64::MAX, 64)];

#[test]
fn slots_retire_at_the_last_generation(rt: HostRuntime) -> Result<(), Fail> {
    for &(first, most) in LAST {
        let mut heap = LentHeap::open(rt.alloc(), 1, 1, first)?;
        let count = made_and_ended(&mut heap, rt.alloc(), 1_000);
        assert!(rt; count == most, "{count} from {first}");
        assert!(rt; is_refused(&mut heap, rt.alloc(), 9));
    }
    Ok(())
}

#[test]
fn a_frame_has_sixty_four_objects(rt: HostRuntime) -> Result<(), Fail> {
    let mut heap = LentHeap::open(rt.alloc(), 1, 1, 1)?;
    let places = fill(&mut heap, rt.alloc(), 65)?;
    assert!(rt; are_found(&heap, &places, 64));
    let last = *places.last().ok_or("there are objects")?;
    assert!(rt; ends(&mut heap, last, 63));
    assert!(rt; made(&mut heap, rt.alloc(), 0).is_some());
    assert!(rt; is_refused(&mut heap, rt.alloc(), 0));
    Ok(())
}

#[test]
fn four_thousand_frames_are_filled(rt: HostRuntime) -> Result<(), Fail> {
    let mut heap = LentHeap::open(rt.alloc(), 4_096, 1, 1)?;
    let places = fill(&mut heap, rt.alloc(), 300_000)?;
    assert!(rt; are_found(&heap, &places, 262_144));
    Ok(())
}

fn are_gone(heap: &LentHeap, places: &[Place]) -> bool {
    for place in places {
        if !is_gone(heap, *place) {
            return false;
        }
    }
    true
}

// Ends the object at each place, and answers whether each lived until then.
fn end_each(heap: &mut LentHeap, places: &[Place]) -> bool {
    for place in places {
        if ends_nothing(heap, *place) || !is_gone(heap, *place) {
            return false;
        }
    }
    true
}

#[test]
fn merged_objects_live_and_cleared_ones_die(rt: HostRuntime) -> Result<(), Fail> {
    let mut heap = LentHeap::open(rt.alloc(), 8, 2, 1)?;
    assert!(rt; !heap.freeze_merge());
    assert!(rt; !heap.freeze_clear());
    let outer = fill(&mut heap, rt.alloc(), 10)?;
    assert!(rt; heap.freeze_in());
    assert!(rt; !heap.freeze_in());
    let merged = fill(&mut heap, rt.alloc(), 10)?;
    assert!(rt; heap.freeze_merge());
    assert!(rt; are_found(&heap, &merged, 10));
    assert!(rt; heap.freeze_in());
    let cleared = fill(&mut heap, rt.alloc(), 10)?;
    assert!(rt; are_found(&heap, &cleared, 10));
    assert!(rt; heap.freeze_clear());
    assert!(rt; are_gone(&heap, &cleared));
    assert!(rt; are_found(&heap, &outer, 10));
    assert!(rt; are_found(&heap, &merged, 10));
    assert!(rt; end_each(&mut heap, &merged));
    Ok(())
}

// The first cell, if it is a number.
fn number_at(heap: &LentHeap, at: Place) -> Option<i64> {
    match heap.look(at)?.cells.as_slice().first()? {
        Cell::Int(number) => Some(*number),
        _ => None,
    }
}

fn has_number(heap: &LentHeap, at: Place, number: i64) -> bool {
    match number_at(heap, at) {
        Some(found) => found == number,
        None => false,
    }
}

// Gives an object a cell with a number, and answers whether the object lives.
fn changes(heap: &mut LentHeap, alloc: Global, at: Place, number: i64) -> Result<bool, AllocError> {
    let cells = Cells::from_vec(vec![in alloc; Cell::Int(number)]?);
    Ok(heap.change(at, cells))
}

#[test]
fn a_change_is_seen_until_the_object_ends(rt: HostRuntime) -> Result<(), Fail> {
    let mut heap = LentHeap::open(rt.alloc(), 1, 1, 1)?;
    let place = made(&mut heap, rt.alloc(), 7).ok_or("a page is free")?;
    assert!(rt; number_at(&heap, place).is_none());
    assert!(rt; changes(&mut heap, rt.alloc(), place, 42)?);
    assert!(rt; lives(&heap, place, 7));
    assert!(rt; has_number(&heap, place, 42));
    assert!(rt; changes(&mut heap, rt.alloc(), place, -1)?);
    assert!(rt; has_number(&heap, place, -1));
    assert!(rt; ends(&mut heap, place, 7));
    assert!(rt; !changes(&mut heap, rt.alloc(), place, 1)?);
    Ok(())
}

// How many frames a heap has, and how many objects fill them but for one slot.
const FULL: &[(u32, u32)] = &[(1, 63), (4_096, 262_143)];

#[test]
fn an_isolate_is_kept_and_merged(rt: HostRuntime) -> Result<(), Fail> {
    for &(frames, objects) in FULL {
        let mut heap = LentHeap::open(rt.alloc(), frames, 2, 1)?;
        assert!(rt; heap.freeze_in());
        let places = fill(&mut heap, rt.alloc(), objects)?;
        let Some(kept) = heap.freeze_keep(bare(rt.alloc(), 7)) else {
            panic!(rt; "a slot is free")
        };
        let root = kept.root();
        assert!(rt; kept.look(root).is_some());
        let mut heap = kept.merge();
        assert!(rt; found(&heap, &places) == objects);
        assert!(rt; lives(&heap, root, 7));
        assert!(rt; !heap.freeze_merge());
        assert!(rt; is_refused(&mut heap, rt.alloc(), 0));
        assert!(rt; ends(&mut heap, root, 7));
        assert!(rt; made(&mut heap, rt.alloc(), 0).is_some());
    }
    Ok(())
}

#[test]
fn a_region_is_kept_where_one_is_open_and_a_slot_is_free(rt: HostRuntime) -> Result<(), Fail> {
    let heap = LentHeap::open(rt.alloc(), 1, 2, 1)?;
    assert!(rt; heap.freeze_keep(bare(rt.alloc(), 0)).is_none());
    let mut heap = LentHeap::open(rt.alloc(), 1, 2, 1)?;
    assert!(rt; heap.freeze_in());
    let places = fill(&mut heap, rt.alloc(), 100)?;
    assert!(rt; places.len() == 64);
    assert!(rt; heap.freeze_keep(bare(rt.alloc(), 0)).is_none());
    Ok(())
}

// Ends each object of a frame, and answers how many there were.
fn end_all(heap: &mut LentHeap, places: &[Place], frame: u32) -> u32 {
    let mut count = 0u32;
    for place in places {
        if place.frame == frame && !ends_nothing(heap, *place) {
            count = count.saturating_add(1);
        }
    }
    count
}

// Three frames in the order in which they become empty.
const ORDERS: &[(u32, u32, u32)] = &[(0, 1, 2), (1, 0, 2), (2, 1, 0)];

#[test]
fn pages_are_used_again_whichever_is_empty_first(rt: HostRuntime) -> Result<(), Fail> {
    for &(first, second, third) in ORDERS {
        let mut heap = LentHeap::open(rt.alloc(), 3, 1, 1)?;
        let places = fill(&mut heap, rt.alloc(), 1_000)?;
        assert!(rt; end_all(&mut heap, &places, first) == 64);
        assert!(rt; end_all(&mut heap, &places, second) == 64);
        assert!(rt; end_all(&mut heap, &places, third) == 64);
        let places = fill(&mut heap, rt.alloc(), 1_000)?;
        assert!(rt; are_found(&heap, &places, 192));
    }
    Ok(())
}
