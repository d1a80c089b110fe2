use crate::team::{Gate, claim_at_once, dismiss, enlist};
use std::hint::spin_loop;
use std::sync::atomic::AtomicBool;
use std::sync::atomic::Ordering::SeqCst;
use std::test::Fail;
use vale_page::Page;
use vale_table::{Desk, Lender, PlainTable, SharedTable};

const FRAMES: u32 = 1_000;

/// Every worker passes at once.
#[derive(Clone, Copy)]
struct Open;

impl Gate for Open {
    fn pass(&self, _worker: usize) {}
}

// Whether these are all frames in order.
fn are_all(frames: &[u32]) -> bool {
    let mut next = 0u32;
    for frame in frames {
        if *frame != next {
            return false;
        }
        next = next.saturating_add(1);
    }
    next == FRAMES
}

#[test]
fn sixty_four_workers_claim_each_frame_once(rt: HostRuntime) -> Result<(), Fail> {
    let (table, mut seat) = SharedTable::<u8>::open(rt.alloc(), FRAMES, 5)?;
    let mut team = enlist(rt.alloc(), &table, &mut seat, 64)?;
    assert!(rt; team.len() == 64);
    claim_at_once(&rt, &Open, &table, &mut team);
    let mut frames = dismiss(rt.alloc(), &table, &mut seat, team)?;
    frames.sort()?;
    assert!(rt; are_all(&frames));
    let mut desk = Desk {
        table: &table,
        seat,
    };
    assert!(rt; desk.claim().is_none());
    Ok(())
}

// How often a worker looks at the other's flag before it gives up.
const TURNS: u32 = 1_000_000_000;

/// Two flags that two workers raise, and whether each saw the other's.
#[derive(Drop)]
struct Meeting {
    first: AtomicBool,
    second: AtomicBool,
    first_met: AtomicBool,
    second_met: AtomicBool,
}

impl Meeting {
    fn new() -> Meeting {
        Meeting {
            first: AtomicBool::new(false),
            second: AtomicBool::new(false),
            first_met: AtomicBool::new(false),
            second_met: AtomicBool::new(false),
        }
    }
}

impl Gate for Meeting {
    fn pass(&self, worker: usize) {
        if worker == 0 {
            meet(&self.first, &self.second, &self.first_met);
        } else {
            meet(&self.second, &self.first, &self.second_met);
        }
    }
}

// Raises the own flag, and looks for the other's.
fn meet(own: &AtomicBool, other: &AtomicBool, met: &AtomicBool) {
    own.store(true, SeqCst);
    for _ in 0..TURNS {
        if other.load(SeqCst) {
            met.store(true, SeqCst);
            return;
        }
        spin_loop();
    }
}

#[test]
fn two_workers_run_at_once(rt: HostRuntime) -> Result<(), Fail> {
    let (table, mut seat) = SharedTable::<u8>::open(rt.alloc(), 8, 5)?;
    let meeting = Meeting::new();
    let mut team = enlist(rt.alloc(), &table, &mut seat, 2)?;
    assert!(rt; team.len() == 2);
    claim_at_once(&rt, &meeting, &table, &mut team);
    let frames = dismiss(rt.alloc(), &table, &mut seat, team)?;
    assert!(rt; frames.len() == 8);
    assert!(rt; meeting.first_met.load(SeqCst));
    assert!(rt; meeting.second_met.load(SeqCst));
    Ok(())
}

#[test]
fn a_shared_frame_comes_back_at_a_later_base(rt: HostRuntime) -> Result<(), Fail> {
    let (table, seat) = SharedTable::<u8>::open(rt.alloc(), 1, 5)?;
    let mut desk = Desk {
        table: &table,
        seat,
    };
    let Some(mut page) = desk.claim() else {
        panic!(rt; "a frame is free")
    };
    assert!(rt; desk.claim().is_none());
    let base = page.base();
    assert!(rt; base == 5);
    assert!(rt; page.generation(63) == 5);
    page.reset(base + 1);
    desk.give(page);
    let Some(again) = desk.claim() else {
        panic!(rt; "a frame is free again")
    };
    assert!(rt; again.frame() == 0);
    assert!(rt; again.base() == 6);
    assert!(rt; again.generation(0) == 6);
    Ok(())
}

#[test]
fn a_plain_frame_comes_back_at_a_later_base(rt: HostRuntime) -> Result<(), Fail> {
    let mut table = PlainTable::<u8>::open(rt.alloc(), 2, 1)?;
    assert!(rt; table.frames() == 2);
    let Some(mut page) = table.claim() else {
        panic!(rt; "a frame is free")
    };
    let base = page.base();
    assert!(rt; base == 1);
    assert!(rt; page.generation(63) == 1);
    page.reset(base + 1);
    table.give(page);
    let (Some(again), Some(other)) = (table.claim(), table.claim()) else {
        panic!(rt; "two frames are free")
    };
    assert!(rt; table.claim().is_none());
    assert!(rt; again.frame() == 0);
    assert!(rt; again.base() == 2);
    assert!(rt; again.generation(0) == 2);
    assert!(rt; other.frame() == 1);
    assert!(rt; other.base() == 1);
    Ok(())
}

#[test]
fn a_slot_is_retired_after_its_last_generation(rt: HostRuntime) -> Result<(), Fail> {
    let mut pages = Page::batch(rt.alloc(), 1, u64::MAX - 1)?;
    let Some(mut page) = pages.pop() else {
        panic!(rt; "one frame has one page")
    };
    let (slot, generation) = page.put(7u8);
    assert!(rt; page.get(slot, generation).copied() == Some(7));
    assert!(rt; page.get(slot, 1).is_none());
    assert!(rt; page.end(slot, generation) == Some(7));
    assert!(rt; page.generation(slot) == u64::MAX);
    assert!(rt; page.free() == 64);
    assert!(rt; page.retired() == 0);
    assert!(rt; page.put(8) == (slot, u64::MAX));
    assert!(rt; page.end(slot, u64::MAX) == Some(8));
    assert!(rt; page.free() == 63);
    assert!(rt; page.retired() == 1);
    assert!(rt; page.live() == 0);
    assert!(rt; page.get(slot, u64::MAX).is_none());
    assert!(rt; page.put(9).0 != slot);
    Ok(())
}

#[test]
fn a_batch_has_a_page_for_each_frame(rt: HostRuntime) -> Result<(), Fail> {
    let pages = Page::<u8>::batch(rt.alloc(), 4_096, 1)?;
    assert!(rt; pages.len() == 4_096);
    for (at, page) in pages.iter().enumerate() {
        assert!(rt; page.frame() as usize == at);
        assert!(rt; page.base() == 1);
        assert!(rt; page.free() == 64);
    }
    Ok(())
}
