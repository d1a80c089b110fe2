// A heap beside the table that lends to it.
ghost use Rattle.vale_heap_rows.specs.LentHeap.{IsKept, IsLent};

use std::alloc::Global;
use vale_base::Memory;
use vale_heap::{Body, Cells, Heap, NoPage, Place};
use vale_table::PlainTable;

/// A heap and its table. It has no isolate.
#[derive(Drop)]
pub struct LentHeap {
    heap: Heap,
    table: PlainTable<Body>,
    // How many regions are open inside the first.
    freezes: u32,
    depth: u32,
    ghost is_lent: { IsLent heap table freezes depth },
}

impl LentHeap {
    /// An empty heap of `frames` frames, whose pages are of the generation `first`, for regions that are `depth` deep.
    pub fn open(alloc: Global, frames: u32, depth: u32, first: u64) -> Result<LentHeap, Memory> {
        Ok(LentHeap {
            heap: Heap::open(alloc, frames, depth)?,
            table: PlainTable::open(alloc, frames, first)?,
            freezes: 0,
            depth,
        })
    }

    /// Makes an object in the innermost region.
    pub fn make(&mut self, body: Body) -> Result<Place, NoPage> {
        self.heap.make(&mut self.table, body)
    }

    /// The body at a place, if its object lives.
    pub fn look(&self, at: Place) -> Option<&Body> {
        if at.slot >= 64 {
            return None;
        }
        self.heap.look(None, at)
    }

    /// Gives the object at a place other cells. It answers whether the object lives.
    pub fn change(&mut self, at: Place, cells: Cells) -> bool {
        if at.slot >= 64 {
            return false;
        }
        match self.heap.change(at) {
            Some(body) => {
                body.cells = cells;
                true
            }
            None => false,
        }
    }

    /// Ends the object at a place, and answers its body if it lived.
    pub fn end(&mut self, at: Place) -> Option<Body> {
        if at.slot >= 64 {
            return None;
        }
        self.heap.end(at)
    }

    /// Opens a region. It answers whether there was room for one more.
    pub fn freeze_in(&mut self) -> bool {
        if self.freezes >= self.depth.saturating_sub(1) {
            return false;
        }
        self.heap.freeze_in();
        self.freezes += 1;
        true
    }

    /// Closes the innermost region, whose objects join the one around it. It answers whether one was open.
    pub fn freeze_merge(&mut self) -> bool {
        if self.freezes == 0 {
            return false;
        }
        self.heap.freeze_merge();
        self.freezes -= 1;
        true
    }

    /// Closes the innermost region, whose objects die. It answers whether one was open.
    pub fn freeze_clear(&mut self) -> bool {
        if self.freezes == 0 {
            return false;
        }
        self.heap.freeze_clear();
        self.freezes -= 1;
        true
    }

    /// Makes an object, and closes the innermost region, which becomes an isolate with this object as its root. `None` comes
    /// where only the first region is open, or no page is free.
    pub fn freeze_keep(self, body: Body) -> Option<KeptHeap> {
        let LentHeap {
            mut heap,
            mut table,
            freezes,
            depth,
        } = self;
        if freezes == 0 {
            return None;
        }
        let Ok(root) = heap.make(&mut table, body) else {
            return None;
        };
        // The root has to be alive in the region.
        let Some(_found) = heap.look(None, root) else {
            return None;
        };
        heap.freeze_keep(root);
        Some(KeptHeap {
            heap,
            table,
            freezes: freezes - 1,
            depth,
            root,
        })
    }
}

/// A heap and its table. It has one isolate.
#[derive(Drop)]
pub struct KeptHeap {
    heap: Heap,
    table: PlainTable<Body>,
    // How many regions are open inside the first.
    freezes: u32,
    depth: u32,
    root: Place,
    ghost is_kept: { IsKept heap table freezes depth root },
}

impl KeptHeap {
    /// The place of the isolate's root.
    pub fn root(&self) -> Place {
        self.root
    }

    /// The body at a place, if its object lives.
    pub fn look(&self, at: Place) -> Option<&Body> {
        if at.slot >= 64 {
            return None;
        }
        self.heap.look(None, at)
    }

    /// Joins the isolate to the innermost region.
    pub fn merge(self) -> LentHeap {
        let KeptHeap {
            mut heap,
            table,
            freezes,
            depth,
            root,
        } = self;
        heap.merge(root);
        LentHeap {
            heap,
            table,
            freezes,
            depth,
        }
    }
}
