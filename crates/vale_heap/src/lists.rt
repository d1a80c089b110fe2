// Lists that share their items. An item is on one list or on none. To move an item costs the same, however long the lists are.
ghost use Rattle.std.specs.Prelude.{◌≡◌, ◌≢◌, ℕ, ◌+◌, ◌-◌, ◌<◌, ◌≤◌, ◌^◌, List, length, Option, Some, None, IfOk, IfSome, IfNone, replicate, slice_index, slice_set, vec_capacity};
ghost use Rattle.vale_heap.specs.ListState.{list_at, unlinked_next, unlinked_previous, linked_next, linked_previous};

use std::alloc::{AllocError, Global};
use std::marker::Model;

/// Items on lists.
#[derive(Drop)]
pub struct Lists {
    // The node after each node, and the one before it. The nodes are the items and then the heads of the lists; a head stands
    // before the first item of its list and after the last. An item that is on no list is alone.
    next: Vec<usize>,
    previous: Vec<usize>,
    // The list of each item.
    on: Vec<Option<usize>>,
    lists: usize,
    most: usize,
}

impl Model for Lists {
    ghost use Rattle.std.specs.Prelude.{vec_capacity};
    ghost use Rattle.vale_heap.specs.ListState.{ListState, IsRinged, IsRoomy};

    ghost Value = { ListState };

    ghost view = { λ l. record { on = l.on.items; lists = l.lists; most = l.most } };

    ghost invariant = { λ l. IsRinged l.next.items l.previous.items l.on.items l.lists × IsRoomy (vec_capacity l.next) (vec_capacity l.previous) (record { on = l.on.items; lists = l.lists; most = l.most }) };
}

// Nodes from 0 on, each alone.
fn alone(alloc: Global, nodes: usize, most: usize) -> Result<Vec<usize>, AllocError>
    requires { nodes ≤ most }
    ensures each { IfOk result (λ v. (node : ℕ) → node < nodes → slice_index v.items node ≡ node) }
    ensures many { IfOk result (λ v. length v.items ≡ nodes) }
    ensures room { IfOk result (λ v. most ≤ vec_capacity v) }
{
    let mut all = Vec::with_capacity(alloc, most)?;
    for node in 0..nodes {
        all.push(node)?;
    }
    Ok(all)
}

// Items that are on no list.
fn nowhere(alloc: Global, items: usize) -> Result<Vec<Option<usize>>, AllocError>
    ensures { IfOk result (λ v. v.items ≡ replicate items None) }
{
    let mut on = Vec::with_capacity(alloc, items)?;
    for _item in 0..items {
        on.push(None)?;
    }
    Ok(on)
}

// Swaps what comes after two nodes. Two rings become one, or one becomes two.
fn splice(next: &mut Vec<usize>, previous: &mut Vec<usize>, one: usize, other: usize)
    requires one { one < length next.old.items }
    requires other { other < length next.old.items }
    requires one_before { slice_index next.old.items one < length previous.old.items }
    requires other_before { slice_index next.old.items other < length previous.old.items }
    ensures next { next.new.items ≡ slice_set (slice_set next.old.items one (slice_index next.old.items other)) other (slice_index next.old.items one) }
    ensures previous { previous.new.items ≡ slice_set (slice_set previous.old.items (slice_index next.old.items other) one) (slice_index next.old.items one) other }
    ensures next_room { vec_capacity next.new ≡ vec_capacity next.old }
    ensures previous_room { vec_capacity previous.new ≡ vec_capacity previous.old }
{
    let after_one = next[one];
    let after_other = next[other];
    next[one] = after_other;
    next[other] = after_one;
    previous[after_other] = one;
    previous[after_one] = other;
}

// Moves a node to after another one. What was before it is before what was after it then.
#[inline(always)]
fn relink(next: &mut [usize], previous: &mut [usize], item: usize, head: usize)
    requires item { item < length next.old }
    requires item_before { item < length previous.old }
    requires head { head < length next.old }
    requires before { slice_index previous.old item < length next.old }
    requires after { slice_index next.old item < length previous.old }
    requires first { slice_index (unlinked_next next.old previous.old item) head < length previous.old }
    ensures next { next.new ≡ linked_next (unlinked_next next.old previous.old item) item head }
    ensures previous { previous.new ≡ linked_previous (unlinked_next next.old previous.old item) (unlinked_previous next.old previous.old item) item head }
{
    let before = previous[item];
    let after = next[item];
    next[before] = after;
    previous[after] = before;
    let first = next[head];
    next[head] = item;
    next[item] = first;
    previous[item] = head;
    previous[first] = item;
}

impl Lists {
    /// Lists without items, and with room for `most` lists.
    pub fn open(alloc: Global, items: usize, lists: usize, most: usize) -> Result<Lists, AllocError>
        requires few { lists ≤ most }
        requires fit { items + most < 2 ^ 63 }
        ensures { IfOk result (λ l. l ≡ record { on = replicate items None; lists = lists; most = most }) }
    {
        let next = alone(alloc, items + lists, items + most)?;
        let previous = alone(alloc, items + lists, items + most)?;
        let on = nowhere(alloc, items)?;
        Ok(Lists {
            next,
            previous,
            on,
            lists,
            most,
        })
    }

    /// The first item of a list. There is none exactly where no item is on the list.
    #[inline(always)]
    pub fn first(&self, list: usize) -> Option<usize>
        requires { list < self.now.lists }
        ensures some { IfSome result (λ item. (item < length self.now.on) × (list_at self.now item ≡ Some list)) }
        ensures none { IfNone result ((item : ℕ) → item < length self.now.on → list_at self.now item ≢ Some list) }
    {
        let head = self.on.len() + list;
        let item = self.next[head];
        if item == head { None } else { Some(item) }
    }

    /// Takes an item off its list, if it is on one.
    #[inline(never)]
    pub fn take_off(&mut self, item: usize)
        requires { item < length self.old.on }
        ensures { self.new ≡ record self.old { on = slice_set self.old.on item None } }
    {
        let before = self.previous[item];
        splice(&mut self.next, &mut self.previous, before, item);
        self.on[item] = None;
    }

    // Moves an item to the front of a list.
    #[inline(always)]
    fn bring(&mut self, item: usize, list: usize)
        requires item { item < length self.old.on }
        requires list { list < self.old.lists }
        ensures { self.new ≡ record self.old { on = slice_set self.old.on item (Some list) } }
    {
        let head = self.on.len() + list;
        relink(&mut self.next, &mut self.previous, item, head);
        self.on[item] = Some(list);
    }

    /// Moves an item to the front of a list, or off every list.
    #[inline(always)]
    pub fn move_to(&mut self, item: usize, list: Option<usize>)
        requires item { item < length self.old.on }
        requires list { IfSome list (λ l. l < self.old.lists) }
        ensures { self.new ≡ record self.old { on = slice_set self.old.on item list } }
    {
        match list {
            Some(list) => self.bring(item, list),
            None => self.take_off(item),
        }
    }

    /// Adds a list without items, the last one.
    pub fn add(&mut self)
        requires { self.old.lists < self.old.most }
        ensures { self.new ≡ record self.old { lists = self.old.lists + 1 } }
    {
        let head = self.next.len();
        match self.next.push(head) {
            Ok(()) => {}
            Err(_) => unreachable!(),
        }
        match self.previous.push(head) {
            Ok(()) => {}
            Err(_) => unreachable!(),
        }
        self.lists += 1;
    }

    /// Removes the last list, which has no items.
    pub fn remove_last(&mut self)
        requires some { 0 < self.old.lists }
        requires none { (item : ℕ) → item < length self.old.on → list_at self.old item ≢ Some (self.old.lists - 1) }
        ensures { self.new ≡ record self.old { lists = self.old.lists - 1 } }
    {
        let _head = self.next.pop();
        let _head = self.previous.pop();
        self.lists -= 1;
    }
}
