// A heap that is called by names.
ghost use Rattle.std.specs.Prelude.{◌≡◌, ◌<◌, [], Contains, IfOk, length, map};
ghost use Rattle.vale_table.specs.Lending.{IsFull, StillOut};
ghost use Rattle.vale_table.specs.Plain.{OpensAt, frames_of, out_of};
ghost use Rattle.vale_heap.specs.HeapState.{opened};
ghost use Rattle.vale_heap.specs.Standing.{Denotes, DenoteAll};
ghost use Rattle.vale_heap_calls.specs.Calls.{value_of, IsGiven, AllGiven};
ghost use Rattle.vale_heap_calls.specs.Tied.{IsTied, CanCall, CanCallAll, Follows, FollowAll, HasCause};

use crate::call::{Call, Named, Reply, Values};
use std::alloc::Global;
use vale_base::{Kind, Memory};
use vale_heap::{Body, Cell, Cells, Heap, Place};
use vale_table::PlainTable;

/// A heap, its table, and the place of each name.
#[derive(Drop)]
pub struct Session {
    /// The heap.
    pub heap: Heap,
    /// Where it gets its pages.
    pub table: PlainTable<Body>,
    /// The places of the names, in order.
    pub places: Vec<Place>,
}

fn cell_of(places: &[Place], value: Named) -> Cell
    requires { IsGiven (length places.now) value }
    ensures { Denotes places.now result (value_of value) }
{
    match value {
        Named::Int(number) => Cell::Int(number),
        Named::Truth(truth) => Cell::Truth(truth),
        Named::Text(text) => Cell::Text(text),
        Named::Own(name) => Cell::Own(places[name]),
        Named::Ref(name) => Cell::Ref(places[name]),
        Named::Iso(name) => Cell::Iso(places[name]),
    }
}

fn cells_of(alloc: Global, places: &[Place], values: Values) -> Result<Cells, Memory>
    requires { AllGiven (length places.now) values }
    ensures { IfOk result (λ cells. DenoteAll places.now cells (map value_of values)) }
{
    let mut cells = Vec::new(alloc);
    for value in values.into_vec() {
        cells.push(cell_of(places, value))?;
    }
    Ok(Cells::from_vec(cells))
}

impl Session {
    /// A session with an empty heap, which has room for pages of the frames below `frames` and for regions that are `depth` deep,
    /// and with a table of these frames, all free, at the generation `first`.
    pub fn open(alloc: Global, frames: u32, depth: u32, first: u64) -> Result<Session, Memory>
        ensures tied { IfOk result (λ session. IsTied session.heap session.table session.places.items (record { world = []; regions = 1 })) }
        ensures depth { IfOk result (λ session. session.heap.depth ≡ depth) }
        ensures heap { IfOk result (λ session. session.heap ≡ opened frames depth) }
        ensures table { IfOk result (λ session. OpensAt session.table frames first) }
    {
        Ok(Session {
            heap: Heap::open(alloc, frames, depth)?,
            table: PlainTable::open(alloc, frames, first)?,
            places: Vec::new(alloc),
        })
    }

    fn make(&mut self, alloc: Global, kind: Kind, values: Values) -> Result<Reply, Memory>
        requires { CanCall self.old.heap self.old.table self.old.places.items (Call.Make kind values) }
        ensures follows { IfOk result (Follows self.old.heap self.new.heap self.old.table self.new.table self.old.places.items self.new.places.items (Call.Make kind values)) }
        ensures depth { self.new.heap.depth ≡ self.old.heap.depth }
        ensures cause { IfOk result (HasCause self.old.heap self.new.table) }
        ensures known { StillOut (out_of self.old.table) (out_of self.new.table) }
        ensures frames { frames_of self.new.table ≡ frames_of self.old.table }
    {
        let cells = cells_of(alloc, &self.places, values)?;
        match self.heap.make(&mut self.table, Body { kind, cells }) {
            Ok(place) => {
                self.places.push(place)?;
                return Ok(Reply::Made);
            }
            Err(_) => return Ok(Reply::NoPage),
        }
    }

    fn look(&self, name: usize) -> Reply
        requires { CanCall self.now.heap self.now.table self.now.places.items (Call.Look name) }
        ensures follows { Follows self.now.heap self.now.heap self.now.table self.now.table self.now.places.items self.now.places.items (Call.Look name) result }
        ensures cause { HasCause self.now.heap self.now.table result }
    {
        match self.heap.look(None, self.places[name]) {
            Some(body) => Reply::Alive(body.kind),
            None => Reply::Dead,
        }
    }

    fn end(&mut self, name: usize) -> Reply
        requires { CanCall self.old.heap self.old.table self.old.places.items (Call.End name) }
        ensures follows { Follows self.old.heap self.new.heap self.old.table self.new.table self.old.places.items self.new.places.items (Call.End name) result }
        ensures depth { self.new.heap.depth ≡ self.old.heap.depth }
        ensures cause { HasCause self.old.heap self.new.table result }
        ensures known { StillOut (out_of self.old.table) (out_of self.new.table) }
        ensures frames { frames_of self.new.table ≡ frames_of self.old.table }
    {
        match self.heap.end(self.places[name]) {
            Some(body) => Reply::Alive(body.kind),
            None => Reply::Dead,
        }
    }

    fn change(&mut self, alloc: Global, name: usize, values: Values) -> Result<Reply, Memory>
        requires { CanCall self.old.heap self.old.table self.old.places.items (Call.Change name values) }
        ensures follows { IfOk result (Follows self.old.heap self.new.heap self.old.table self.new.table self.old.places.items self.new.places.items (Call.Change name values)) }
        ensures depth { self.new.heap.depth ≡ self.old.heap.depth }
        ensures cause { IfOk result (HasCause self.old.heap self.new.table) }
        ensures known { StillOut (out_of self.old.table) (out_of self.new.table) }
        ensures frames { frames_of self.new.table ≡ frames_of self.old.table }
    {
        let cells = cells_of(alloc, &self.places, values)?;
        match self.heap.change(self.places[name]) {
            Some(body) => {
                body.cells = cells;
                Ok(Reply::Alive(body.kind))
            }
            None => Ok(Reply::Dead),
        }
    }

    /// Makes a call. `NoPage` comes only where no page of the innermost region and no spare page has room, and all frames are out.
    pub fn call(&mut self, alloc: Global, call: Call) -> Result<Reply, Memory>
        requires { CanCall self.old.heap self.old.table self.old.places.items call }
        ensures follows { IfOk result (Follows self.old.heap self.new.heap self.old.table self.new.table self.old.places.items self.new.places.items call) }
        ensures depth { self.new.heap.depth ≡ self.old.heap.depth }
        ensures cause { IfOk result (HasCause self.old.heap self.new.table) }
        ensures known { StillOut (out_of self.old.table) (out_of self.new.table) }
        ensures frames { frames_of self.new.table ≡ frames_of self.old.table }
    {
        match call {
            Call::Make(kind, values) => return self.make(alloc, kind, values),
            Call::Look(name) => return Ok(self.look(name)),
            Call::Change(name, values) => return self.change(alloc, name, values),
            Call::End(name) => return Ok(self.end(name)),
            Call::FreezeIn => self.heap.freeze_in(),
            Call::FreezeMerge => self.heap.freeze_merge(),
            Call::FreezeKeep(name) => self.heap.freeze_keep(self.places[name]),
            Call::FreezeClear => self.heap.freeze_clear(),
            Call::Merge(name) => self.heap.merge(self.places[name]),
        }
        Ok(Reply::Done)
    }

    /// Makes calls one after the other, and answers what they answered. The answers are those of a heap of names, in which each
    /// object that is made gets the next name, and no name comes back. After a `NoPage` all frames are out.
    pub fn run(&mut self, alloc: Global, calls: Vec<Call>) -> Result<Vec<Reply>, Memory>
        requires { CanCallAll self.old.heap self.old.table self.old.places.items calls.items }
        ensures follows { IfOk result (λ replies. FollowAll self.old.heap self.new.heap self.old.table self.new.table self.old.places.items self.new.places.items calls.items replies.items) }
        ensures depth { self.new.heap.depth ≡ self.old.heap.depth }
        ensures full { IfOk result (λ replies. Contains replies.items Reply.NoPage → IsFull (frames_of self.new.table) (out_of self.new.table)) }
    {
        let mut replies = Vec::new(alloc);
        for call in calls {
            let reply = self.call(alloc, call)?;
            replies.push(reply)?;
        }
        Ok(replies)
    }
}
