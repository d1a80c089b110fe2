// Workers that claim from one table at the same time.
ghost use Rattle.std.specs.Prelude.{◌≡◌, ◌<◌, IfOk, length, true, false};
ghost use Rattle.vale_heap_rows.specs.Teams.{AreSeated};
ghost use Rattle.vale_table.specs.Means.{IsAt, seat_means};

use crate::worker::Worker;
use std::alloc::{AllocError, Global};
use std::thread;
use std::thread::Threads;
use vale_table::{Desk, Lender, Seat, SharedTable};

/// What each worker passes once, before its first claim.
pub trait Gate {
    fn pass(&self, worker: usize);
}

/// Claims until no frame is left, or there is no memory to note one.
pub fn claim_all<B: Drop + Send>(worker: &mut Worker<B>)
    ensures place { (seat_means worker.new.desk.seat).post.place ≡ (seat_means worker.old.desk.seat).post.place }
    ensures role { (seat_means worker.new.desk.seat).post.is_root ≡ (seat_means worker.old.desk.seat).post.is_root }
{
    for _ in 0..worker.desk.frames() {
        match worker.desk.claim() {
            Some(page) => {
                if worker.frames.push(page.frame()).is_err() {
                    return;
                }
            }
            None => return,
        }
    }
}

/// Splits a seat off for each worker.
pub fn enlist<'t, B: Drop + Send>(
    alloc: Global,
    table: &'t SharedTable<B>,
    seat: &mut Seat<B>,
    workers: usize,
) -> Result<Vec<Worker<'t, B>>, AllocError>
    requires table { IsAt seat.old table.now }
    requires root { (seat_means seat.old).post.is_root ≡ true }
    ensures table { IsAt seat.new table.now }
    ensures root { (seat_means seat.new).post.is_root ≡ true }
    ensures team { IfOk result (λ team. AreSeated table.now team.items) }
{
    let mut team = Vec::with_capacity(alloc, workers)?;
    for _ in 0..workers {
        let desk = Desk {
            table,
            seat: table.split(seat),
        };
        team.push(Worker {
            desk,
            frames: Vec::new(alloc),
        })?;
    }
    Ok(team)
}

/// All workers claim at the same time, each on a thread of its own.
pub fn claim_at_once<'t, B: Drop + Send, G: Gate + Sync, R: Threads + Sync>(
    rt: &R,
    gate: &G,
    table: &'t SharedTable<B>,
    team: &mut Vec<Worker<'t, B>>,
)
    requires workers { 0 < length team.old.items }
    requires team { AreSeated table.now team.old.items }
    ensures { AreSeated table.now team.new.items }
{
    let threads = team.len();
    thread::for_each_mut(
        rt,
        team.as_mut_slice(),
        threads,
        &|at, worker| {
            gate.pass(at);
            claim_all(worker);
        },
    );
}

/// Joins all seats, and answers the frames that the workers claimed.
pub fn dismiss<'t, B: Drop + Send>(
    alloc: Global,
    table: &'t SharedTable<B>,
    seat: &mut Seat<B>,
    mut team: Vec<Worker<'t, B>>,
) -> Result<Vec<u32>, AllocError>
    requires table { IsAt seat.old table.now }
    requires root { (seat_means seat.old).post.is_root ≡ true }
    requires team { AreSeated table.now team.items }
    ensures table { IsAt seat.new table.now }
    ensures root { (seat_means seat.new).post.is_root ≡ true }
{
    let mut all = Vec::new(alloc);
    while let Some(worker) = team.pop() {
        let Worker { desk, frames } = worker;
        let Desk {
            table: _,
            seat: other,
        } = desk;
        table.join(seat, other);
        all.extend_from_slice(&frames)?;
    }
    Ok(all)
}
