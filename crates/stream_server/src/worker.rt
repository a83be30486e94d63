//! Workers, each of which serves the connections of its door, side by side.
ghost use Rattle.std.specs.Prelude.{◌≡◌, All, None, false, length};
ghost use Rattle.state_store.specs.Passes.{IsPassOf, caller_of};
ghost use Rattle.stream_server.specs.Services.{HasShift};
ghost use Rattle.stream_server.specs.Workers.{HasPassOf, HasWorked, HaveWorked, means_of, post_with};

use crate::{Door, serve_stream_noted};
use asp_base::{Clock, Failed, Gate};
use keeper::Keeper;
use state_store::{Notes, Pass, Store, StoreDesk};
use std::alloc::Global;
use std::rt::Clock as HostTime;
use std::sync::Wait;
use std::thread::{Threads, for_each_mut};
use turnstile::Stands;

/// A worker: its door, its clock and, while it serves, its pass.
#[derive(Drop)]
pub struct Worker<D, C, K: Keeper>
where
    StoreDesk<K>: Stands,
{
    /// Where its connections come from.
    pub door: D,
    /// Where its moments come from.
    pub clock: C,
    /// The right to call the store, `None` before and after it serves.
    pub pass: Option<Pass<K>>,
    /// Whether its door failed when it served last.
    pub failed: bool,
}

impl<D, C, K: Keeper> Worker<D, C, K> {
    /// A worker that has not served yet.
    pub fn new(door: D, clock: C) -> Worker<D, C, K>
        ensures door { result.door ≡ door }
        ensures clock { result.clock ≡ clock }
        ensures pass { result.pass ≡ None }
        ensures failed { result.failed ≡ false }
    {
        Worker {
            door,
            clock,
            pass: None,
            failed: false,
        }
    }
}

/// Serves the connections of a door, one after the other, gives each back, and sweeps once after
/// each, at the moment that the clock gives next. It goes on whatever the end of a connection or of
/// a sweep was, until no connection is to come, or the door failed; it answers whether it failed.
/// `notes` is told of each entry that was left.
fn serve_door<R: Wait + HostTime, D: Door, C: Clock, K: Keeper + Drop, G: Gate, N: Notes>(
    rt: &R,
    alloc: Global,
    store: &Store<K>,
    door: &mut D,
    clock: &mut C,
    pass: &mut Pass<K>,
    gate: &G,
    notes: &N,
) -> bool
    requires pass { IsPassOf store.now pass.old }
    ensures pass { IsPassOf store.now pass.new }
    ensures caller { caller_of pass.new ≡ caller_of pass.old }
    ensures served { HasShift K.told result
        (post_with (means_of D.Door C.Clock) store.now
        door.old clock.old pass.old)
        (post_with (means_of D.Door C.Clock) store.now
        door.new clock.new pass.new) }
{
    for _ in rt.forever() {
        match door.next(rt) {
            Ok(Some(conn)) => {
                let mut conn = conn;
                let end = serve_stream_noted(
                    rt,
                    alloc,
                    store,
                    pass,
                    &mut conn.input,
                    &mut conn.output,
                    clock,
                    gate,
                    notes,
                );
                door.done(conn, end);
                let t = clock.now(rt);
                store.sweep_noted(rt, pass, t, gate, notes);
            }
            Ok(None) => return false,
            Err(Failed) => return true,
        }
    }
    unreachable!()
}

/// Serves the connections of the worker's door under the worker's pass.
fn serve_worker<R: Wait + HostTime, D: Door, C: Clock, K: Keeper + Drop, G: Gate, N: Notes>(
    rt: &R,
    alloc: Global,
    store: &Store<K>,
    worker: &mut Worker<D, C, K>,
    gate: &G,
    notes: &N,
)
    requires { HasPassOf store.now worker.old.pass }
    ensures { HasWorked (means_of D.Door C.Clock)
        store.now worker.old worker.new }
{
    if let Some(pass) = &mut worker.pass {
        let failed = serve_door(
            rt,
            alloc,
            store,
            &mut worker.door,
            &mut worker.clock,
            pass,
            gate,
            notes,
        );
        worker.failed = failed;
    }
}

/// The workers serve the connections of their doors, each in a thread of its own where one can be
/// had.
pub(crate) fn serve_part<
    R: Threads + Wait + HostTime + Sync,
    D: Door + Send,
    C: Clock + Send,
    K: Keeper + Drop + Send,
    G: Gate + Sync,
    N: Notes + Sync,
>(rt: &R, alloc: Global, store: &Store<K>, workers: &mut [Worker<D, C, K>], gate: &G, notes: &N)
    requires { All (λ w. HasPassOf store.now w.pass) workers.old }
    ensures as_long { length workers.new ≡ length workers.old }
    ensures worked { HaveWorked (means_of D.Door C.Clock)
        store.now workers.old workers.new }
{
    let threads = workers.len();
    if threads == 0 {
        return;
    }
    let serve = |_place: usize, worker: &mut Worker<D, C, K>|
        requires { HasPassOf store.now worker.now.pass }
        ensures { HasWorked (means_of D.Door C.Clock)
            store.entry.now worker.entry.now worker.exit.now }
    { serve_worker(rt, alloc, store, worker, gate, notes) };
    for_each_mut(rt, workers, threads, &serve);
}
