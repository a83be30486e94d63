//! Workers that serve over one store, and what they leave.
ghost use Rattle.std.specs.Prelude.{◌≡◌, ◌≢◌, ◌≤◌, ◌⊎◌, ◌^◌, ◌-◌, All, length, None, [], IsTrue, IsFalse};
ghost use Rattle.state_store.specs.NewShards.{IsNewKeeper};
ghost use Rattle.state_store.specs.Passes.{first_cookie, first_place, last_cookie, shards_of};
ghost use Rattle.stream_server.specs.Serving.{IfStored, IsServed, IsUntouched, HasFailed, NoneFailed};
ghost use Rattle.stream_server.specs.Workers.{means_of};

use crate::seating::{clear, finish, give_passes, take_passes};
use crate::worker::serve_part;
use crate::{Door, Worker};
use asp_base::{Clock, Gate, status};
use asp_messages::MOST_COOKIE;
use keeper::Keeper;
use state_store::{FreshStore, NoNotes, Notes, Pass, Store, StoreDesk};
use std::alloc::Global;
use std::rt::Clock as HostTime;
use std::sync::Wait;
use std::thread::Threads;
use turnstile::Stands;

/// What serving leaves: how it ended, the store, and the passes under which the workers served.
#[derive(Drop)]
pub struct Served<K: Keeper>
where
    StoreDesk<K>: Stands,
{
    /// 0, or 6 where memory was wanting and no connection was taken, or 9 where a door failed.
    pub status: u8,
    /// The store, `None` where none was made.
    pub store: Option<Store<K>>,
    /// The workers' passes, in order. Each knows the one history of each shard.
    pub passes: Vec<Pass<K>>,
}

/// What is answered where memory was wanting, and nothing was served.
fn refused<K: Keeper + Drop>(alloc: Global) -> Served<K>
    ensures status { result.status ≡ 6 }
    ensures store { result.store ≡ None }
    ensures passes { result.passes.items ≡ [] }
{
    Served {
        status: status::NO_MEMORY,
        store: None,
        passes: Vec::new(alloc),
    }
}

/// Whether the door of some worker failed.
fn has_failed<D, C, K: Keeper + Drop>(workers: &[Worker<D, C, K>]) -> bool
    ensures some { IsTrue result → HasFailed workers.now }
    ensures none { IsFalse result → NoneFailed workers.now }
{
    for k in 0..workers.len() {
        let failed = workers[k].failed;
        if failed {
            return true;
        }
    }
    false
}

/// The workers serve over a new store with a shard for each of 1 to 64 keepers, cookies from 1 and
/// places from 0. Each of the 1 to 64 workers, in a thread of its own where one can be had, serves
/// the connections of its door one after the other, and sweeps once after each. At the end all
/// passes have met, and one of them is sealed. `notes` is told of each entry that was left, once.
///
/// All memory but that of the connections and sweeps is taken before the first connection. The
/// status is 6 where that was wanting, and then no connection was taken; 9 where a door failed,
/// which ends that worker alone; 0 else.
pub fn serve_all_noted<
    R: Threads + Wait + HostTime + Sync,
    D: Door + Send,
    K: Keeper + Drop + Send,
    C: Clock + Send,
    G: Gate + Sync,
    N: Notes + Sync,
>(
    rt: &R,
    alloc: Global,
    keepers: Vec<K>,
    workers: &mut [Worker<D, C, K>],
    gate: &G,
    notes: &N,
) -> Served<K>
    requires shards { (1 ≤ length keepers.items) × (length keepers.items ≤ 64) }
    requires keepers { All (IsNewKeeper K.told K.count) keepers.items }
    requires workers { (1 ≤ length workers.old) × (length workers.old ≤ 64) }
    requires no_pass { All (λ w. w.pass ≡ None) workers.old }
    ensures status { (result.status ≡ 0) ⊎ ((result.status ≡ 6) ⊎ (result.status ≡ 9)) }

    // Where memory was wanting no worker did anything.
    ensures no_memory { result.status ≡ 6 → (result.store ≡ None) × (result.passes.items ≡ [])
        × IsUntouched workers.old workers.new }

    // Else each worker served the connections of its door, and all passes have one front.
    ensures served { result.status ≢ 6 → IfStored result.store (λ store.
        (shards_of store ≡ length keepers.items) × (first_place store ≡ 0)
        × (first_cookie store ≡ 1) × (last_cookie store ≡ 2 ^ 63 - 1)
        × IsServed (means_of D.Door C.Clock) store
        workers.old workers.new result.passes.items) }
    ensures failed { result.status ≡ 9 → HasFailed workers.new }
    ensures none_failed { result.status ≡ 0 → NoneFailed workers.new }
{
    let Ok(room) = Vec::with_capacity(alloc, workers.len()) else {
        return refused(alloc);
    };
    let Ok(made) = Store::new(rt, alloc, keepers, 1, MOST_COOKIE, 0) else {
        return refused(alloc);
    };
    let FreshStore { store, mut roll } = made;
    let Ok(()) = give_passes(rt, alloc, &store, &mut roll, workers) else {
        clear(workers);
        return refused(alloc);
    };
    serve_part(rt, alloc, &store, workers, gate, notes);
    let mut passes = take_passes(workers, room);
    finish(rt, &store, roll, &mut passes);
    let status = if has_failed(workers) {
        status::ACCEPT_FAULT
    } else {
        status::DONE
    };
    Served {
        status,
        store: Some(store),
        passes,
    }
}

/// As `serve_all_noted`, and tells nobody.
pub fn serve_all<
    R: Threads + Wait + HostTime + Sync,
    D: Door + Send,
    K: Keeper + Drop + Send,
    C: Clock + Send,
    G: Gate + Sync,
>(rt: &R, alloc: Global, keepers: Vec<K>, workers: &mut [Worker<D, C, K>], gate: &G) -> Served<K>
    requires shards { (1 ≤ length keepers.items) × (length keepers.items ≤ 64) }
    requires keepers { All (IsNewKeeper K.told K.count) keepers.items }
    requires workers { (1 ≤ length workers.old) × (length workers.old ≤ 64) }
    requires no_pass { All (λ w. w.pass ≡ None) workers.old }
    ensures status { (result.status ≡ 0) ⊎ ((result.status ≡ 6) ⊎ (result.status ≡ 9)) }

    // Where memory was wanting no worker did anything.
    ensures no_memory { result.status ≡ 6 → (result.store ≡ None) × (result.passes.items ≡ [])
        × IsUntouched workers.old workers.new }

    // Else each worker served the connections of its door, and all passes have one front.
    ensures served { result.status ≢ 6 → IfStored result.store (λ store.
        (shards_of store ≡ length keepers.items) × (first_place store ≡ 0)
        × (first_cookie store ≡ 1) × (last_cookie store ≡ 2 ^ 63 - 1)
        × IsServed (means_of D.Door C.Clock) store
        workers.old workers.new result.passes.items) }
    ensures failed { result.status ≡ 9 → HasFailed workers.new }
    ensures none_failed { result.status ≡ 0 → NoneFailed workers.new }
{
    serve_all_noted(rt, alloc, keepers, workers, gate, &NoNotes)
}
