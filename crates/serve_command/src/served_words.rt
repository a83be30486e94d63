//! Connections served by the words of a command line.
ghost use Rattle.std.specs.Prelude.{◌≡◌, ◌≢◌, ◌≤◌, ◌↔◌, ◌⊎◌, ◌^◌, ◌-◌, [], All, None, Some, length, map, string_bytes};
ghost use Rattle.state_store.specs.NewShards.{IsNewKeeper};
ghost use Rattle.state_store.specs.Passes.{first_cookie, first_place, last_cookie, shards_of};
ghost use Rattle.stream_server.specs.Serving.{HasFailed, IfStored, IsServed, IsUntouched, NoneFailed};
ghost use Rattle.stream_server.specs.Workers.{means_of};
ghost use Rattle.serve_command.specs.ServeWords.{serve_of, serve_with_folder, workers_in};

use crate::words_of_serve::{says_workers, serve_words, serve_words_with_folder};
use asp_base::{Clock, Gate, status};
use keeper::Keeper;
use state_store::Notes;
use std::alloc::Global;
use std::rt::Clock as HostTime;
use std::sync::Wait;
use std::thread::Threads;
use stream_server::{Door, Served, Worker, serve_all, serve_all_noted};

/// What is answered where the words are not so, and nothing was served.
fn no_command<K: Keeper + Drop>(alloc: Global) -> Served<K>
    ensures status { result.status ≡ 2 }
    ensures store { result.store ≡ None }
    ensures passes { result.passes.items ≡ [] }
{
    Served {
        status: status::NO_COMMAND,
        store: None,
        passes: Vec::new(alloc),
    }
}

/// The workers serve the connections of their doors over a new store with a shard for each of the 1
/// to 64 keepers, where the words are `serve PORT WORKERS LIMIT` and there are WORKERS workers.
///
/// The status is 2 exactly where the words are none of `serve` with each number in its range, or
/// the workers are not as many; 6 where memory was wanting for the store, a pass or the list of
/// passes; 9 where a door failed, which ends that worker alone; 0 else. On 2 and 6 no door was
/// called and no pass is handed back. The words are judged without memory, so 2 never yields to 6.
pub fn serve<
    R: Threads + Wait + HostTime + Sync,
    D: Door + Send,
    K: Keeper + Drop + Send,
    C: Clock + Send,
    G: Gate + Sync,
>(
    rt: &R,
    alloc: Global,
    words: &[String],
    keepers: Vec<K>,
    workers: &mut [Worker<D, C, K>],
    gate: &G,
) -> Served<K>
    requires shards { (1 ≤ length keepers.items) × (length keepers.items ≤ 64) }
    requires keepers { All (IsNewKeeper K.told K.count) keepers.items }
    requires no_pass { All (λ w. w.pass ≡ None) workers.old }
    ensures status { (result.status ≡ 0) ⊎ ((result.status ≡ 2)
        ⊎ ((result.status ≡ 6) ⊎ (result.status ≡ 9))) }
    ensures words { (result.status ≡ 2)
        ↔ (workers_in (serve_of (map string_bytes words.now)) ≢ Some (length workers.old)) }

    // Where the words are not so no worker is changed, and where memory was wanting none did
    // anything.
    ensures unchanged { result.status ≡ 2 → workers.new ≡ workers.old }
    ensures refused { (result.status ≡ 2) ⊎ (result.status ≡ 6) → (result.store ≡ None)
        × (result.passes.items ≡ []) × IsUntouched workers.old workers.new }

    // Else each worker served the connections of its door, and all passes have one front.
    ensures served { (result.status ≡ 0) ⊎ (result.status ≡ 9) → IfStored result.store (λ store.
        (shards_of store ≡ length keepers.items) × (first_place store ≡ 0)
        × (first_cookie store ≡ 1) × (last_cookie store ≡ 2 ^ 63 - 1)
        × IsServed (means_of D.Door C.Clock) store
        workers.old workers.new result.passes.items) }
    ensures failed { result.status ≡ 9 → HasFailed workers.new }
    ensures none_failed { result.status ≡ 0 → NoneFailed workers.new }
{
    if !says_workers(serve_words(words), workers.len()) {
        return no_command(alloc);
    }
    serve_all(rt, alloc, keepers, workers, gate)
}

/// As `serve`, by the words `serve PORT WORKERS LIMIT FOLDER`, where FOLDER is any word that is not
/// empty; and `notes` is told of each entry that was left, once. The folder itself is the caller's
/// matter.
pub fn serve_noted<
    R: Threads + Wait + HostTime + Sync,
    D: Door + Send,
    K: Keeper + Drop + Send,
    C: Clock + Send,
    G: Gate + Sync,
    N: Notes + Sync,
>(
    rt: &R,
    alloc: Global,
    words: &[String],
    keepers: Vec<K>,
    workers: &mut [Worker<D, C, K>],
    gate: &G,
    notes: &N,
) -> Served<K>
    requires shards { (1 ≤ length keepers.items) × (length keepers.items ≤ 64) }
    requires keepers { All (IsNewKeeper K.told K.count) keepers.items }
    requires no_pass { All (λ w. w.pass ≡ None) workers.old }
    ensures status { (result.status ≡ 0) ⊎ ((result.status ≡ 2)
        ⊎ ((result.status ≡ 6) ⊎ (result.status ≡ 9))) }
    ensures words { (result.status ≡ 2)
        ↔ (workers_in (serve_with_folder (map string_bytes words.now))
        ≢ Some (length workers.old)) }

    // Where the words are not so no worker is changed, and where memory was wanting none did
    // anything.
    ensures unchanged { result.status ≡ 2 → workers.new ≡ workers.old }
    ensures refused { (result.status ≡ 2) ⊎ (result.status ≡ 6) → (result.store ≡ None)
        × (result.passes.items ≡ []) × IsUntouched workers.old workers.new }

    // Else each worker served the connections of its door, and all passes have one front.
    ensures served { (result.status ≡ 0) ⊎ (result.status ≡ 9) → IfStored result.store (λ store.
        (shards_of store ≡ length keepers.items) × (first_place store ≡ 0)
        × (first_cookie store ≡ 1) × (last_cookie store ≡ 2 ^ 63 - 1)
        × IsServed (means_of D.Door C.Clock) store
        workers.old workers.new result.passes.items) }
    ensures failed { result.status ≡ 9 → HasFailed workers.new }
    ensures none_failed { result.status ≡ 0 → NoneFailed workers.new }
{
    if !says_workers(serve_words_with_folder(words), workers.len()) {
        return no_command(alloc);
    }
    serve_all_noted(rt, alloc, keepers, workers, gate, notes)
}
