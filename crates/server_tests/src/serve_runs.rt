//! Workers that serve, also by the words of a command line, and what is found in their store then.
ghost use Rattle.std.specs.Prelude.{◌≡◌, ◌≢◌, ◌≤◌, ◌^◌, ◌⊎◌, [], All, None, length, IfOk, IfSome, IsTrue};
ghost use Rattle.state_store.specs.Passes.{IsPassOf};

use crate::memory::{DONE, MemoryWorker, joined, keepers, worker};
use asp_base::{Bytes, Clock, Gate, OpenGate};
use asp_messages::{Ask, Reply, Request};
use keeper::MapKeeper;
use serve_command::serve;
use state_store::{Answer, Pass, Store};
use std::alloc::Global;
use std::process::Abort;
use std::rt::Clock as HostTime;
use std::sync::Wait;
use std::test::Fail;
use std::thread::Threads;
use stream_server::{Door, Served, StreamEnd, Worker, serve_all};

/// What is found under a letter: the content, or nothing, and how many entries the history of its
/// shard had.
pub type Found = (u8, Option<&'static [u8]>, u64);

/// How many shards there are, which calls of the first door fail, the status, and what is found.
struct Case {
    shards: u64,
    fails: &'static [u64],
    status: u8,
    found: &'static [Found],
}

const CASES: [Case; 3] = [
    // A write in each of two shards, and two sweeps, which look once in each shard.
    Case {
        shards: 8,
        fails: &[],
        status: 0,
        found: &[
            (b'a', None, 2),
            (b'b', Some(b"x"), 3),
            (b'c', None, 2),
            (b'd', Some(b"y"), 3),
            (b'e', None, 2),
            (b'f', None, 2),
            (b'g', None, 2),
            (b'h', None, 2),
        ],
    },
    // The first door fails, and the other worker serves.
    Case {
        shards: 8,
        fails: &[0],
        status: 9,
        found: &[(b'a', None, 1), (b'b', None, 1), (b'd', Some(b"y"), 2)],
    },
    Case {
        shards: 1,
        fails: &[],
        status: 0,
        found: &[(b'b', Some(b"x"), 4), (b'd', Some(b"y"), 5)],
    },
];

pub fn words_of(alloc: Global, text: &str) -> Result<Vec<String>, Fail> {
    let mut words = Vec::new(alloc);
    for word in text.split(' ') {
        words.push(String::from_str(alloc, word)?)?;
    }
    Ok(words)
}

/// Two workers with a connection each, of which the one writes `/b` and the other `/d`.
fn two_workers(alloc: Global, fails: &[u64]) -> Result<Vec<MemoryWorker>, Fail>
    ensures { IfOk result (λ v. (length v.items ≡ 2) × All (λ w. w.pass ≡ None) v.items) }
{
    let b = joined(alloc, &["PUT /b HTTP/1.1\r\nContent-Length: 1\r\n\r\nx"])?;
    let d = joined(alloc, &["PUT /d HTTP/1.1\r\nContent-Length: 1\r\n\r\ny"])?;
    let first = worker(alloc, b, fails)?;
    let second = worker(alloc, d, &[])?;
    Ok(vec![in alloc; first, second]?)
}

/// Whether the worker's door has so many connections back, each closed and answered `Done`.
fn has_served(worker: &MemoryWorker, connections: usize) -> bool {
    let given = worker.door.given_back();
    given.len() == connections
        && given.iter().all(|given| {
            given.end == StreamEnd::Closed && given.conn.output.taken() == DONE.as_bytes()
        })
}

/// Reads the item under the letter at the moment. `None` is want of memory.
pub fn read_item<R: Wait>(
    rt: &R,
    alloc: Global,
    store: &Store<MapKeeper>,
    pass: &mut Pass<MapKeeper>,
    letter: u8,
    t: u64,
) -> Option<Answer>
    requires pass { IsPassOf store.now pass.old }
    requires moment { t ≤ 2 ^ 62 }
    ensures { IsPassOf store.now pass.new }
{
    let key = Bytes::copy(alloc, &[b'/', letter]).ok()?;
    let request = Request {
        key,
        ask: Ask::Read,
    };
    Some(store.ask(rt, pass, request, t, &OpenGate))
}

/// Reads the item under the letter, and finds what is wanted. `None` is want of memory.
fn find<R: Abort + Wait>(
    rt: &R,
    alloc: Global,
    store: &Store<MapKeeper>,
    pass: &mut Pass<MapKeeper>,
    found: &Found,
) -> Option<()>
    requires { IsPassOf store.now pass.old }
    ensures { IsPassOf store.now pass.new }
{
    let (letter, content, place) = *found;
    let answer = read_item(rt, alloc, store, pass, letter, 0)?;
    assert_eq!(rt; answer.place, Some(place), "{letter}");
    match (&answer.reply, content) {
        (Reply::Found { body, .. }, Some(content)) => assert!(rt; body.as_slice() == content),
        (reply, _) => assert!(rt; *reply == Reply::Missing && content.is_none(), "{letter}"),
    }
    Some(())
}

/// Finds all that is wanted, under one of the passes. `None` where there is no pass or no memory.
pub fn find_all<R: Abort + Wait>(
    rt: &R,
    alloc: Global,
    store: &Store<MapKeeper>,
    passes: Vec<Pass<MapKeeper>>,
    found: &[Found],
) -> Option<()>
    requires { All (IsPassOf store.now) passes.items }
{
    let mut passes = passes;
    let mut pass = passes.pop()?;
    for found in found {
        find(rt, alloc, store, &mut pass, found)?;
    }
    Some(())
}

/// Whether the status is none of want of memory.
fn had_memory(status: u8) -> bool
    ensures { IsTrue result → status ≢ 6 }
{
    status != 6
}

/// The store over which workers served, and their passes.
#[derive(Drop)]
pub struct Kept {
    /// The store.
    pub store: Store<MapKeeper>,
    /// The workers' passes, in order.
    pub passes: Vec<Pass<MapKeeper>>,
}

/// The workers serve over a new store of so many shards, and no door fails. `None` is want of
/// memory.
pub fn serve_new<
    R: Abort + Threads + Wait + HostTime + Sync,
    D: Door + Send,
    C: Clock + Send,
    G: Gate + Sync,
>(
    rt: &R,
    alloc: Global,
    shards: u64,
    workers: &mut [Worker<D, C, MapKeeper>],
    gate: &G,
) -> Option<Kept>
    requires shards { (1 ≤ shards) × (shards ≤ 64) }
    requires workers { (1 ≤ length workers.old) × (length workers.old ≤ 64) }
    requires no_pass { All (λ w. w.pass ≡ None) workers.old }
    ensures met { IfSome result (λ kept. All (IsPassOf kept.store) kept.passes.items) }
{
    let keepers = keepers(alloc, shards).ok()?;
    let served = serve_all(rt, alloc, keepers, workers, gate);
    let Served {
        status,
        store,
        passes,
    } = served;
    assert_eq!(rt; status, 0);
    assert!(rt; had_memory(status));
    let Some(store) = store else {
        return None;
    };
    Some(Kept { store, passes })
}

/// Whether the status is that of workers that served.
fn have_served(status: u8) -> bool
    ensures { IsTrue result → (status ≡ 0) ⊎ (status ≡ 9) }
{
    status == 0 || status == 9
}

/// What serving by words left: the status, whether there is a store, and how many passes there are.
#[derive(Drop)]
struct Left {
    status: u8,
    stored: bool,
    passes: usize,
}

/// The workers serve by the words over the keepers, and the store, where there is one, is found so.
fn serve_by<R: Abort + Threads + Wait + HostTime + Sync>(
    rt: &R,
    alloc: Global,
    words: &str,
    keepers: Vec<MapKeeper>,
    workers: &mut [MemoryWorker],
    found: &[Found],
) -> Result<Left, Fail>
    requires shards { (1 ≤ length keepers.items) × (length keepers.items ≤ 64) }
    requires keepers { All (λ k. k ≡ []) keepers.items }
    requires no_pass { All (λ w. w.pass ≡ None) workers.old }
    ensures unchanged { IfOk result (λ left. left.status ≡ 2 → workers.new ≡ workers.old) }
{
    let words = words_of(alloc, words)?;
    let served = serve(rt, alloc, &words, keepers, workers, &OpenGate);
    let Served {
        status,
        store,
        passes,
    } = served;
    let left = Left {
        status,
        stored: store.is_some(),
        passes: passes.len(),
    };
    let Some(store) = store else {
        return Ok(left);
    };
    assert!(rt; have_served(status));
    find_all(rt, alloc, &store, passes, found).ok_or("no pass")?;
    Ok(left)
}

/// Two workers serve so.
fn check<R: Abort + Threads + Wait + HostTime + Sync>(
    rt: &R,
    alloc: Global,
    case: &Case,
) -> Result<(), Fail> {
    let mut workers = two_workers(alloc, case.fails)?;
    let left = serve_by(
        rt,
        alloc,
        "serve 42424 2 1",
        keepers(alloc, case.shards.clamp(1, 64))?,
        workers.as_mut_slice(),
        case.found,
    )?;
    assert_eq!(rt; left.status, case.status);
    assert!(rt; left.stored);
    assert_eq!(rt; left.passes, 2);
    assert_eq!(rt; workers.len(), 2);
    assert!(rt; has_served(&workers[0], 1 - case.fails.len().min(1)));
    assert!(rt; has_served(&workers[1], 1));
    Ok(())
}

#[test]
fn two_workers_serve_one_store(rt: HostRuntime) -> Result<(), Fail> {
    for case in CASES.iter() {
        check(&rt, rt.alloc(), case)?;
    }
    Ok(())
}

#[test]
fn other_words_leave_the_doors_alone(rt: HostRuntime) -> Result<(), Fail> {
    let alloc = rt.alloc();
    let text = joined(alloc, &["PUT /b HTTP/1.1\r\nContent-Length: 1\r\n\r\nx"])?;
    let mut workers = vec![in alloc; worker(alloc, text, &[])?]?;
    let refused = serve_by(
        &rt,
        alloc,
        "serve 42424 2 1",
        keepers(alloc, 1)?,
        workers.as_mut_slice(),
        &[],
    )?;
    assert_eq!(rt; refused.status, 2);
    assert!(rt; !refused.stored);
    assert_eq!(rt; refused.passes, 0);
    assert_eq!(rt; workers.len(), 1);
    assert!(rt; has_served(&workers[0], 0));
    let served = serve_by(
        &rt,
        alloc,
        "serve 42424 1 1",
        keepers(alloc, 1)?,
        workers.as_mut_slice(),
        &[],
    )?;
    assert_eq!(rt; served.status, 0);
    assert_eq!(rt; workers.len(), 1);
    assert!(rt; has_served(&workers[0], 1));
    Ok(())
}
