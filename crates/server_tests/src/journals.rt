//! Journals of a server's shards: legal, and of exactly what its clients heard.
ghost use Rattle.std.specs.Prelude.{◌≡◌, All, None, length, IfOk};

use crate::history::{EACH, Hot, judge, nexts_of, workers_of};
use crate::memory::{keepers, sink};
use crate::notes::two_writers;
use crate::serve_runs::words_of;
use asp_base::{Clock, MemorySink, OpenGate, Sink};
use asp_messages::{Reply, push, spell_dated};
use journal_files::{make_shard_files, remove_shard_files};
use journal_shelf::Shelf;
use keeper::MapKeeper;
use serve_command::serve_noted;
use std::alloc::Global;
use std::process::Abort;
use std::rt::Clock as HostTime;
use std::sync::Wait;
use std::sync::atomic::AtomicU64;
use std::test::Fail;
use std::thread::Threads;
use std::{fs, str};
use stream_server::{Door, Worker};

/// The shard of `/a`, of eight.
const SHARD_OF_A: usize = 2;

/// Room for all that polling clients hear.
const ROOM: u64 = 1 << 24;

/// The workers serve by the words over eight shards, and the entries of each shard go to its sink.
fn serve_into<
    R: Abort + Threads + Wait + HostTime + Sync,
    D: Door + Send,
    C: Clock + Send,
    T: Sink + Drop + Send,
>(
    rt: &R,
    alloc: Global,
    words: &str,
    workers: &mut [Worker<D, C, MapKeeper>],
    sinks: Vec<T>,
) -> Result<Vec<T>, Fail>
    requires no_pass { All (λ w. w.pass ≡ None) workers.old }
{
    let Ok(mut shelf) = Shelf::new(alloc, sinks) else {
        return Err("no memory".into());
    };
    let words = words_of(alloc, words)?;
    let keepers = keepers(alloc, 8)?;
    let served = serve_noted(rt, alloc, &words, keepers, workers, &OpenGate, &shelf);
    assert_eq!(rt; served.status, 0);
    let mut sinks = Vec::new(alloc);
    for _ in 0..8 {
        let Some(order) = shelf.pop() else {
            return Err("no order".into());
        };
        assert_eq!(rt; order.stopped(), None);
        sinks.push(order.into_sink())?;
    }
    assert!(rt; shelf.pop().is_none());
    sinks.reverse();
    Ok(sinks)
}

fn memory_sinks(alloc: Global, room: u64) -> Result<Vec<MemorySink>, Fail> {
    let mut sinks = Vec::new(alloc);
    for _ in 0..8 {
        sinks.push(sink(alloc, room, room, &[])?)?;
    }
    Ok(sinks)
}

/// Two writes in two shards, and two sweeps, which look once in each shard.
#[test]
fn each_shard_has_a_journal(rt: HostRuntime) -> Result<(), Fail> {
    let alloc = rt.alloc();
    let mut workers = two_writers(alloc)?;
    let slice = workers.as_mut_slice();
    let sinks = memory_sinks(alloc, 4_096)?;
    let sinks = serve_into(&rt, alloc, "serve 42424 2 1 f", slice, sinks)?;
    assert_eq!(rt; sinks.len(), 8);
    for shard in 0..sinks.len() {
        let journal = Vec::from_slice(alloc, sinks[shard].taken())?;
        let entries = if shard == 3 || shard == 5 { 3 } else { 2 };
        judge(&rt, alloc, journal, entries)?;
    }
    Ok(())
}

/// The replies in the lines of the caller, and how many lines there are but the first.
fn replies_in(alloc: Global, journal: &[u8], caller: &str) -> Result<(Vec<u8>, u64), Fail> {
    let mut replies = Vec::new(alloc);
    let mut entries: u64 = 0;
    for line in str::from_utf8(journal)?.lines().skip(1) {
        entries = entries.saturating_add(1);
        if let (true, Some((_, reply))) = (line.starts_with(caller), line.split_once(" : ")) {
            replies.extend_from_slice(reply.as_bytes())?;
            replies.push(b'\n')?;
        }
    }
    Ok((replies, entries))
}

/// The replies that a worker's clients heard, and that of the look behind each client.
fn replies_heard(alloc: Global, heard: Vec<Vec<Reply>>) -> Result<Vec<u8>, Fail> {
    let mut replies = Vec::new(alloc);
    for client in heard {
        for reply in client {
            if spell_dated(&mut replies, &reply).is_err() {
                return Err("no memory".into());
            }
            replies.push(b'\n')?;
        }
        if push(&mut replies, b"done\n").is_err() {
            return Err("no memory".into());
        }
    }
    Ok(replies)
}

/// The entries of the worker are those that its clients heard, in order; how many the journal has.
fn compare<R: Abort>(
    rt: &R,
    alloc: Global,
    journal: &[u8],
    worker: Option<Hot<'_>>,
    caller: &str,
) -> Result<u64, Fail> {
    let Some(Worker { door, .. }) = worker else {
        return Err("no worker".into());
    };
    let (replies, entries) = replies_in(alloc, journal, caller)?;
    let heard = replies_heard(alloc, door.heard)?;
    assert!(rt; replies.as_slice() == heard.as_slice());
    Ok(entries)
}

/// The journal of the shard of `/a` is legal, and of what the clients of both workers heard.
fn judge_heard<R: Abort>(
    rt: &R,
    alloc: Global,
    journal: Vec<u8>,
    workers: Vec<Hot<'_>>,
) -> Result<(), Fail> {
    let mut workers = workers;
    let second = workers.pop();
    let first = workers.pop();
    let entries = compare(rt, alloc, &journal, first, "0 ")?;
    compare(rt, alloc, &journal, second, "1 ")?;
    judge(rt, alloc, journal, entries)
}

#[test]
fn the_journals_in_memory_are_of_what_was_heard(rt: HostRuntime) -> Result<(), Fail> {
    let alloc = rt.alloc();
    let (first, second) = (nexts_of(alloc, EACH)?, nexts_of(alloc, EACH)?);
    let mut workers = workers_of(alloc, &first, &second)?;
    let slice = workers.as_mut_slice();
    let sinks = memory_sinks(alloc, ROOM)?;
    let sinks = serve_into(&rt, alloc, "serve 42424 2 10 f", slice, sinks)?;
    for shard in 0..sinks.len() {
        let journal = Vec::from_slice(alloc, sinks[shard].taken())?;
        if shard != SHARD_OF_A {
            judge(&rt, alloc, journal, 20)?;
        }
    }
    let Some(of_a) = sinks.get(SHARD_OF_A) else {
        return Err("no sink".into());
    };
    let journal = Vec::from_slice(alloc, of_a.taken())?;
    judge_heard(&rt, alloc, journal, workers)
}

#[test]
fn the_journals_in_files_are_of_what_was_heard(rt: HostRuntime) -> Result<(), Fail> {
    let alloc = rt.alloc();
    let (first, second) = (nexts_of(alloc, EACH)?, nexts_of(alloc, EACH)?);
    let mut workers = workers_of(alloc, &first, &second)?;
    let Ok(files) = make_shard_files(&rt, alloc, ".", 8) else {
        return Err("no files".into());
    };
    let slice = workers.as_mut_slice();
    for mut file in serve_into(&rt, alloc, "serve 42424 2 10 f", slice, files)? {
        assert!(rt; file.hand_on().is_ok());
    }
    for shard in 0..8 {
        let name = format!(in alloc; "shard-{shard}.journal")?;
        let journal = fs::read(&rt, name.as_str())?;
        if shard != SHARD_OF_A {
            judge(&rt, alloc, journal, 20)?;
        }
    }
    let journal = fs::read(&rt, "shard-2.journal")?;
    remove_shard_files(&rt, alloc, ".", 8);
    judge_heard(&rt, alloc, journal, workers)
}
