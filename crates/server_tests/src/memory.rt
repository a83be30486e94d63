//! The outside in memory: connections, doors, clocks and keepers.
ghost use Rattle.std.specs.Prelude.{◌≡◌, ◌≤◌, ◌^◌, [], All, None, length, IfOk};

use asp_base::{Bytes, ListClock, MemorySink, MemorySource};
use keeper::MapKeeper;
use std::alloc::{AllocError, Global};
use std::test::Fail;
use stream_server::{Conn, MemoryDoor, Worker};

/// The last cookie of the protocol.
pub const LAST_COOKIE: u64 = 9_223_372_036_854_775_807;

pub const DONE: &str = "HTTP/1.1 200 OK\r\nContent-Length: 0\r\n\r\n";

pub const BAD: &str = "HTTP/1.1 400 Bad Request\r\nContent-Length: 0\r\n\r\n";

pub const MISSING: &str = "HTTP/1.1 404 Not Found\r\nContent-Length: 0\r\n\r\n";

/// A worker over a door in memory.
pub type MemoryWorker = Worker<MemoryDoor, ListClock, MapKeeper>;

/// The texts, one behind the other.
pub fn joined(alloc: Global, texts: &[&str]) -> Result<Vec<u8>, Fail> {
    let mut all = Vec::new(alloc);
    for text in texts {
        all.extend_from_slice(text.as_bytes())?;
    }
    Ok(all)
}

/// A source of the text, in pieces of at least one byte, which fails the listed reads.
pub fn source(
    alloc: Global,
    text: Vec<u8>,
    piece: u64,
    fails: &[u64],
) -> Result<MemorySource, Fail> {
    let fails = Vec::from_slice(alloc, fails)?;
    Ok(MemorySource::new(Bytes::adopt(text), piece.max(1), fails))
}

/// A sink that takes pieces of at least one byte, and fails the listed writes.
pub fn sink(alloc: Global, room: u64, piece: u64, fails: &[u64]) -> Result<MemorySink, Fail> {
    match MemorySink::new(alloc, room, piece.max(1), Vec::from_slice(alloc, fails)?) {
        Ok(sink) => Ok(sink),
        Err(_) => Err("no memory".into()),
    }
}

/// A clock of these moments, each at most the latest.
pub fn clock(alloc: Global, moments: &[u64]) -> Result<ListClock, Fail> {
    Ok(ListClock::new(moments_of(alloc, moments)?))
}

fn moments_of(alloc: Global, moments: &[u64]) -> Result<Vec<u64>, Fail>
    ensures { IfOk result (λ all. All (λ m. m ≤ 2 ^ 62) all.items) }
{
    let mut all = Vec::new(alloc);
    for moment in moments {
        all.push((*moment).min(1 << 62))?;
    }
    Ok(all)
}

/// Keepers for so many shards.
pub fn keepers(alloc: Global, shards: u64) -> Result<Vec<MapKeeper>, AllocError>
    ensures { IfOk result (λ v. (length v.items ≡ shards) × All (λ k. k ≡ []) v.items) }
{
    let mut keepers = Vec::new(alloc);
    for _ in 0..shards {
        keepers.push(MapKeeper::new(alloc))?;
    }
    Ok(keepers)
}

/// A worker whose door has one connection, which sends the text, and fails the listed calls of
/// `next`. Its clock gives 0.
pub fn worker(alloc: Global, text: Vec<u8>, fails: &[u64]) -> Result<MemoryWorker, Fail>
    ensures { IfOk result (λ w. w.pass ≡ None) }
{
    let input = source(alloc, text, 16_384, &[])?;
    let output = sink(alloc, 1_024, 16_384, &[])?;
    let conns = vec![in alloc; Conn { input, output }]?;
    let Ok(door) = MemoryDoor::new(alloc, conns, Vec::from_slice(alloc, fails)?) else {
        return Err("no memory".into());
    };
    let clock = clock(alloc, &[])?;
    Ok(Worker::new(door, clock))
}
