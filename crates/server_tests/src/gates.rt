//! Shards are served at once: no lock stands round the store, and no thread serves all workers.
ghost use Rattle.std.specs.Prelude.{◌≡◌, All, None, length, IfOk};

use crate::memory::{DONE, MemoryWorker, joined, worker};
use crate::serve_runs::serve_new;
use asp_base::Gate;
use std::alloc::Global;
use std::str;
use std::sync::Wait;
use std::sync::atomic::{AtomicBool, AtomicU64, Ordering};
use std::test::Fail;
use std::thread::yield_now;
use stream_server::StreamEnd;

/// A bit for each of the eight shards.
const ALL_SHARDS: u64 = 0xff;

/// How often a turn looks at most whether the others have come.
const MOST_LOOKS: u64 = 1_000_000_000;

/// Eight requests, and eight sweeps that look once in each shard.
const TURNS: u64 = 72;

/// A gate that keeps the first turn of each shard inside until there was a turn of every shard, and
/// counts the turns that begin and those that are over.
#[derive(Drop)]
struct Meeting {
    seen: AtomicU64,
    gave_up: AtomicBool,
    begun: AtomicU64,
    over: AtomicU64,
}

impl Gate for Meeting {
    fn inside<R: Wait>(&self, _rt: &R, shard: u64) {
        self.begun.fetch_add(1, Ordering::SeqCst);
        let bit = 1u64.checked_shl(shard.min(63) as u32).unwrap_or(0);
        if self.seen.fetch_or(bit, Ordering::SeqCst) & bit != 0 {
            return;
        }
        for _ in 0..MOST_LOOKS {
            if self.seen.load(Ordering::SeqCst) == ALL_SHARDS {
                return;
            }
            if self.gave_up.load(Ordering::SeqCst) {
                return;
            }
            yield_now();
        }
        self.gave_up.store(true, Ordering::SeqCst);
    }

    fn after<R: Wait>(&self, _rt: &R, _shard: u64) {
        self.over.fetch_add(1, Ordering::SeqCst);
    }
}

/// Eight workers, of which each writes an item of its own: `/a` to `/h`, whose shards differ.
fn eight_workers(alloc: Global) -> Result<Vec<MemoryWorker>, Fail>
    ensures { IfOk result (λ v. (length v.items ≡ 8) × All (λ w. w.pass ≡ None) v.items) }
{
    let mut workers = Vec::new(alloc);
    for letter in 0..8u8 {
        let key = [b'a' + letter];
        let key = str::from_utf8(&key).unwrap_or("");
        let head = ["PUT /", key, " HTTP/1.1\r\nContent-Length: 1\r\n\r\nx"];
        workers.push(worker(alloc, joined(alloc, &head)?, &[])?)?;
    }
    Ok(workers)
}

#[test]
fn shards_are_served_at_once(rt: HostRuntime) -> Result<(), Fail> {
    let alloc = rt.alloc();
    let gate = Meeting {
        seen: AtomicU64::new(0),
        gave_up: AtomicBool::new(false),
        begun: AtomicU64::new(0),
        over: AtomicU64::new(0),
    };
    let mut workers = eight_workers(alloc)?;
    let Some(_kept) = serve_new(&rt, alloc, 8, workers.as_mut_slice(), &gate) else {
        return Err("no store".into());
    };
    assert!(rt; !gate.gave_up.load(Ordering::SeqCst));
    assert_eq!(rt; gate.seen.load(Ordering::SeqCst), ALL_SHARDS);
    assert_eq!(rt; gate.begun.load(Ordering::SeqCst), TURNS);
    assert_eq!(rt; gate.over.load(Ordering::SeqCst), TURNS);
    for worker in workers.iter() {
        for given in worker.door.given_back() {
            assert_eq!(rt; given.end, StreamEnd::Closed);
            assert!(rt; given.conn.output.taken() == DONE.as_bytes());
        }
    }
    Ok(())
}
