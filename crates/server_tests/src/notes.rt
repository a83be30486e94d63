//! Who is told of the entries that a server leaves.
ghost use Rattle.std.specs.Prelude.{◌≡◌, All, None, length, IfOk};

use crate::memory::{MemoryWorker, joined, keepers, worker};
use crate::serve_runs::words_of;
use asp_base::OpenGate;
use asp_messages::Reply;
use serve_command::serve_noted;
use session_machine::Deed;
use state_store::{Notes, Placed};
use std::alloc::Global;
use std::sync::Wait;
use std::sync::atomic::{AtomicU64, Ordering};
use std::test::Fail;

/// A bit for each place that was told of in each shard, and how many entries there were of each
/// kind.
#[derive(Drop)]
struct Told {
    places: Vec<AtomicU64>,
    twice: AtomicU64,
    writes: AtomicU64,
    looks: AtomicU64,
    others: AtomicU64,
}

impl Told {
    fn new(alloc: Global) -> Result<Told, Fail> {
        let mut places = Vec::new(alloc);
        for _ in 0..8 {
            places.push(AtomicU64::new(0))?;
        }
        Ok(Told {
            places,
            twice: AtomicU64::new(0),
            writes: AtomicU64::new(0),
            looks: AtomicU64::new(0),
            others: AtomicU64::new(0),
        })
    }
}

impl Notes for Told {
    fn wants(&self) -> bool {
        true
    }

    fn take<R: Wait>(&self, _rt: &R, placed: Placed) {
        let bit = 1u64.checked_shl(placed.place.min(63) as u32).unwrap_or(0);
        match self.places.get(placed.shard as usize) {
            Some(places) => {
                if places.fetch_or(bit, Ordering::SeqCst) & bit != 0 {
                    self.twice.fetch_add(1, Ordering::SeqCst);
                }
            }
            None => {
                self.others.fetch_add(1, Ordering::SeqCst);
            }
        }
        let count = match (&placed.entry.deed, &placed.entry.reply) {
            (Deed::Asked(_), Reply::Done) => &self.writes,
            (Deed::Looked, Reply::Done) => &self.looks,
            _ => &self.others,
        };
        count.fetch_add(1, Ordering::SeqCst);
    }
}

/// Two workers with a connection each, of which the one writes `/b` and the other `/d`.
pub fn two_writers(alloc: Global) -> Result<Vec<MemoryWorker>, Fail>
    ensures { IfOk result (λ v. (length v.items ≡ 2) × All (λ w. w.pass ≡ None) v.items) }
{
    let b = joined(alloc, &["PUT /b HTTP/1.1\r\nContent-Length: 1\r\n\r\nx"])?;
    let d = joined(alloc, &["PUT /d HTTP/1.1\r\nContent-Length: 1\r\n\r\ny"])?;
    let first = worker(alloc, b, &[])?;
    let second = worker(alloc, d, &[])?;
    Ok(vec![in alloc; first, second]?)
}

/// A write in each of two shards, and two sweeps, which look once in each shard: each entry is told
/// of once, at the places from 0 on.
#[test]
fn a_server_tells_of_each_entry_once(rt: HostRuntime) -> Result<(), Fail> {
    let alloc = rt.alloc();
    let mut workers = two_writers(alloc)?;
    let words = words_of(alloc, "serve 42424 2 1 f")?;
    let told = Told::new(alloc)?;
    let keepers = keepers(alloc, 8)?;
    let slice = workers.as_mut_slice();
    let served = serve_noted(
        &rt,
        alloc,
        words.as_slice(),
        keepers,
        slice,
        &OpenGate,
        &told,
    );
    assert_eq!(rt; served.status, 0);
    assert_eq!(rt; told.writes.load(Ordering::SeqCst), 2);
    assert_eq!(rt; told.looks.load(Ordering::SeqCst), 16);
    assert_eq!(rt; told.others.load(Ordering::SeqCst), 0);
    assert_eq!(rt; told.twice.load(Ordering::SeqCst), 0);
    for shard in 0..8 {
        let wanted = if shard == 3 || shard == 5 {
            0b111
        } else {
            0b11
        };
        let Some(places) = told.places.get(shard) else {
            return Err("no shard".into());
        };
        assert_eq!(rt; places.load(Ordering::SeqCst), wanted, "{shard}");
    }
    Ok(())
}

/// Four words are no folder, an empty folder is none, and no worker does anything.
#[test]
fn other_words_serve_nobody(rt: HostRuntime) -> Result<(), Fail> {
    let alloc = rt.alloc();
    for text in [
        "serve 42424 2 1",
        "serve 42424 2 1 ",
        "serve 42424 3 1 f",
        "serve 42424 2 1 f f",
    ] {
        let mut workers = two_writers(alloc)?;
        let words = words_of(alloc, text)?;
        let told = Told::new(alloc)?;
        let keepers = keepers(alloc, 8)?;
        let slice = workers.as_mut_slice();
        let served = serve_noted(
            &rt,
            alloc,
            words.as_slice(),
            keepers,
            slice,
            &OpenGate,
            &told,
        );
        assert_eq!(rt; served.status, 2, "{text}");
        assert_eq!(rt; told.writes.load(Ordering::SeqCst), 0);
        for worker in workers.iter() {
            assert!(rt; worker.door.given_back().is_empty());
        }
    }
    Ok(())
}
