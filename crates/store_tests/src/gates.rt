//! A gate is told of each turn, inside it and after it, of answers and of sweeps.
use crate::given::{first_pass, keepers, on_key, open, write};
use asp_base::Gate;
use asp_messages::{Ask, Reply};
use state_store::{FreshStore, Store, SweepCount, SweepEnd};
use std::sync::Wait;
use std::sync::atomic::{AtomicU64, Ordering};
use std::test::Fail;

/// The place behind the last that a store gives.
const END_OF_PLACES: u64 = 9_223_372_036_854_775_807;

/// A gate that notes each call as an octal digit: 1 inside a turn of shard 0, 2 after it, and 3 and
/// 4 of shard 1.
#[derive(Drop)]
struct Noting {
    noted: AtomicU64,
}

impl Noting {
    fn note(&self, shard: u64, call: u64) {
        let noted = self.noted.load(Ordering::SeqCst);
        let digit = shard.min(1) * 2 + call.min(2);
        self.noted
            .store(noted.wrapping_shl(3) | digit, Ordering::SeqCst);
    }

    /// What was noted since this was last asked.
    fn take(&self) -> u64 {
        self.noted.swap(0, Ordering::SeqCst)
    }
}

impl Gate for Noting {
    fn inside<R: Wait>(&self, _rt: &R, shard: u64) {
        self.note(shard, 1);
    }

    fn after<R: Wait>(&self, _rt: &R, shard: u64) {
        self.note(shard, 2);
    }
}

#[test]
fn a_gate_is_told_of_each_turn(rt: HostRuntime) -> Result<(), Fail> {
    let alloc = rt.alloc();
    let gate = Noting {
        noted: AtomicU64::new(0),
    };
    let opened = open(&rt, alloc, keepers(alloc, 2)?, 0)?;
    let FreshStore { store, mut roll } = opened;
    let mut pass = first_pass(&rt, alloc, &store, &mut roll)?;
    let first = store.ask(&rt, &mut pass, write(alloc, b'a', 1)?, 0, &gate);
    assert_eq!(rt; first.reply, Reply::Done);
    assert_eq!(rt; gate.take(), 0o12);
    let second = store.ask(&rt, &mut pass, write(alloc, b'b', 1)?, 0, &gate);
    assert_eq!(rt; second.reply, Reply::Done);
    assert_eq!(rt; gate.take(), 0o34);
    // Each shard has an item that is removed, and is left at the look that finds no more.
    let swept = store.sweep(&rt, &mut pass, 60_000, &gate);
    let end = SweepEnd::Clear;
    assert_eq!(rt; swept, SweepCount { removed: 2, end });
    assert_eq!(rt; gate.take(), 0o1212_3434);
    Ok(())
}

#[test]
fn a_gate_is_told_of_no_turn_where_no_place_is_left(rt: HostRuntime) -> Result<(), Fail> {
    let alloc = rt.alloc();
    let gate = Noting {
        noted: AtomicU64::new(0),
    };
    let opened = open(&rt, alloc, keepers(alloc, 1)?, END_OF_PLACES)?;
    let FreshStore { store, mut roll } = opened;
    let mut pass = first_pass(&rt, alloc, &store, &mut roll)?;
    let asked = store.ask(&rt, &mut pass, on_key(alloc, b'a', Ask::Read)?, 0, &gate);
    assert_eq!(rt; asked.reply, Reply::PlacesOut);
    let swept = store.sweep(&rt, &mut pass, 60_000, &gate);
    let end = SweepEnd::PlacesOut;
    assert_eq!(rt; swept, SweepCount { removed: 0, end });
    assert_eq!(rt; gate.take(), 0);
    Ok(())
}
