//! What sweeps remove, and how they end.
ghost use Rattle.std.specs.Prelude.{◌≤◌, ◌<◌};
ghost use Rattle.state_store.specs.Passes.{IsPassOf};

use crate::given::{answer, first_pass, keepers, open, sweep, write};
use asp_base::{Bytes, NoMemory};
use asp_messages::{Ask, Reply, Request};
use keeper::{FaultyKeeper, ListKeeper};
use state_store::{FreshStore, Pass, Store, SweepCount, SweepEnd};
use std::alloc::Global;
use std::process::Abort;
use std::sync::Wait;
use std::test::Fail;

fn swept(removed: u64, end: SweepEnd) -> SweepCount {
    SweepCount { removed, end }
}

/// Two items of one minute are removed once they have expired, in a new store of so many shards.
fn two_expire<R: Abort + Wait>(rt: &R, alloc: Global, shards: u64) -> Result<(), Fail>
    requires { (1 ≤ shards) × (shards ≤ 64) }
{
    let opened = open(rt, alloc, keepers(alloc, shards)?, 0)?;
    let FreshStore { store, mut roll } = opened;
    let mut pass = first_pass(rt, alloc, &store, &mut roll)?;
    answer(rt, &store, &mut pass, write(alloc, b'a', 1)?);
    answer(rt, &store, &mut pass, write(alloc, b'b', 1)?);
    let early = sweep(rt, &store, &mut pass, 59_999);
    assert_eq!(rt; early, swept(0, SweepEnd::Clear));
    let late = sweep(rt, &store, &mut pass, 60_000);
    assert_eq!(rt; late, swept(2, SweepEnd::Clear));
    Ok(())
}

#[test]
fn expired_items_are_removed(rt: HostRuntime) -> Result<(), Fail> {
    two_expire(&rt, rt.alloc(), 1)?;
    two_expire(&rt, rt.alloc(), 8)
}

#[test]
fn an_item_is_removed_one_day_after_it_was_made(rt: HostRuntime) -> Result<(), Fail> {
    let alloc = rt.alloc();
    let opened = open(&rt, alloc, keepers(alloc, 8)?, 0)?;
    let FreshStore { store, mut roll } = opened;
    let mut pass = first_pass(&rt, alloc, &store, &mut roll)?;
    answer(&rt, &store, &mut pass, write(alloc, b'a', 525_600)?);
    let early = sweep(&rt, &store, &mut pass, 86_399_999);
    assert_eq!(rt; early, swept(0, SweepEnd::Clear));
    let late = sweep(&rt, &store, &mut pass, 86_400_000);
    assert_eq!(rt; late, swept(1, SweepEnd::Clear));
    Ok(())
}

/// Writes so many items of one minute, each under a key of its own.
fn write_many<R: Wait>(
    rt: &R,
    alloc: Global,
    store: &Store<ListKeeper>,
    pass: &mut Pass<ListKeeper>,
    items: u32,
) -> Result<(), NoMemory>
    requires { IsPassOf store.now pass.old }
    ensures { IsPassOf store.now pass.new }
{
    for item in 0..items {
        let write = Request {
            key: Bytes::copy(alloc, &item.to_le_bytes())?,
            ask: Ask::Write {
                body: Bytes::copy(alloc, b"x")?,
                minutes: 1,
                fresh: false,
                cookie: None,
            },
        };
        answer(rt, store, pass, write);
    }
    Ok(())
}

#[test]
fn a_sweep_removes_a_thousand_items_of_a_shard(rt: HostRuntime) -> Result<(), Fail> {
    let alloc = rt.alloc();
    let opened = open(&rt, alloc, keepers(alloc, 1)?, 0)?;
    let FreshStore { store, mut roll } = opened;
    let mut pass = first_pass(&rt, alloc, &store, &mut roll)?;
    write_many(&rt, alloc, &store, &mut pass, 1001)?;
    let first = sweep(&rt, &store, &mut pass, 60_000);
    assert_eq!(rt; first, swept(1000, SweepEnd::More));
    let second = sweep(&rt, &store, &mut pass, 60_000);
    assert_eq!(rt; second, swept(1, SweepEnd::Clear));
    Ok(())
}

#[test]
fn a_fault_ends_a_sweep(rt: HostRuntime) -> Result<(), Fail> {
    let alloc = rt.alloc();
    let fails = [0, 3].to_vec(alloc)?;
    let keeper = FaultyKeeper::new(ListKeeper::new(alloc), fails);
    let keepers = vec![in alloc; keeper]?;
    let opened = open(&rt, alloc, keepers, 0)?;
    let FreshStore { store, mut roll } = opened;
    let mut pass = first_pass(&rt, alloc, &store, &mut roll)?;
    let refused = answer(&rt, &store, &mut pass, write(alloc, b'a', 1)?);
    assert_eq!(rt; refused.reply, Reply::KeeperFault);
    let written = answer(&rt, &store, &mut pass, write(alloc, b'a', 1)?);
    assert_eq!(rt; written.reply, Reply::Done);
    let first = sweep(&rt, &store, &mut pass, 60_000);
    assert_eq!(rt; first, swept(0, SweepEnd::KeeperFault));
    let second = sweep(&rt, &store, &mut pass, 60_000);
    assert_eq!(rt; second, swept(1, SweepEnd::Clear));
    Ok(())
}
