//! Turns whose entries are given to the caller, and who is told of those of a sweep.
ghost use Rattle.std.specs.Prelude.{◌<◌, ◌≤◌, ◌^◌, IfOk};
ghost use Rattle.asp_messages.specs.Ranges.{RequestFits};
ghost use Rattle.state_store.specs.Passes.{IsPassOf, shards_of};

use crate::given::{answer, first_pass, keepers, on_key, open, write};
use asp_base::{Bytes, NoMemory, OpenGate};
use asp_messages::{Ask, Reply, Request};
use keeper::ListKeeper;
use session_machine::{Deed, Entry};
use state_store::{FreshStore, Noted, Notes, Pass, Placed, Store};
use std::alloc::Global;
use std::process::Abort;
use std::sync::Wait;
use std::sync::atomic::{AtomicU64, Ordering};
use std::test::Fail;

/// The shard of `/a`, of eight.
const SHARD_OF_A: u64 = 2;

/// What the store gives for a request at the moment 5.
fn note<R: Wait>(
    rt: &R,
    store: &Store<ListKeeper>,
    pass: &mut Pass<ListKeeper>,
    request: Request,
) -> Noted
    requires pass { IsPassOf store.now pass.old }
    requires request { RequestFits request }
    ensures { IsPassOf store.now pass.new }
{
    store.ask_noted(rt, pass, request, 5, &OpenGate)
}

/// What a look in the shard gives at the moment `t`.
fn look<R: Wait>(
    rt: &R,
    store: &Store<ListKeeper>,
    pass: &mut Pass<ListKeeper>,
    shard: u64,
    t: u64,
) -> Noted
    requires pass { IsPassOf store.now pass.old }
    requires shard { shard < shards_of store.now }
    requires moment { t ≤ 2 ^ 62 }
    ensures { IsPassOf store.now pass.new }
{
    store.sweep_turn(rt, pass, shard, t, &OpenGate)
}

/// An entry of the first caller over a keeper without a fault.
fn placed(shard: u64, place: u64, moment: u64, deed: Deed, drawn: u64, reply: Reply) -> Noted {
    Noted::Placed(Placed {
        shard,
        place,
        entry: Entry {
            caller: 0,
            moment,
            deed,
            drawn,
            reply,
            faults: 0,
        },
    })
}

/// A write of 40 bytes under `/a` that lives for one minute.
fn long_write(alloc: Global) -> Result<Request, NoMemory>
    ensures { IfOk result RequestFits }
{
    let ask = Ask::Write {
        body: Bytes::copy(alloc, b"0123456789012345678901234567890123456789")?,
        minutes: 1,
        fresh: false,
        cookie: None,
    };
    on_key(alloc, b'a', ask)
}

/// The entries that are given are those that were left, one after the other.
fn two_entries<R: Abort + Wait>(rt: &R, alloc: Global) -> Result<(), Fail> {
    let opened = open(rt, alloc, keepers(alloc, 8)?, 0)?;
    let FreshStore { store, mut roll } = opened;
    let mut pass = first_pass(rt, alloc, &store, &mut roll)?;
    let written = note(rt, &store, &mut pass, long_write(alloc)?);
    let deed = Deed::Asked(long_write(alloc)?);
    assert_eq!(rt; written, placed(SHARD_OF_A, 0, 5, deed, 0, Reply::Done));
    let read = note(rt, &store, &mut pass, on_key(alloc, b'a', Ask::Acquire)?);
    let deed = Deed::Asked(on_key(alloc, b'a', Ask::Acquire)?);
    let reply = Reply::Found {
        body: Bytes::copy(alloc, b"0123456789012345678901234567890123456789")?,
        minutes: 1,
        cookie: Some(1),
        first: false,
    };
    assert_eq!(rt; read, placed(SHARD_OF_A, 1, 5, deed, 1, reply));
    Ok(())
}

#[test]
fn the_entry_given_is_the_one_that_was_left(rt: HostRuntime) -> Result<(), Fail> {
    two_entries(&rt, rt.alloc())
}

#[test]
fn a_look_gives_its_entry(rt: HostRuntime) -> Result<(), Fail> {
    let alloc = rt.alloc();
    let opened = open(&rt, alloc, keepers(alloc, 1)?, 7)?;
    let FreshStore { store, mut roll } = opened;
    let mut pass = first_pass(&rt, alloc, &store, &mut roll)?;
    answer(&rt, &store, &mut pass, write(alloc, b'a', 1)?);
    let early = look(&rt, &store, &mut pass, 0, 59_999);
    assert_eq!(rt; early, placed(0, 8, 59_999, Deed::Looked, 0, Reply::Done));
    let late = look(&rt, &store, &mut pass, 0, 60_000);
    let deed = Deed::Expired(Bytes::copy(alloc, b"/a")?);
    assert_eq!(rt; late, placed(0, 9, 60_000, deed, 0, Reply::Done));
    Ok(())
}

#[test]
fn no_entry_is_given_where_no_place_is_left(rt: HostRuntime) -> Result<(), Fail> {
    let alloc = rt.alloc();
    let opened = open(&rt, alloc, keepers(alloc, 1)?, i64::MAX as u64)?;
    let FreshStore { store, mut roll } = opened;
    let mut pass = first_pass(&rt, alloc, &store, &mut roll)?;
    let asked = note(&rt, &store, &mut pass, on_key(alloc, b'a', Ask::Read)?);
    assert_eq!(rt; asked, Noted::PlacesOut);
    Ok(())
}

/// Counts the entries of removals and the others.
#[derive(Drop)]
struct Counting {
    removals: AtomicU64,
    others: AtomicU64,
}

impl Notes for Counting {
    fn wants(&self) -> bool {
        true
    }

    fn take<R: Wait>(&self, _rt: &R, placed: Placed) {
        let count = match &placed.entry.deed {
            Deed::Expired(_) => &self.removals,
            Deed::Asked(_) | Deed::Looked => &self.others,
        };
        count.fetch_add(1, Ordering::SeqCst);
    }
}

#[test]
fn a_sweep_tells_of_each_entry(rt: HostRuntime) -> Result<(), Fail> {
    let alloc = rt.alloc();
    let opened = open(&rt, alloc, keepers(alloc, 8)?, 0)?;
    let FreshStore { store, mut roll } = opened;
    let mut pass = first_pass(&rt, alloc, &store, &mut roll)?;
    answer(&rt, &store, &mut pass, write(alloc, b'a', 1)?);
    answer(&rt, &store, &mut pass, write(alloc, b'b', 1)?);
    let notes = Counting {
        removals: AtomicU64::new(0),
        others: AtomicU64::new(0),
    };
    store.sweep_noted(&rt, &mut pass, 60_000, &OpenGate, &notes);
    assert_eq!(rt; notes.removals.load(Ordering::SeqCst), 2);
    assert_eq!(rt; notes.others.load(Ordering::SeqCst), 8);
    Ok(())
}
