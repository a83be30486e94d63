//! The orders of a store's shards, which callers hand their entries to.
ghost use Rattle.std.specs.Prelude.{◌≡◌, ◌<◌};
ghost use Rattle.session_machine.specs.History.{IsFormed};

use asp_base::MemorySink;
use asp_messages::Reply;
use journal_shelf::Shelf;
use session_machine::{Deed, Entry};
use state_store::{Notes, Placed};
use std::alloc::Global;
use std::sync::Wait;
use std::test::Fail;

/// The journal of two looks.
const TWO: &[u8] = b"asp-journal 3 0\n0 0 0 0 - looked : done\n1 0 0 0 - looked : done\n";

/// A look of the caller whose number is the place.
fn looked(shard: u64, place: u64) -> Placed
    requires { place < 1000 }
    ensures place { result.place ≡ place }
    ensures formed { IsFormed result.entry }
{
    Placed {
        shard,
        place,
        entry: Entry {
            caller: place,
            moment: 0,
            deed: Deed::Looked,
            drawn: 0,
            reply: Reply::Done,
            faults: 0,
        },
    }
}

fn sink(alloc: Global) -> Result<MemorySink, Fail> {
    match MemorySink::new(alloc, 256, 256, Vec::new(alloc)) {
        Ok(sink) => Ok(sink),
        Err(_) => Err("no memory".into()),
    }
}

/// A shelf of two orders, which was told of these places of shards.
fn told<R: Wait>(rt: &R, alloc: Global, places: &[(u64, u64)]) -> Result<Shelf<MemorySink>, Fail> {
    let mut sinks = Vec::new(alloc);
    sinks.push(sink(alloc)?)?;
    sinks.push(sink(alloc)?)?;
    match Shelf::new(alloc, sinks) {
        Ok(shelf) => {
            for (shard, place) in places {
                tell(rt, &shelf, *shard, *place);
            }
            Ok(shelf)
        }
        Err(_) => Err("no memory".into()),
    }
}

/// Tells the shelf of a place below 1,000.
fn tell<R: Wait>(rt: &R, shelf: &Shelf<MemorySink>, shard: u64, place: u64) {
    shelf.take(rt, looked(shard, place % 1000));
}

#[test]
fn each_shard_has_its_journal_in_order(rt: HostRuntime) -> Result<(), Fail> {
    let alloc = rt.alloc();
    let mut shelf = told(&rt, alloc, &[(1, 1), (0, 1), (1, 0), (7, 0)])?;
    let last = shelf.pop().map(|order| order.into_sink());
    let first = shelf.pop().map(|order| order.into_sink());
    assert_eq!(rt; last.as_ref().map(|sink| sink.taken()), Some(TWO));
    assert_eq!(rt;
        first.as_ref().map(|sink| sink.taken()),
        Some(b"".as_slice())
    );
    assert!(rt; shelf.pop().is_none());
    Ok(())
}
