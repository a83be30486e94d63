//! A look removes one item, the one that expired first.
ghost use Rattle.std.specs.Prelude.{◌≤◌, ◌^◌};
ghost use Rattle.asp_messages.specs.Ranges.{RequestFits};
ghost use Rattle.session_machine.specs.History.{DrawFits};

use crate::given::write;
use asp_base::{Bytes, NoMemory};
use asp_messages::{Reply, Request};
use keeper::{Keeper, ListKeeper, MapKeeper};
use shard_core::{Shard, Swept};
use std::alloc::Global;
use std::process::Abort;
use std::test::Fail;

fn removed(alloc: Global, letter: u8) -> Result<Swept, NoMemory> {
    let key = Bytes::copy(alloc, &[b'/', letter])?;
    Ok(Swept::Removed { key })
}

/// What the shard answers at the moment 0, where no cookie is drawn.
fn act<K: Keeper>(shard: &mut Shard<K>, request: Request) -> Reply
    requires request { RequestFits request }
    requires drawn { DrawFits request.ask 0 }
{
    shard.act(request, 0, 0)
}

/// What the shard removes.
fn sweep_one<K: Keeper>(shard: &mut Shard<K>, t: u64) -> Swept
    requires { t ≤ 2 ^ 62 }
{
    shard.sweep_one(t)
}

fn removes_by_keys<K: Keeper + Drop>(
    rt: &impl Abort,
    alloc: Global,
    keeper: K,
) -> Result<(), NoMemory> {
    let mut shard = Shard::new(alloc, keeper);
    assert!(rt; matches!(act(&mut shard, write(alloc, b'a', 1)?), Reply::Done));
    assert!(rt; matches!(act(&mut shard, write(alloc, b'b', 1)?), Reply::Done));
    assert_eq!(rt; sweep_one(&mut shard, 59_999), Swept::Nothing);
    assert_eq!(rt; sweep_one(&mut shard, 60_000), removed(alloc, b'a')?);
    assert_eq!(rt; sweep_one(&mut shard, 60_000), removed(alloc, b'b')?);
    assert_eq!(rt; sweep_one(&mut shard, 60_000), Swept::Nothing);
    assert_eq!(rt; shard.faults(), 0);
    Ok(())
}

/// An item that would live for a year from each touch is removed one day after it was made.
fn removes_after_a_day<K: Keeper + Drop>(
    rt: &impl Abort,
    alloc: Global,
    keeper: K,
) -> Result<(), NoMemory> {
    let mut shard = Shard::new(alloc, keeper);
    assert!(rt; matches!(act(&mut shard, write(alloc, b'a', 525_600)?), Reply::Done));
    assert_eq!(rt; sweep_one(&mut shard, 86_399_999), Swept::Nothing);
    assert_eq!(rt; sweep_one(&mut shard, 86_400_000), removed(alloc, b'a')?);
    Ok(())
}

#[test]
fn an_item_ends_one_day_after_it_was_made(rt: HostRuntime) -> Result<(), Fail> {
    let alloc = rt.alloc();
    removes_after_a_day(&rt, alloc, ListKeeper::new(alloc))?;
    removes_after_a_day(&rt, alloc, MapKeeper::new(alloc))?;
    Ok(())
}

#[test]
fn items_of_one_moment_are_removed_by_their_keys(rt: HostRuntime) -> Result<(), Fail> {
    let alloc = rt.alloc();
    removes_by_keys(&rt, alloc, ListKeeper::new(alloc))?;
    removes_by_keys(&rt, alloc, MapKeeper::new(alloc))?;
    Ok(())
}
