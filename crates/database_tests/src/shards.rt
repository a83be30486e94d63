//! A shard runs over a database as over a list.
ghost use Rattle.std.specs.Prelude.{◌≡◌, ◌<◌, ◌≤◌, ◌^◌, IfOk};
ghost use Rattle.asp_messages.specs.Ranges.{AskFits, MinutesFit, RequestFits};
ghost use Rattle.session_machine.specs.History.{DrawFits};

use crate::keepers::{in_memory, key, run};
use asp_base::{Bytes, NoMemory};
use asp_messages::{Ask, Reply, Request};
use shard_core::{Shard, Swept};
use sqlite::MemStore;
use sqlite_keeper::SqliteKeeper;
use std::alloc::Global;
use std::test::Fail;

/// A write of one byte under the key of this letter.
fn write(alloc: Global, letter: u8, content: u8, minutes: u64) -> Result<Request, NoMemory>
    requires { MinutesFit minutes }
    ensures { IfOk result (λ r. RequestFits r × DrawFits r.ask 0) }
{
    Ok(Request {
        key: key(alloc, letter)?,
        ask: Ask::Write {
            body: Bytes::copy(alloc, &[content])?,
            minutes,
            fresh: false,
            cookie: None,
        },
    })
}

/// A request of `/a`.
fn asks(alloc: Global, ask: Ask) -> Result<Request, NoMemory>
    requires { AskFits ask }
    ensures { IfOk result (λ r. RequestFits r × (r.ask ≡ ask)) }
{
    Ok(Request {
        key: key(alloc, b'a')?,
        ask,
    })
}

fn found(alloc: Global, content: u8, cookie: Option<u64>) -> Result<Reply, NoMemory> {
    Ok(Reply::Found {
        body: Bytes::copy(alloc, &[content])?,
        minutes: 20,
        cookie,
        first: false,
    })
}

fn in_shard(alloc: Global) -> Result<Shard<SqliteKeeper<MemStore>>, Fail> {
    Ok(Shard::new(alloc, in_memory(alloc)?))
}

/// What the shard answers.
fn act(shard: &mut Shard<SqliteKeeper<MemStore>>, request: Request, t: u64, drawn: u64) -> Reply
    requires moment { t ≤ 2 ^ 62 }
    requires request { RequestFits request }
    requires drawn { DrawFits request.ask drawn }
{
    shard.act(request, t, drawn)
}

/// What the shard removes.
fn sweep_one(shard: &mut Shard<SqliteKeeper<MemStore>>, t: u64) -> Swept
    requires { t ≤ 2 ^ 62 }
{
    shard.sweep_one(t)
}

#[test]
fn cookie_removes_only_while_its_lock_is_held(rt: HostRuntime) -> Result<(), Fail> {
    let alloc = rt.alloc();
    let mut shard = in_shard(alloc)?;
    let reply = act(&mut shard, write(alloc, b'a', b'x', 20)?, 0, 0);
    assert_eq!(rt; reply, Reply::Done);
    let reply = act(&mut shard, asks(alloc, Ask::Acquire)?, 1000, 1);
    assert_eq!(rt; reply, found(alloc, b'x', Some(1))?);
    let reply = act(
        &mut shard,
        asks(alloc, Ask::Remove { cookie: Some(1) })?,
        2000,
        0,
    );
    assert_eq!(rt; reply, Reply::Done);
    let reply = act(&mut shard, write(alloc, b'a', b'y', 20)?, 3000, 0);
    assert_eq!(rt; reply, Reply::Done);
    let reply = act(
        &mut shard,
        asks(alloc, Ask::Remove { cookie: Some(1) })?,
        4000,
        0,
    );
    assert_eq!(rt;
        reply,
        Reply::Locked {
            cookie: 0,
            age: 0,
            since: None
        }
    );
    let reply = act(&mut shard, asks(alloc, Ask::Read)?, 5000, 0);
    assert_eq!(rt; reply, found(alloc, b'y', None)?);
    assert_eq!(rt; shard.faults(), 0);
    Ok(())
}

fn removed(alloc: Global, letter: u8) -> Result<Swept, NoMemory> {
    Ok(Swept::Removed {
        key: key(alloc, letter)?,
    })
}

#[test]
fn items_of_one_moment_are_removed_by_their_keys(rt: HostRuntime) -> Result<(), Fail> {
    let alloc = rt.alloc();
    let mut shard = in_shard(alloc)?;
    assert!(rt;
        matches!(
            act(&mut shard, write(alloc, b'a', b'x', 1)?, 0, 0),
            Reply::Done
        )
    );
    assert!(rt;
        matches!(
            act(&mut shard, write(alloc, b'b', b'x', 1)?, 0, 0),
            Reply::Done
        )
    );
    assert_eq!(rt; sweep_one(&mut shard, 59_999), Swept::Nothing);
    assert_eq!(rt; sweep_one(&mut shard, 60_000), removed(alloc, b'a')?);
    assert_eq!(rt; sweep_one(&mut shard, 60_000), removed(alloc, b'b')?);
    assert_eq!(rt; sweep_one(&mut shard, 60_000), Swept::Nothing);
    Ok(())
}

#[test]
fn item_ends_a_day_after_it_was_made(rt: HostRuntime) -> Result<(), Fail> {
    let alloc = rt.alloc();
    let mut shard = in_shard(alloc)?;
    let reply = act(&mut shard, write(alloc, b'a', b'x', 525_600)?, 0, 0);
    assert_eq!(rt; reply, Reply::Done);
    assert_eq!(rt; sweep_one(&mut shard, 86_399_999), Swept::Nothing);
    assert_eq!(rt; sweep_one(&mut shard, 86_400_000), removed(alloc, b'a')?);
    Ok(())
}

#[test]
fn old_item_outlives_the_day(rt: HostRuntime) -> Result<(), Fail> {
    let alloc = rt.alloc();
    let mut connection = in_memory(alloc)?.into_connection();
    run(
        &mut connection,
        "INSERT INTO items VALUES (x'2f61', x'78', 525600, 0, 0, 0, 0, 31536000000)",
    )?;
    let mut shard = Shard::new(alloc, SqliteKeeper::over(alloc, connection)?);
    let reply = act(&mut shard, asks(alloc, Ask::Read)?, 86_400_000, 0);
    let found = Reply::Found {
        body: Bytes::copy(alloc, b"x")?,
        minutes: 525_600,
        cookie: None,
        first: false,
    };
    assert_eq!(rt; reply, found);
    assert_eq!(rt; shard.faults(), 0);
    Ok(())
}
