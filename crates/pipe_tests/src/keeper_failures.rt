//! Each call of a keeper fails once.
ghost use Rattle.std.specs.Prelude.{IfOk};
ghost use Rattle.asp_messages.specs.Ranges.{RequestFits};

use crate::pieces::{DONE, joined, sink};
use crate::running::{PIPE, pipe_status, source};
use asp_base::{Bytes, NoMemory};
use asp_messages::{Ask, Reply, Request};
use keeper::{FaultyKeeper, ListKeeper, MapKeeper};
use shard_core::{Shard, Swept};
use std::alloc::Global;
use std::test::Fail;

/// A write, two acquires and a read of one key.
const REQUESTS: &[u8] = b"PUT /a HTTP/1.1\r\nContent-Length: 1\r\n\r\nx\
    GET /a HTTP/1.1\r\nExclusive: acquire\r\n\r\n\
    GET /a HTTP/1.1\r\nExclusive: acquire\r\n\r\n\
    GET /a HTTP/1.1\r\n\r\n";

const FAULT: &str = "HTTP/1.1 500 Keeper Fault\r\nContent-Length: 0\r\n\r\n";

const MISSING: &str = "HTTP/1.1 404 Not Found\r\nContent-Length: 0\r\n\r\n";

/// What was found and locked, with cookie 1 and with cookie 2.
const GRANTED_1: &str =
    "HTTP/1.1 200 OK\r\nTimeout: 20\r\nLockCookie: 1\r\nContent-Length: 1\r\n\r\nx";

const GRANTED_2: &str =
    "HTTP/1.1 200 OK\r\nTimeout: 20\r\nLockCookie: 2\r\nContent-Length: 1\r\n\r\nx";

/// A lock in the way: by its cookie, and its age in seconds. The one of cookie 1 was acquired at
/// 1000, that of cookie 2 at 2000.
const LOCKED_1_1: &str = "HTTP/1.1 423 Locked\r\nLockCookie: 1\r\nLockAge: 1\r\nLockDate: 1000\r\n\
    Content-Length: 0\r\n\r\n";

const LOCKED_1_2: &str = "HTTP/1.1 423 Locked\r\nLockCookie: 1\r\nLockAge: 2\r\nLockDate: 1000\r\n\
    Content-Length: 0\r\n\r\n";

const LOCKED_2_1: &str = "HTTP/1.1 423 Locked\r\nLockCookie: 2\r\nLockAge: 1\r\nLockDate: 2000\r\n\
    Content-Length: 0\r\n\r\n";

/// The replies where the k-th call of the keeper fails: a write and a first acquire make two calls,
/// a refused acquire and a refused read one.
const ROWS: [(u64, [&str; 4]); 7] = [
    (0, [FAULT, MISSING, MISSING, MISSING]),
    (1, [FAULT, MISSING, MISSING, MISSING]),
    (2, [DONE, FAULT, GRANTED_2, LOCKED_2_1]),
    (3, [DONE, FAULT, GRANTED_2, LOCKED_2_1]),
    (4, [DONE, GRANTED_1, FAULT, LOCKED_1_2]),
    (5, [DONE, GRANTED_1, LOCKED_1_1, FAULT]),
    (6, [DONE, GRANTED_1, LOCKED_1_1, LOCKED_1_2]),
];

#[test]
fn a_keeper_that_fails_is_answered_and_changes_nothing(rt: HostRuntime) -> Result<(), Fail> {
    let alloc = rt.alloc();
    for (call, replies) in ROWS {
        let wanted = joined(alloc, &replies)?;
        let mut input = source(alloc, REQUESTS, 16_384, &[])?;
        let mut output = sink(alloc, 16_384, &[])?;
        let keeper = FaultyKeeper::new(MapKeeper::new(alloc), Vec::from_slice(alloc, &[call])?);
        let status = pipe_status(alloc, PIPE, &mut input, &mut output, keeper);
        assert_eq!(rt; status, 0, "call {call}");
        assert!(rt; output.taken() == wanted.as_slice(), "call {call}");
    }
    Ok(())
}

/// A write of `x` under `/a`, that lives for one minute.
fn write(alloc: Global) -> Result<Request, NoMemory>
    ensures { IfOk result RequestFits }
{
    Ok(Request {
        key: Bytes::copy(alloc, b"/a")?,
        ask: Ask::Write {
            body: Bytes::copy(alloc, b"x")?,
            minutes: 1,
            fresh: false,
            cookie: None,
        },
    })
}

#[test]
fn a_look_that_fails_removes_nothing_and_the_next_removes(rt: HostRuntime) -> Result<(), Fail> {
    let alloc = rt.alloc();
    // The write makes calls 0 and 1, the first look call 2.
    let keeper = FaultyKeeper::new(ListKeeper::new(alloc), Vec::from_slice(alloc, &[2])?);
    let mut shard = Shard::new(alloc, keeper);
    assert!(rt; matches!(shard.act(write(alloc)?, 0, 0), Reply::Done));
    assert_eq!(rt; shard.sweep_one(60_000), Swept::KeeperFault);
    assert_eq!(rt; shard.faults(), 1);
    let key = Bytes::copy(alloc, b"/a")?;
    assert_eq!(rt; shard.sweep_one(60_000), Swept::Removed { key });
    Ok(())
}
