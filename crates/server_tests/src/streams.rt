//! One stream: what is written, how it ends, and that cuts change nothing.
ghost use Rattle.std.specs.Prelude.{IfOk};
ghost use Rattle.state_store.specs.Passes.{IsPassOf};

use crate::memory::{BAD, DONE, LAST_COOKIE, MISSING, clock, joined, keepers, sink, source};
use crate::serve_runs::read_item;
use asp_base::{ListClock, MemorySink, MemorySource, OpenGate};
use keeper::MapKeeper;
use state_store::{FreshStore, Pass, Store};
use std::alloc::Global;
use std::process::Abort;
use std::rt::Clock as HostTime;
use std::str;
use std::sync::Wait;
use std::test::Fail;
use stream_server::{StreamEnd, serve_stream};

const WRITE: &str = "PUT /a HTTP/1.1\r\nContent-Length: 1\r\n\r\nx";

const READ: &str = "GET /a HTTP/1.1\r\n\r\n";

const ACQUIRE: &str = "GET /a HTTP/1.1\r\nExclusive: acquire\r\n\r\n";

const RELEASE_OF_NONE: &str = "GET /a HTTP/1.1\r\nExclusive: release\r\n\r\n";

const CUT_SHORT: &str = "PUT /a HTTP/1.1\r\nContent-Length: 5\r\n\r\nab";

const TOO_LONG: &str =
    "PUT /a HTTP/1.1\r\nContent-Length: 4194305\r\n\r\nabGET /a HTTP/1.1\r\n\r\n";

const FOUND: &str = "HTTP/1.1 200 OK\r\nTimeout: 20\r\nContent-Length: 1\r\n\r\nx";

const FOUND_1: &str =
    "HTTP/1.1 200 OK\r\nTimeout: 20\r\nLockCookie: 1\r\nContent-Length: 1\r\n\r\nx";

/// The lock of cookie 1, acquired at 5000.
const LOCKED_0: &str = "HTTP/1.1 423 Locked\r\nLockCookie: 1\r\nLockAge: 0\r\nLockDate: 5000\r\n\
    Content-Length: 0\r\n\r\n";

/// What is sent, in pieces of how many bytes, and which reads fail; how many bytes a write takes,
/// and which writes fail; what is written, how many bytes of it (0 is all), the end, and how many
/// entries the history has then.
struct Case {
    sent: &'static [&'static str],
    cut: u64,
    read_fails: &'static [u64],
    taken: u64,
    write_fails: &'static [u64],
    written: &'static [&'static str],
    front: usize,
    end: StreamEnd,
    entries: u64,
}

/// Whole messages in one piece, and nothing fails.
const WHOLE: Case = Case {
    sent: &[],
    cut: 16_384,
    read_fails: &[],
    taken: 16_384,
    write_fails: &[],
    written: &[],
    front: 0,
    end: StreamEnd::Closed,
    entries: 0,
};

const CASES: [Case; 14] = [
    WHOLE,
    // The moments are 0, 5000 and 1000: a lock that begins later is 0 seconds old.
    Case {
        sent: &[WRITE, ACQUIRE, READ],
        written: &[DONE, FOUND_1, LOCKED_0],
        entries: 3,
        ..WHOLE
    },
    // What is no request is answered, has no place, and the stream goes on.
    Case {
        sent: &[RELEASE_OF_NONE, READ],
        written: &[BAD, MISSING],
        entries: 1,
        ..WHOLE
    },
    // The input ends inside a body, inside a head.
    Case {
        sent: &[READ, CUT_SHORT],
        written: &[MISSING, BAD],
        end: StreamEnd::Broken,
        entries: 1,
        ..WHOLE
    },
    Case {
        sent: &["G"],
        written: &[BAD],
        end: StreamEnd::Broken,
        ..WHOLE
    },
    // No message can begin so; what follows is not read as one.
    Case {
        sent: &[READ, TOO_LONG],
        written: &[MISSING, BAD],
        end: StreamEnd::Broken,
        entries: 1,
        ..WHOLE
    },
    // The source fails after both messages, inside the second, and at once.
    Case {
        sent: &[WRITE, READ],
        read_fails: &[1],
        written: &[DONE, FOUND],
        end: StreamEnd::ReadFault,
        entries: 2,
        ..WHOLE
    },
    Case {
        sent: &[WRITE, READ],
        cut: 1,
        read_fails: &[50],
        written: &[DONE],
        end: StreamEnd::ReadFault,
        entries: 1,
        ..WHOLE
    },
    Case {
        sent: &[WRITE, READ],
        read_fails: &[0],
        end: StreamEnd::ReadFault,
        ..WHOLE
    },
    // The sink fails at the second reply, inside it, and at once; the request has its place.
    Case {
        sent: &[WRITE, READ],
        write_fails: &[1],
        written: &[DONE],
        end: StreamEnd::WriteFault,
        entries: 2,
        ..WHOLE
    },
    Case {
        sent: &[WRITE, READ, READ],
        taken: 1,
        write_fails: &[40],
        written: &[DONE, FOUND],
        front: 40,
        end: StreamEnd::WriteFault,
        entries: 2,
        ..WHOLE
    },
    Case {
        sent: &[WRITE, READ],
        write_fails: &[0],
        end: StreamEnd::WriteFault,
        entries: 1,
        ..WHOLE
    },
    // The sink fails while the last reply says that the input is broken.
    Case {
        sent: &[READ, TOO_LONG],
        taken: 1,
        write_fails: &[50],
        written: &[MISSING, BAD],
        front: 50,
        end: StreamEnd::WriteFault,
        entries: 1,
        ..WHOLE
    },
    // Both would fail; the reply comes first.
    Case {
        sent: &[WRITE, READ],
        read_fails: &[1],
        write_fails: &[1],
        written: &[DONE],
        end: StreamEnd::WriteFault,
        entries: 2,
        ..WHOLE
    },
];

/// A new store of 8 shards, and its first pass.
#[derive(Drop)]
struct Begun {
    store: Store<MapKeeper>,
    pass: Pass<MapKeeper>,
}

fn begin<R>(rt: &R, alloc: Global) -> Result<Begun, Fail>
    ensures { IfOk result (λ begun. IsPassOf begun.store begun.pass) }
{
    let fresh = Store::new(rt, alloc, keepers(alloc, 8)?, 1, LAST_COOKIE, 0)?;
    let FreshStore { store, mut roll } = fresh;
    let pass = store.pass(rt, alloc, &mut roll)?;
    Ok(Begun { store, pass })
}

/// Serves one stream in memory.
fn serve_one<R: Wait + HostTime>(
    rt: &R,
    alloc: Global,
    store: &Store<MapKeeper>,
    pass: &mut Pass<MapKeeper>,
    input: &mut MemorySource,
    output: &mut MemorySink,
    clock: &mut ListClock,
) -> StreamEnd
    requires { IsPassOf store.now pass.old }
    ensures { IsPassOf store.now pass.new }
{
    serve_stream(rt, alloc, store, pass, input, output, clock, &OpenGate)
}

/// Serves the case's stream over a new store.
fn check<R: Abort + Wait + HostTime>(
    rt: &R,
    alloc: Global,
    at: usize,
    case: &Case,
) -> Result<(), Fail> {
    let text = joined(alloc, case.sent)?;
    let mut input = source(alloc, text, case.cut, case.read_fails)?;
    let mut output = sink(alloc, 1_024, case.taken, case.write_fails)?;
    let mut clock = clock(alloc, &[0, 5_000, 1_000])?;
    let Begun { store, mut pass } = begin(rt, alloc)?;
    let end = serve_one(
        rt,
        alloc,
        &store,
        &mut pass,
        &mut input,
        &mut output,
        &mut clock,
    );
    assert_eq!(rt; end, case.end, "case {at}");
    let mut written = joined(alloc, case.written)?;
    if case.front > 0 {
        written.truncate(case.front);
    }
    assert_eq!(rt;
        str::from_utf8(output.taken()),
        str::from_utf8(written.as_slice()),
        "case {at}"
    );
    let answer = read_item(rt, alloc, &store, &mut pass, b'a', 5_000).ok_or("no memory")?;
    assert_eq!(rt; answer.place, Some(case.entries), "case {at}");
    Ok(())
}

#[test]
fn each_stream_is_answered_and_comes_to_its_end(rt: HostRuntime) -> Result<(), Fail> {
    for (at, case) in CASES.iter().enumerate() {
        check(&rt, rt.alloc(), at, case)?;
    }
    Ok(())
}

/// A body that is longer than a read and than a text that is written at once.
const BODY: usize = 20_000;

/// Five messages with long content.
fn long_text(alloc: Global) -> Result<Vec<u8>, Fail> {
    let mut text = joined(alloc, &["PUT /a HTTP/1.1\r\nContent-Length: 20000\r\n\r\n"])?;
    text.resize(text.len().min(100) + BODY, b'y')?;
    text.extend_from_slice(joined(alloc, &[READ, RELEASE_OF_NONE, ACQUIRE, TOO_LONG])?.as_slice())?;
    Ok(text)
}

/// What is written to those.
fn long_replies(alloc: Global) -> Result<Vec<u8>, Fail> {
    let head = "HTTP/1.1 200 OK\r\nTimeout: 20\r\nContent-Length: 20000\r\n\r\n";
    let mut want = joined(alloc, &[DONE, head])?;
    want.resize(want.len().min(200) + BODY, b'y')?;
    let head = "HTTP/1.1 200 OK\r\nTimeout: 20\r\nLockCookie: 1\r\nContent-Length: 20000\r\n\r\n";
    want.extend_from_slice(joined(alloc, &[BAD, head])?.as_slice())?;
    want.resize(want.len().min(100_000) + BODY, b'y')?;
    want.extend_from_slice(BAD.as_bytes())?;
    Ok(want)
}

/// A stream of five messages with long content, in such pieces.
fn check_cut<R: Abort + Wait + HostTime>(rt: &R, alloc: Global, piece: u64) -> Result<(), Fail> {
    let mut input = source(alloc, long_text(alloc)?, piece, &[])?;
    let mut output = sink(alloc, 65_536, piece, &[])?;
    let mut clock = clock(alloc, &[])?;
    let Begun { store, mut pass } = begin(rt, alloc)?;
    let end = serve_one(
        rt,
        alloc,
        &store,
        &mut pass,
        &mut input,
        &mut output,
        &mut clock,
    );
    let want = long_replies(alloc)?;
    assert_eq!(rt; end, StreamEnd::Broken, "at {piece}");
    assert!(rt; output.taken() == want.as_slice(), "at {piece}");
    Ok(())
}

#[test]
fn no_reply_depends_on_cuts(rt: HostRuntime) -> Result<(), Fail> {
    for piece in [1, 7, 16_384] {
        check_cut(&rt, rt.alloc(), piece)?;
    }
    Ok(())
}
