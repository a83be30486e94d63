//! Requests and replies are read as they were written, and what is no message is refused.
use crate::replies::replies_of;
use crate::requests::requests_of;
use asp_base::{Bytes, NoMemory};
use asp_messages::{
    Ask, Reply, Request, named, reply_body, reply_head, spell_ask, spell_dated, write_request,
};
use std::alloc::Global;
use std::test::Fail;

const SIZES: [usize; 3] = [1, 2, 16_384];

const LAST_COOKIE: u64 = 9_223_372_036_854_775_807;

const LAST_AGE: u64 = 4_611_686_018_427_387_904;

/// Texts of a reply stream, and what is read of them.
const REPLIES: [(&[u8], &[u8]); 28] = [
    (
        b"HTTP/1.1 200 OK\r\nTimeout:20\r\nX-AspNet-Version: 4.0\r\nContent-Length:0\r\n\r\n",
        b"found 0 20 0 x\nend\n",
    ),
    (b"HTTP/1.1 302 Found\r\n\r\n", b"strange 302\nend\n"),
    (
        b"HTTP/1.1 423 Locked\r\nLockCookie: 1\r\n\r\n",
        b"strange 423\nend\n",
    ),
    (
        b"HTTP/1.1 423 Locked\r\nLockAge: 1\r\n\r\n",
        b"strange 423\nend\n",
    ),
    (
        b"HTTP/1.1 423 Locked\r\nlockage: 04611686018427387904\r\nLOCKCOOKIE: 0\r\n\r\n",
        b"locked 0 4611686018427387904 -\nend\n",
    ),
    (
        b"HTTP/1.1 423 Locked\r\nLockAge: 4611686018427387905\r\nLockCookie: 0\r\n\r\n",
        b"strange 423\nend\n",
    ),
    (
        b"HTTP/1.1 423 Locked\r\nLockAge: 1\r\nLockAge: 1\r\nLockCookie: 0\r\n\r\n",
        b"strange 423\nend\n",
    ),
    // The moment of the acquisition is told where it is one; whatever stands there, the reply is
    // read.
    (
        b"HTTP/1.1 423 Locked\r\nLockCookie: 1\r\nLockAge: 2\r\n\r\n",
        b"locked 1 2 -\nend\n",
    ),
    (
        b"HTTP/1.1 423 Locked\r\nLockCookie: 1\r\nLockAge: 2\r\nLockDate: today\r\n\r\n",
        b"locked 1 2 -\nend\n",
    ),
    (
        b"HTTP/1.1 423 Locked\r\nLockCookie: 1\r\nLockAge: 2\r\n\
            LockDate: 635000000000000000\r\n\r\n",
        b"locked 1 2 635000000000000000\nend\n",
    ),
    (
        b"HTTP/1.1 423 Locked\r\nlockdate: 04611686018427387904\r\nLockCookie: 1\r\n\
            LockAge: 2\r\n\r\n",
        b"locked 1 2 4611686018427387904\nend\n",
    ),
    (
        b"HTTP/1.1 423 Locked\r\nLockCookie: 1\r\nLockAge: 2\r\n\
            LockDate: 4611686018427387905\r\n\r\n",
        b"locked 1 2 -\nend\n",
    ),
    (
        b"HTTP/1.1 423 Locked\r\nLockCookie: 1\r\nLockAge: 2\r\nLockDate: 1\r\n\
            LockDate: 1\r\n\r\n",
        b"locked 1 2 -\nend\n",
    ),
    (b"HTTP/1.1 200 OK\r\n\r\n", b"done\nend\n"),
    (
        b"HTTP/1.0 200\r\nContent-Length: 1\r\n\r\nx",
        b"strange 200\nend\n",
    ),
    (
        b"HTTP/1.1 200 OK\r\nLockCookie: no\r\nActionFlags: 2\r\n\r\n",
        b"done\nend\n",
    ),
    (
        b"HTTP/1.1 200 OK\r\nTimeout: 1\r\nActionFlags: 2\r\n\r\n",
        b"strange 200\nend\n",
    ),
    (
        b"HTTP/1.1 200 OK\r\nTimeout: 1\r\nActionFlags: 0\r\nLockCookie: 0\r\n\r\n",
        b"found 0 1 0 x\nend\n",
    ),
    (
        b"HTTP/1.1 200 OK\r\nTimeout: 1\r\nTimeout: 1\r\n\r\n",
        b"strange 200\nend\n",
    ),
    (
        b"HTTP/1.1 200 OK\r\nTimeout: 0\r\n\r\n",
        b"strange 200\nend\n",
    ),
    (
        b"HTTP/1.1 200 OK\r\nTimeout: 525601\r\n\r\n",
        b"strange 200\nend\n",
    ),
    (
        b"HTTP/1.1 200 OK\r\nTimeout: 1\r\nLockCookie: 9223372036854775808\r\n\r\n",
        b"strange 200\nend\n",
    ),
    (
        b"HTTP/1.1 404 Gone\r\nTimeout: no\r\nContent-Length: 2\r\n\r\nzzHTTP/1.1 400 Bad\n\n",
        b"missing\nbad\nend\n",
    ),
    (
        b"HTTP/1.1 500 a\r\n\r\nHTTP/1.1 503 b\r\n\r\nHTTP/1.1 507 c\r\n\r\nHTTP/1.1 508 d\r\n\r\n",
        b"keeper-fault\nno-memory\ncookies-out\nplaces-out\nend\n",
    ),
    (b"HTTP/1.1 200 OK\r\nContent-Length: 5\r\n\r\nab", b"cut\n"),
    (
        b"HTTP/1.1 200 OK\r\nContent-Length: 4194305\r\n\r\n",
        b"broken\ncut\n",
    ),
    (b"HTTP/1.1 404 Gone\r\n\r\n\r\n", b"missing\ncut\n"),
    (b"", b"end\n"),
];

#[test]
fn replies_of_a_server_are_read(rt: HostRuntime) -> Result<(), Fail> {
    for (text, want) in REPLIES {
        for size in SIZES {
            let told = replies_of(rt.alloc(), text, size)?;
            assert_eq!(rt; told.as_slice(), want, "at {size}");
        }
    }
    Ok(())
}

#[test]
fn no_head_breaks_either_reader(rt: HostRuntime) -> Result<(), Fail> {
    let text = [b'a'; 8192];
    let replies = replies_of(rt.alloc(), &text, 16_384)?;
    assert_eq!(rt; replies.as_slice(), b"broken\ncut\n".as_slice());
    let requests = requests_of(rt.alloc(), &text, 16_384)?;
    assert_eq!(rt; requests.as_slice(), b"broken\ncut\n".as_slice());
    Ok(())
}

/// Adds the reply's canonical text to a stream, and the line that is told of it.
fn send_reply(wire: &mut Vec<u8>, want: &mut Vec<u8>, reply: &Reply) -> Result<(), NoMemory> {
    wire.extend_from_slice(reply_head(reply).as_slice())?;
    wire.extend_from_slice(reply_body(reply))?;
    spell_dated(want, reply)?;
    want.push(b'\n')?;
    Ok(())
}

/// Adds the request's canonical text to a stream, and the line that is told of it.
fn send_request(wire: &mut Vec<u8>, want: &mut Vec<u8>, request: &Request) -> Result<(), NoMemory> {
    write_request(wire, request)?;
    want.extend_from_slice(request.key.as_slice())?;
    want.push(b' ')?;
    spell_ask(want, &request.ask)?;
    want.push(b'\n')?;
    Ok(())
}

/// Bodies, minutes, cookies (0 is none) and flags at the ends of their ranges.
const CONTENTS: [(&[u8], u64, u64, bool); 4] = [
    (b"", 1, 0, false),
    (b"", 1, 1, true),
    (b"\r\n", 525_600, 0, true),
    (&[0; 300], 525_600, LAST_COOKIE, false),
];

fn plain_reply(number: u8) -> Reply {
    match number {
        0 => Reply::Done,
        1 => Reply::Locked {
            cookie: 0,
            age: 0,
            since: None,
        },
        2 => Reply::Locked {
            cookie: LAST_COOKIE,
            age: LAST_AGE,
            since: Some(1 << 62),
        },
        3 => Reply::Missing,
        4 => Reply::Bad,
        5 => Reply::KeeperFault,
        6 => Reply::NoMemory,
        7 => Reply::CookiesOut,
        _ => Reply::PlacesOut,
    }
}

fn plain_ask(number: u8) -> Ask {
    match number {
        0 => Ask::Read,
        1 => Ask::Acquire,
        2 => Ask::Release { cookie: 0 },
        3 => Ask::Release {
            cookie: LAST_COOKIE,
        },
        4 => Ask::Remove { cookie: None },
        5 => Ask::Remove { cookie: Some(1) },
        6 => Ask::Remove {
            cookie: Some(LAST_COOKIE),
        },
        _ => Ask::Reset,
    }
}

fn send_replies(alloc: Global, wire: &mut Vec<u8>, want: &mut Vec<u8>) -> Result<(), NoMemory> {
    for (body, minutes, cookie, first) in CONTENTS {
        let body = Bytes::copy(alloc, body)?;
        let cookie = named(cookie);
        let found = Reply::Found {
            body,
            minutes,
            cookie,
            first,
        };
        send_reply(wire, want, &found)?;
    }
    for number in 0..9u8 {
        send_reply(wire, want, &plain_reply(number))?;
    }
    Ok(())
}

fn send_writes(alloc: Global, wire: &mut Vec<u8>, want: &mut Vec<u8>) -> Result<(), NoMemory> {
    for (body, minutes, cookie, fresh) in CONTENTS {
        let body = Bytes::copy(alloc, body)?;
        let cookie = named(cookie);
        let key = Bytes::copy(alloc, &[255; 1024])?;
        let ask = Ask::Write {
            body,
            minutes,
            fresh,
            cookie,
        };
        send_request(wire, want, &Request { key, ask })?;
    }
    Ok(())
}

fn send_plain_asks(alloc: Global, wire: &mut Vec<u8>, want: &mut Vec<u8>) -> Result<(), NoMemory> {
    for number in 0..8u8 {
        let key = Bytes::copy(alloc, b"/")?;
        let ask = plain_ask(number);
        send_request(wire, want, &Request { key, ask })?;
    }
    Ok(())
}

fn send_keys(alloc: Global, wire: &mut Vec<u8>, want: &mut Vec<u8>) -> Result<(), NoMemory> {
    for byte in 0..=255u8 {
        let key = Bytes::copy(alloc, &[byte])?;
        let ask = Ask::Read;
        send_request(wire, want, &Request { key, ask })?;
    }
    Ok(())
}

#[test]
fn replies_are_read_as_they_were_written(rt: HostRuntime) -> Result<(), Fail> {
    let alloc = rt.alloc();
    let mut wire = Vec::new(alloc);
    let mut want = Vec::new(alloc);
    send_replies(alloc, &mut wire, &mut want)?;
    want.extend_from_slice(b"end\n")?;
    for size in SIZES {
        let told = replies_of(alloc, &wire, size)?;
        assert!(rt; told.as_slice() == want.as_slice(), "at {size}");
    }
    Ok(())
}

#[test]
fn requests_are_read_as_they_were_written(rt: HostRuntime) -> Result<(), Fail> {
    let alloc = rt.alloc();
    let mut wire = Vec::new(alloc);
    let mut want = Vec::new(alloc);
    send_writes(alloc, &mut wire, &mut want)?;
    send_plain_asks(alloc, &mut wire, &mut want)?;
    send_keys(alloc, &mut wire, &mut want)?;
    want.extend_from_slice(b"end\n")?;
    for size in SIZES {
        let told = requests_of(alloc, &wire, size)?;
        assert!(rt; told.as_slice() == want.as_slice(), "at {size}");
    }
    Ok(())
}
