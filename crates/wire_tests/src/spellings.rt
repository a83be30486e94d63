//! The canonical texts of requests, and the plain spellings of asks and replies.
use asp_base::{Bytes, NoMemory};
use asp_messages::{Ask, Reply, Request, spell_ask, spell_dated, spell_reply, write_request};
use std::alloc::Global;
use std::test::Fail;

const UPPER_DIGITS: [u8; 16] = *b"0123456789ABCDEF";

const PLAIN: &[u8] = b"ABCDEFGHIJKLMNOPQRSTUVWXYZabcdefghijklmnopqrstuvwxyz0123456789-._~()";

fn text_of(alloc: Global, key: &[u8], ask: Ask) -> Result<Vec<u8>, NoMemory> {
    let key = Bytes::copy(alloc, key)?;
    let mut out = Vec::from_slice(alloc, b">")?;
    write_request(&mut out, &Request { key, ask })?;
    Ok(out)
}

fn write_of(alloc: Global, body: &[u8], fresh: bool, cookie: Option<u64>) -> Result<Ask, NoMemory> {
    Ok(Ask::Write {
        body: Bytes::copy(alloc, body)?,
        minutes: 525_600,
        fresh,
        cookie,
    })
}

const LAST_COOKIE: u64 = 9_223_372_036_854_775_807;

fn plain_ask(number: u8) -> Ask {
    match number {
        0 => Ask::Release { cookie: 2 },
        1 => Ask::Read,
        2 => Ask::Acquire,
        3 => Ask::Reset,
        4 => Ask::Remove { cookie: None },
        _ => Ask::Remove {
            cookie: Some(LAST_COOKIE),
        },
    }
}

/// The texts of the plain asks on a key.
const TEXTS: [(u8, &[u8], &[u8]); 6] = [
    (
        0,
        b"/a",
        b">GET %2Fa HTTP/1.1\r\nHost: state\r\nExclusive: release\r\nLockCookie: 2\r\n\r\n",
    ),
    (1, b"a b", b">GET a%20b HTTP/1.1\r\nHost: state\r\n\r\n"),
    (
        2,
        b"~(",
        b">GET ~( HTTP/1.1\r\nHost: state\r\nExclusive: acquire\r\n\r\n",
    ),
    (3, b"a", b">HEAD a HTTP/1.1\r\nHost: state\r\n\r\n"),
    (4, b"a", b">DELETE a HTTP/1.1\r\nHost: state\r\n\r\n"),
    (
        5,
        b"a",
        b">DELETE a HTTP/1.1\r\nHost: state\r\nLockCookie: 9223372036854775807\r\n\r\n",
    ),
];

#[test]
fn requests_have_their_canonical_text(rt: HostRuntime) -> Result<(), Fail> {
    for (number, key, want) in TEXTS {
        let text = text_of(rt.alloc(), key, plain_ask(number))?;
        assert_eq!(rt; text.as_slice(), want);
    }
    Ok(())
}

#[test]
fn writes_have_their_canonical_text(rt: HostRuntime) -> Result<(), Fail> {
    let alloc = rt.alloc();
    let write = text_of(alloc, b"a", write_of(alloc, b"", false, None)?)?;
    assert_eq!(rt;
        write.as_slice(),
        b">PUT a HTTP/1.1\r\nHost: state\r\nTimeout: 525600\r\nContent-Length: 0\r\n\r\n".as_slice()
    );
    let whole = text_of(alloc, b"a", write_of(alloc, b"x\n", true, Some(1))?)?;
    let mut want = Vec::from_slice(alloc, b">PUT a HTTP/1.1\r\nHost: state\r\n")?;
    want.extend_from_slice(b"Timeout: 525600\r\nExtraFlags: 1\r\nLockCookie: 1\r\n")?;
    want.extend_from_slice(b"Content-Length: 2\r\n\r\nx\n")?;
    assert_eq!(rt; whole.as_slice(), want.as_slice());
    Ok(())
}

#[test]
fn each_byte_of_a_key_is_plain_or_escaped(rt: HostRuntime) -> Result<(), Fail> {
    let alloc = rt.alloc();
    for byte in 0..=255u8 {
        let text = text_of(alloc, &[byte], Ask::Read)?;
        let mut want = Vec::from_slice(alloc, b">GET ")?;
        if PLAIN.contains(&byte) {
            want.push(byte)?;
        } else {
            want.push(b'%')?;
            want.push(UPPER_DIGITS[(byte / 16) as usize])?;
            want.push(UPPER_DIGITS[(byte % 16) as usize])?;
        }
        want.extend_from_slice(b" HTTP/1.1\r\nHost: state\r\n\r\n")?;
        assert_eq!(rt; text.as_slice(), want.as_slice(), "at {byte}");
    }
    Ok(())
}

#[test]
fn asks_have_their_plain_spelling(rt: HostRuntime) -> Result<(), Fail> {
    let alloc = rt.alloc();
    let rows = [
        (Ask::Read, b">read".as_slice()),
        (Ask::Acquire, b">acquire"),
        (Ask::Release { cookie: 0 }, b">release 0"),
        (write_of(alloc, b"", false, None)?, b">write 0 525600 0 x"),
        (
            write_of(alloc, b"\x00\xafz", true, Some(7))?,
            b">write 7 525600 1 x00af7a",
        ),
        (Ask::Remove { cookie: None }, b">remove 0"),
        (Ask::Remove { cookie: Some(10) }, b">remove 10"),
        (Ask::Reset, b">reset"),
    ];
    for (ask, want) in &rows {
        let mut out = Vec::from_slice(alloc, b">")?;
        spell_ask(&mut out, ask)?;
        assert_eq!(rt; out.as_slice(), *want);
    }
    Ok(())
}

#[test]
fn replies_have_their_plain_spelling(rt: HostRuntime) -> Result<(), Fail> {
    let alloc = rt.alloc();
    let found = Reply::Found {
        body: Bytes::copy(alloc, b"abc")?,
        minutes: 20,
        cookie: Some(1),
        first: false,
    };
    let fresh = Reply::Found {
        body: Bytes::copy(alloc, b"")?,
        minutes: 1,
        cookie: None,
        first: true,
    };
    let rows = [
        (found, b">found 1 20 0 x616263".as_slice()),
        (fresh, b">found 0 1 1 x"),
        (Reply::Done, b">done"),
        (
            Reply::Locked {
                cookie: 2,
                age: 0,
                since: None,
            },
            b">locked 2 0",
        ),
        (Reply::Missing, b">missing"),
        (Reply::Bad, b">bad"),
        (Reply::KeeperFault, b">keeper-fault"),
        (Reply::NoMemory, b">no-memory"),
        (Reply::CookiesOut, b">cookies-out"),
        (Reply::PlacesOut, b">places-out"),
    ];
    for (reply, want) in &rows {
        let mut out = Vec::from_slice(alloc, b">")?;
        spell_reply(&mut out, reply)?;
        assert_eq!(rt; out.as_slice(), *want);
    }
    Ok(())
}

/// The moment of an acquisition, and the spellings of a lock without and with it.
const LOCKS: [(Option<u64>, &[u8], &[u8]); 3] = [
    (None, b">locked 2 1", b">locked 2 1 -"),
    (Some(0), b">locked 2 1", b">locked 2 1 0"),
    (
        Some(4_611_686_018_427_387_904),
        b">locked 2 1",
        b">locked 2 1 4611686018427387904",
    ),
];

#[test]
fn a_lock_is_spelled_with_and_without_its_moment(rt: HostRuntime) -> Result<(), Fail> {
    for (since, plain, dated) in LOCKS {
        let reply = Reply::Locked {
            cookie: 2,
            age: 1,
            since,
        };
        let mut out = Vec::from_slice(rt.alloc(), b">")?;
        spell_reply(&mut out, &reply)?;
        assert_eq!(rt; out.as_slice(), plain);
        let mut out = Vec::from_slice(rt.alloc(), b">")?;
        spell_dated(&mut out, &reply)?;
        assert_eq!(rt; out.as_slice(), dated);
    }
    Ok(())
}
