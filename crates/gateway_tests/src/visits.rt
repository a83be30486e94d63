//! Pages that find a lock in their way, and pages whose visit does not come to its end.
use crate::running::{run_words, sink, source, status_over, values, words_of};
use keeper::{FaultyKeeper, MapKeeper};
use std::alloc::Global;
use std::test::Fail;

const PUT: &[u8] = b"POST /put HTTP/1.1\r\nCookie: ASP.NET_SessionId=baaaaaaaaaaaaaaaaaaaaaaa\r\n\
    Content-Length: 1\r\n\r\nx";

const GET: &[u8] =
    b"GET /get HTTP/1.1\r\nCookie: ASP.NET_SessionId=baaaaaaaaaaaaaaaaaaaaaaa\r\n\r\n";

const END: &[u8] =
    b"POST /end HTTP/1.1\r\nCookie: ASP.NET_SessionId=baaaaaaaaaaaaaaaaaaaaaaa\r\n\r\n";

const DONE: &[u8] = b"HTTP/1.1 200 OK\r\nContent-Length: 0\r\n\r\n";

const SHOWN: &[u8] = b"HTTP/1.1 200 OK\r\nContent-Length: 1\r\n\r\nx";

/// A visit of which the keeper failed a request.
const REFUSED: &[u8] = b"HTTP/1.1 503 Session Unavailable\r\nContent-Length: 11\r\n\r\nrefused 500";

/// The same, where the request had no identifier.
const REFUSED_NEW: &[u8] = b"HTTP/1.1 503 Session Unavailable\r\n\
    Set-Cookie: ASP.NET_SessionId=baaaaaaaaaaaaaaaaaaaaaaa; path=/; HttpOnly\r\n\
    Content-Length: 11\r\n\r\nrefused 500";

/// A visit that gave up: the cookie of the lock in its way, and the lock's age in seconds.
const GAVE_UP: &[u8] =
    b"HTTP/1.1 503 Session Unavailable\r\nContent-Length: 15\r\n\r\ngave-up 2230 55";

fn joined(alloc: Global, texts: &[&[u8]]) -> Result<Vec<u8>, Fail> {
    let mut all = Vec::new(alloc);
    for text in texts {
        all.extend_from_slice(text)?;
    }
    Ok(all)
}

/// Each row: page requests, all at the moment 0; the calls of the keeper that fail; the answers.
///
/// The first `put` makes three calls: its acquire finds no item, its write makes one. A later one
/// begins with an acquire of two calls; where its write fails, in its first call, the lock stays.
/// A page that finds it asks each half second, a call each, until the lock is older than 110
/// seconds: it is so at the moment 111,000 behind the lock's. Then it releases the lock by two
/// calls. Each such `put` leaves a lock that is 111 seconds younger, and draws a cookie for each
/// ask. The last page finds the lock of 444,000 with cookie 2,230, and has used up its 1,000 asks
/// at 499,500.
const ROWS: [(&[&[u8]], &[u64], &[&[u8]]); 4] = [
    (&[PUT, PUT, GET], &[5], &[DONE, REFUSED, SHOWN]),
    (
        &[PUT, PUT, PUT, PUT, PUT, PUT, GET],
        &[5, 233, 683, 1355, 2249],
        &[DONE, REFUSED, REFUSED, REFUSED, REFUSED, REFUSED, GAVE_UP],
    ),
    (&[PUT, GET, END, GET], &[], &[DONE, SHOWN, DONE, DONE]),
    (
        &[b"GET /touch HTTP/1.1\r\n\r\n", PUT],
        &[0],
        &[REFUSED_NEW, DONE],
    ),
];

#[test]
fn pages_wait_for_a_lock_and_give_up(rt: HostRuntime) -> Result<(), Fail> {
    let alloc = rt.alloc();
    let words = words_of(alloc, &["gate", "cookie", "0", "0"])?;
    for (requests, fails, answers) in ROWS {
        let text = joined(alloc, requests)?;
        let wanted = joined(alloc, answers)?;
        let mut input = source(alloc, &text, 16_384, &[])?;
        let mut output = sink(alloc, 16_384, &[])?;
        let keeper = FaultyKeeper::new(MapKeeper::new(alloc), Vec::from_slice(alloc, fails)?);
        let random = values(alloc, &[])?;
        let status = status_over(alloc, &words, &mut input, &mut output, keeper, random);
        assert_eq!(rt; status, 0);
        assert!(rt; output.taken() == wanted.as_slice());
    }
    Ok(())
}

#[test]
fn pages_begin_at_their_moments(rt: HostRuntime) -> Result<(), Fail> {
    let alloc = rt.alloc();
    let text = joined(alloc, &[PUT, GET])?;
    // A session lives 20 minutes; no moment is later than 2^61.
    for (start, step, last) in [
        ("0", "1199999", SHOWN),
        ("0", "1200000", DONE),
        ("2305843009213693952", "1200000", SHOWN),
    ] {
        let wanted = joined(alloc, &[DONE, last])?;
        let (status, sink) = run_words(alloc, &["gate", "cookie", start, step], &text, 7, &[])?;
        assert_eq!(rt; status, 0);
        assert!(rt; sink.taken() == wanted.as_slice());
    }
    Ok(())
}
