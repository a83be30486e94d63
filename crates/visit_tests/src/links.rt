//! Visits over a link in memory: what is sent, until when they pause, and how they end.
use crate::texts::{
    ACQUIRE, DONE, FOUND_2, LOCKED_110, LOCKED_111, MISSING, RELEASE_2, joined, moments_of,
};
use asp_base::{Bytes, ListClock};
use page_link::{MemoryLink, VisitEnd, run_visit};
use std::alloc::Global;
use std::process::Abort;
use std::rt::Clock as HostTime;
use std::str;
use std::sync::Wait;
use std::test::Fail;
use visit_core::{Ending, Limits, Need, Outcome, Visit};

// The moments of the clock, the replies that are received, and the numbers of the sends and the
// receipts that fail; what is sent, the moments until which the visit pauses, and the end.
struct Case {
    moments: &'static [u64],
    replies: &'static [&'static str],
    send_fails: &'static [u64],
    receive_fails: &'static [u64],
    sent: &'static [&'static str],
    pauses: &'static [u64],
    end: VisitEnd,
}

const CASES: [Case; 12] = [
    // There is no item, and nothing to keep.
    Case {
        moments: &[0],
        replies: &[MISSING],
        send_fails: &[],
        receive_fails: &[],
        sent: &[ACQUIRE],
        pauses: &[],
        end: VisitEnd::Over(Outcome::Done),
    },
    // What comes is no reply of the protocol.
    Case {
        moments: &[0],
        replies: &["HTTP/1.1 302 Found\r\n\r\n"],
        send_fails: &[],
        receive_fails: &[],
        sent: &[ACQUIRE],
        pauses: &[],
        end: VisitEnd::Over(Outcome::Refused { status: 302 }),
    },
    // The request can't be sent.
    Case {
        moments: &[0],
        replies: &[MISSING],
        send_fails: &[0],
        receive_fails: &[],
        sent: &[],
        pauses: &[],
        end: VisitEnd::Over(Outcome::LinkFault),
    },
    // The answer can't be received.
    Case {
        moments: &[0],
        replies: &[MISSING],
        send_fails: &[],
        receive_fails: &[0],
        sent: &[ACQUIRE],
        pauses: &[],
        end: VisitEnd::Over(Outcome::LinkFault),
    },
    // Nothing comes.
    Case {
        moments: &[0],
        replies: &[],
        send_fails: &[],
        receive_fails: &[],
        sent: &[ACQUIRE],
        pauses: &[],
        end: VisitEnd::BadReply,
    },
    // The answer ends inside its head.
    Case {
        moments: &[0],
        replies: &["HTTP/1.1 404 Not"],
        send_fails: &[],
        receive_fails: &[],
        sent: &[ACQUIRE],
        pauses: &[],
        end: VisitEnd::BadReply,
    },
    // The answer is no message of HTTP.
    Case {
        moments: &[0],
        replies: &["SIP/2.0 200 OK\r\n\r\n"],
        send_fails: &[],
        receive_fails: &[],
        sent: &[ACQUIRE],
        pauses: &[],
        end: VisitEnd::BadReply,
    },
    // The item is locked, and released at the page's end.
    Case {
        moments: &[0],
        replies: &[FOUND_2, DONE],
        send_fails: &[],
        receive_fails: &[],
        sent: &[ACQUIRE, RELEASE_2],
        pauses: &[],
        end: VisitEnd::Over(Outcome::Done),
    },
    // A lock as old as the timeout is waited for; then the page loses its own.
    Case {
        moments: &[0, 499, 500],
        replies: &[LOCKED_110, FOUND_2, LOCKED_111],
        send_fails: &[],
        receive_fails: &[],
        sent: &[ACQUIRE, ACQUIRE, RELEASE_2],
        pauses: &[500],
        end: VisitEnd::Over(Outcome::LostLocked {
            cookie: 2,
            age: 111,
        }),
    },
    // A turn before the moment pauses again, and the next poll is half a second after the last one.
    Case {
        moments: &[0, 0, 100, 600, 700, 1100],
        replies: &[LOCKED_110, LOCKED_110, FOUND_2, DONE],
        send_fails: &[],
        receive_fails: &[],
        sent: &[ACQUIRE, ACQUIRE, ACQUIRE, RELEASE_2],
        pauses: &[500, 500, 1100],
        end: VisitEnd::Over(Outcome::Done),
    },
    // An older one is released.
    Case {
        moments: &[0],
        replies: &[LOCKED_111, DONE, MISSING],
        send_fails: &[],
        receive_fails: &[],
        sent: &[ACQUIRE, RELEASE_2, ACQUIRE],
        pauses: &[],
        end: VisitEnd::Over(Outcome::Done),
    },
    // The polls are used up.
    Case {
        moments: &[0, 500, 1000, 1500],
        replies: &[LOCKED_110, LOCKED_110, LOCKED_111],
        send_fails: &[],
        receive_fails: &[],
        sent: &[ACQUIRE, ACQUIRE, ACQUIRE],
        pauses: &[],
        end: VisitEnd::Over(Outcome::GaveUp {
            cookie: 2,
            age: 111,
        }),
    },
];

// A link with room for so many bytes and so many pauses, over replies in such pieces.
fn link_of(
    alloc: Global,
    case: &Case,
    piece: u64,
    room: u64,
    pauses: u64,
) -> Result<MemoryLink, Fail> {
    let incoming = Bytes::adopt(joined(alloc, case.replies)?);
    let sends = Vec::from_slice(alloc, case.send_fails)?;
    let receipts = Vec::from_slice(alloc, case.receive_fails)?;
    let Ok(link) = MemoryLink::new(alloc, room, incoming, piece.max(1), sends, receipts) else {
        return Err("no memory".into());
    };
    match link.keeping_pauses(alloc, pauses) {
        Ok(link) => Ok(link),
        Err(_) => Err("no memory".into()),
    }
}

// The end of an exclusive page of `/s` that keeps its item and polls at most three times.
fn end_over<R: Wait + HostTime>(
    rt: &R,
    alloc: Global,
    case: &Case,
    link: &mut MemoryLink,
) -> Result<VisitEnd, Fail> {
    let limits = Limits {
        polls: 3,
        ..Limits::default()
    };
    let Ok(key) = Bytes::copy(alloc, b"/s") else {
        return Err("no memory".into());
    };
    let mut clock = ListClock::new(moments_of(alloc, case.moments)?);
    let mut visit = Visit::new(key, Need::Exclusive, limits);
    Ok(run_visit(rt, alloc, &mut visit, Ending::Keep, link, &mut clock))
}

// The visit over replies in such pieces comes to its end.
fn check<R: Abort + Wait + HostTime>(
    rt: &R,
    alloc: Global,
    case: &Case,
    piece: u64,
) -> Result<(), Fail> {
    let mut link = link_of(alloc, case, piece, 4_096, 16)?;
    let end = end_over(rt, alloc, case, &mut link)?;
    assert_eq!(rt; end, case.end);
    assert!(rt; link.pauses() == case.pauses);
    let sent = joined(alloc, case.sent)?;
    assert_eq!(rt;
        str::from_utf8(link.sent()),
        str::from_utf8(sent.as_slice())
    );
    Ok(())
}

#[test]
fn each_visit_sends_its_requests_pauses_and_comes_to_its_end(rt: HostRuntime) -> Result<(), Fail> {
    let alloc = rt.alloc();
    for case in &CASES {
        for piece in [1, 7, 16_384] {
            check(&rt, alloc, case, piece)?;
        }
    }
    Ok(())
}

#[test]
fn a_link_keeps_the_first_pauses_that_it_has_room_for(rt: HostRuntime) -> Result<(), Fail> {
    let alloc = rt.alloc();
    let kept: [&[u64]; 4] = [&[], &[500], &[500, 500], &[500, 500, 1100]];
    for (room, pauses) in (0..4).zip(kept.iter()) {
        for case in CASES.iter().filter(|case| case.pauses.len() == 3) {
            let mut link = link_of(alloc, case, 16_384, 4_096, room)?;
            let end = end_over(&rt, alloc, case, &mut link)?;
            assert_eq!(rt; end, case.end);
            assert!(rt; link.pauses() == *pauses, "{room}");
        }
    }
    Ok(())
}

#[test]
fn a_link_without_room_keeps_what_fits_and_fails(rt: HostRuntime) -> Result<(), Fail> {
    let alloc = rt.alloc();
    for room in [0, 1, 53] {
        let mut link = link_of(alloc, &CASES[0], 16_384, room, 0)?;
        let end = end_over(&rt, alloc, &CASES[0], &mut link)?;
        assert_eq!(rt; end, VisitEnd::Over(Outcome::LinkFault), "{room}");
        assert!(rt; link.sent().len() as u64 == room);
        assert!(rt; ACQUIRE.as_bytes().starts_with(link.sent()), "{room}");
    }
    Ok(())
}
