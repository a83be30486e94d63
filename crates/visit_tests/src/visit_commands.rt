//! Visits by words, and what they print.
ghost use Rattle.std.specs.Prelude.{◌≤◌, ◌^◌, IfOk, All};

use crate::texts::{
    ACQUIRE, DONE, FOUND_2, LOCKED_110, LOCKED_111, MISSING, RELEASE_2, joined, moments_of,
};
use asp_base::{Bytes, ListClock, MemorySink};
use page_link::MemoryLink;
use std::alloc::Global;
use std::process::Abort;
use std::rt::Clock as HostTime;
use std::str;
use std::sync::Wait;
use std::test::Fail;
use visit_command::{visit, visit_port};

const WORDS: [&str; 5] = ["visit", "42424", "x2f73", "exclusive", "keep"];

// What is received, the sends and the receipts that fail; what is sent and printed, and the status.
struct Case {
    replies: &'static [&'static str],
    send_fails: &'static [u64],
    receive_fails: &'static [u64],
    sent: &'static [&'static str],
    printed: &'static str,
    status: u8,
}

const CASES: [Case; 9] = [
    Case {
        replies: &[MISSING],
        send_fails: &[],
        receive_fails: &[],
        sent: &[ACQUIRE],
        printed: "done\n",
        status: 0,
    },
    Case {
        replies: &[FOUND_2, DONE],
        send_fails: &[],
        receive_fails: &[],
        sent: &[ACQUIRE, RELEASE_2],
        printed: "done\n",
        status: 0,
    },
    Case {
        replies: &[FOUND_2, LOCKED_111],
        send_fails: &[],
        receive_fails: &[],
        sent: &[ACQUIRE, RELEASE_2],
        printed: "lost-lock locked 2 111\n",
        status: 11,
    },
    Case {
        replies: &[FOUND_2, MISSING],
        send_fails: &[],
        receive_fails: &[],
        sent: &[ACQUIRE, RELEASE_2],
        printed: "lost-lock missing\n",
        status: 11,
    },
    Case {
        replies: &[MISSING],
        send_fails: &[0],
        receive_fails: &[],
        sent: &[],
        printed: "link-fault\n",
        status: 13,
    },
    Case {
        replies: &[MISSING],
        send_fails: &[],
        receive_fails: &[0],
        sent: &[ACQUIRE],
        printed: "link-fault\n",
        status: 13,
    },
    Case {
        replies: &["HTTP/1.1 302 Found\r\n\r\n"],
        send_fails: &[],
        receive_fails: &[],
        sent: &[ACQUIRE],
        printed: "refused 302\n",
        status: 14,
    },
    Case {
        replies: &[FOUND_2, "HTTP/1.1 200 OK\r\nContent-Length: 1\r\n\r\n"],
        send_fails: &[],
        receive_fails: &[],
        sent: &[ACQUIRE, RELEASE_2],
        printed: "",
        status: 15,
    },
    Case {
        replies: &[],
        send_fails: &[],
        receive_fails: &[],
        sent: &[ACQUIRE],
        printed: "",
        status: 15,
    },
];

// Words that are none of `visit`.
const OTHERS: [&str; 19] = [
    "",
    "visit",
    "visits 42424 x2f73 exclusive keep",
    "visit 0 x2f73 exclusive keep",
    "visit 65536 x2f73 exclusive keep",
    "visit 42424, x2f73 exclusive keep",
    "visit ,42424 x2f73 exclusive keep",
    "visit 42424,,42425 x2f73 exclusive keep",
    "visit 42424,0 x2f73 exclusive keep",
    "visit 42424,65536 x2f73 exclusive keep",
    "visit 42424 x exclusive keep",
    "visit 42424 x2F73 exclusive keep",
    "visit 42424 x2f7 exclusive keep",
    "visit 42424 2f73 exclusive keep",
    "visit 42424 x2f73 Exclusive keep",
    "visit 42424 x2f73 exclusive kept",
    "visit 42424 x2f73 exclusive save 020 x31",
    "visit 42424 x2f73 exclusive save 0 x31",
    "visit 42424 x2f73 exclusive save 20 31",
];

const ONES: [(&str, u64); 7] = [
    ("visit 042424 x2f73 exclusive keep", 42424),
    ("visit 1 x00 readonly abandon", 1),
    ("visit 42424,42425 x2f73 exclusive keep", 42425),
    ("visit 42424,42425 x2f72 exclusive keep", 42424),
    ("visit 42424,42425,42426 x2f732f6162 off keep", 42424),
    ("visit 65535 x2f73 off keep", 65535),
    ("visit 42424 x2f73 exclusive save 525600 x", 42424),
];

fn words_of(alloc: Global, words: &[&str]) -> Result<Vec<String>, Fail> {
    let mut all = Vec::new(alloc);
    for word in words {
        all.push(String::from_str(alloc, word)?)?;
    }
    Ok(all)
}

fn split(alloc: Global, text: &str) -> Result<Vec<String>, Fail> {
    let mut all = Vec::new(alloc);
    for word in text.split(' ') {
        all.push(String::from_str(alloc, word)?)?;
    }
    Ok(all)
}

// A link with room for so many bytes that receives the replies.
fn link_of(alloc: Global, case: &Case, room: u64) -> Result<MemoryLink, Fail> {
    let incoming = Bytes::adopt(joined(alloc, case.replies)?);
    let sends = Vec::from_slice(alloc, case.send_fails)?;
    let receipts = Vec::from_slice(alloc, case.receive_fails)?;
    match MemoryLink::new(alloc, room, incoming, 16_384, sends, receipts) {
        Ok(link) => Ok(link),
        Err(_) => Err("no memory".into()),
    }
}

// A sink with room for so many bytes that fails the listed writes.
fn sink_of(alloc: Global, room: u64, fails: &[u64]) -> Result<MemorySink, Fail> {
    match MemorySink::new(alloc, room, 4_096, Vec::from_slice(alloc, fails)?) {
        Ok(sink) => Ok(sink),
        Err(_) => Err("no memory".into()),
    }
}

// The status of the visit of the words over the link, at moment 0.
fn visit_at_once<R: Wait + HostTime>(
    rt: &R,
    alloc: Global,
    link: &mut MemoryLink,
    sink: &mut MemorySink,
) -> Result<u8, Fail> {
    let mut clock = ListClock::new(Vec::new(alloc));
    let words = words_of(alloc, &WORDS)?;
    Ok(visit(rt, alloc, &words, link, sink, &mut clock))
}

fn check<R: Abort + Wait + HostTime>(rt: &R, alloc: Global, case: &Case) -> Result<(), Fail> {
    let mut link = link_of(alloc, case, 4_096)?;
    let mut sink = sink_of(alloc, 4_096, &[])?;
    let status = visit_at_once(rt, alloc, &mut link, &mut sink)?;
    assert_eq!(rt; status, case.status);
    assert_eq!(rt; str::from_utf8(sink.taken()), Ok(case.printed));
    let sent = joined(alloc, case.sent)?;
    assert_eq!(rt;
        str::from_utf8(link.sent()),
        str::from_utf8(sent.as_slice())
    );
    Ok(())
}

#[test]
fn a_visit_prints_its_outcome_and_answers_its_status(rt: HostRuntime) -> Result<(), Fail> {
    let alloc = rt.alloc();
    for case in &CASES {
        check(&rt, alloc, case)?;
    }
    Ok(())
}

#[test]
fn a_sink_that_fails_or_is_full_has_a_front_of_the_line_and_the_status_is_5(
    rt: HostRuntime,
) -> Result<(), Fail> {
    let alloc = rt.alloc();
    // The room, the writes that fail, and what is printed.
    let rows: [(u64, &[u64], &str); 5] = [
        (4_096, &[0], ""),
        (0, &[], ""),
        (1, &[], "d"),
        (3, &[], "don"),
        (4, &[], "done"),
    ];
    for (room, fails, printed) in rows {
        let mut link = link_of(alloc, &CASES[0], 4_096)?;
        let mut sink = sink_of(alloc, room, fails)?;
        let status = visit_at_once(&rt, alloc, &mut link, &mut sink)?;
        assert_eq!(rt; status, 5, "{room}");
        assert_eq!(rt; str::from_utf8(sink.taken()), Ok(printed));
        assert_eq!(rt; str::from_utf8(link.sent()), Ok(ACQUIRE));
    }
    Ok(())
}

#[test]
fn a_link_with_room_for_less_than_the_request_is_a_link_fault(rt: HostRuntime) -> Result<(), Fail> {
    let alloc = rt.alloc();
    let request = ACQUIRE.len() as u64;
    for (room, printed, status) in [
        (0, "link-fault\n", 13),
        (1, "link-fault\n", 13),
        (request.saturating_sub(1), "link-fault\n", 13),
        (request, "done\n", 0),
    ] {
        let mut link = link_of(alloc, &CASES[0], room)?;
        let mut sink = sink_of(alloc, 4_096, &[])?;
        let ended = visit_at_once(&rt, alloc, &mut link, &mut sink)?;
        assert_eq!(rt; ended, status, "{room}");
        assert_eq!(rt; str::from_utf8(sink.taken()), Ok(printed));
        assert!(rt; link.sent().len() as u64 == room);
        assert!(rt; ACQUIRE.as_bytes().starts_with(link.sent()), "{room}");
    }
    Ok(())
}

// The text, so many times.
fn repeated(alloc: Global, text: &str, count: u64) -> Result<Vec<u8>, Fail> {
    let mut all = Vec::new(alloc);
    for _ in 0..count {
        all.extend_from_slice(text.as_bytes())?;
    }
    Ok(all)
}

// So many moments, half a second apart.
fn half_seconds(alloc: Global, count: u64) -> Result<Vec<u64>, Fail>
    ensures { IfOk result (λ all. All (λ m. m ≤ 2 ^ 62) all.items) }
{
    let mut moments = Vec::new(alloc);
    let mut next: u64 = 0;
    for _ in 0..count {
        moments.push(next)?;
        next = next.saturating_add(500);
    }
    moments_of(alloc, moments.as_slice())
}

#[test]
fn a_page_that_finds_its_session_locked_a_thousand_times_gives_up(
    rt: HostRuntime,
) -> Result<(), Fail> {
    let alloc = rt.alloc();
    let incoming = Bytes::adopt(repeated(alloc, LOCKED_110, 1_000)?);
    let sends = Vec::new(alloc);
    let receipts = Vec::new(alloc);
    let Ok(mut link) = MemoryLink::new(alloc, 65_536, incoming, 16_384, sends, receipts) else {
        return Err("no memory".into());
    };
    let mut sink = sink_of(alloc, 4_096, &[])?;
    let mut clock = ListClock::new(half_seconds(alloc, 1_001)?);
    let words = words_of(alloc, &WORDS)?;
    let status = visit(&rt, alloc, &words, &mut link, &mut sink, &mut clock);
    assert_eq!(rt; status, 12);
    assert_eq!(rt; str::from_utf8(sink.taken()), Ok("gave-up 2 110\n"));
    let sent = repeated(alloc, ACQUIRE, 1_000)?;
    assert!(rt; link.sent() == sent.as_slice());
    Ok(())
}

#[test]
fn other_words_send_and_print_nothing(rt: HostRuntime) -> Result<(), Fail> {
    let alloc = rt.alloc();
    for text in &OTHERS {
        let mut link = link_of(alloc, &CASES[0], 4_096)?;
        let mut sink = sink_of(alloc, 4_096, &[])?;
        let mut clock = ListClock::new(Vec::new(alloc));
        let words = split(alloc, text)?;
        let status = visit(&rt, alloc, &words, &mut link, &mut sink, &mut clock);
        assert_eq!(rt; status, 2, "{text}");
        assert!(rt; link.sent().is_empty() && sink.taken().is_empty(), "{text}");
    }
    Ok(())
}

#[test]
fn words_are_those_of_a_page_line(rt: HostRuntime) -> Result<(), Fail> {
    let alloc = rt.alloc();
    for text in &OTHERS {
        let words = split(alloc, text)?;
        assert_eq!(rt; visit_port(&words), None, "{text}");
    }
    for (text, port) in &ONES {
        let words = split(alloc, text)?;
        assert_eq!(rt; visit_port(&words), Some(*port), "{text}");
    }
    Ok(())
}

/// The port of a visit to `/s` among the ports from 1 to this one.
fn port_among(alloc: Global, last: u64) -> Result<Option<u64>, Fail>
    requires { last ≤ 100 }
{
    let mut text = String::from_str(alloc, "visit 1")?;
    for port in 2..last + 1 {
        text.push_str(&format!(in alloc; ",{port}")?)?;
    }
    text.push_str(" x2f73 exclusive keep")?;
    Ok(visit_port(&split(alloc, &text)?))
}

#[test]
fn sixty_four_ports_are_read_and_no_more(rt: HostRuntime) -> Result<(), Fail> {
    assert_eq!(rt; port_among(rt.alloc(), 64)?, Some(52));
    assert_eq!(rt; port_among(rt.alloc(), 65)?, None);
    Ok(())
}
