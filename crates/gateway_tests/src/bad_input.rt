//! Inputs that are no whole page requests, and words that are none of the command.
use crate::running::{BAD, run_gate, run_words, words_of};
use id_gateway::is_gate;
use std::alloc::Global;
use std::test::Fail;

const TOUCH: &[u8] =
    b"GET /touch HTTP/1.1\r\nCookie: ASP.NET_SessionId=baaaaaaaaaaaaaaaaaaaaaaa\r\n\r\n";

/// A page request with a body, of 95 bytes, and one without.
const BOTH: &[u8] = b"POST /put HTTP/1.1\r\nCookie: ASP.NET_SessionId=baaaaaaaaaaaaaaaaaaaaaaa\r\n\
    Content-Length: 2\r\n\r\nxy\
    GET /touch HTTP/1.1\r\nCookie: ASP.NET_SessionId=baaaaaaaaaaaaaaaaaaaaaaa\r\n\r\n";

const FIRST_LEN: usize = 95;

const DONE: &[u8] = b"HTTP/1.1 200 OK\r\nContent-Length: 0\r\n\r\n";

const DONE_TWICE: &[u8] = b"HTTP/1.1 200 OK\r\nContent-Length: 0\r\n\r\n\
    HTTP/1.1 200 OK\r\nContent-Length: 0\r\n\r\n";

const DONE_AND_BAD: &[u8] = b"HTTP/1.1 200 OK\r\nContent-Length: 0\r\n\r\n\
    HTTP/1.1 400 Bad Request\r\nContent-Length: 0\r\n\r\n";

/// What comes of so many bytes of both requests: an answer for each that is whole, and `Bad` where
/// the rest is none.
fn wanted_at(cut: usize) -> (u8, &'static [u8]) {
    if cut == 0 {
        return (0, b"");
    }
    if cut < FIRST_LEN {
        return (3, BAD);
    }
    if cut == FIRST_LEN {
        return (0, DONE);
    }
    if cut < BOTH.len() {
        return (3, DONE_AND_BAD);
    }
    (0, DONE_TWICE)
}

#[test]
fn an_input_that_is_cut_is_answered_bad(rt: HostRuntime) -> Result<(), Fail> {
    let alloc = rt.alloc();
    for cut in 0..=BOTH.len() {
        let (wanted_status, wanted) = wanted_at(cut);
        let (status, sink) = run_gate(alloc, "cookie", &BOTH[..cut], 16_384, &[])?;
        assert_eq!(rt; status, wanted_status, "cut at {cut}");
        assert_eq!(rt; sink.taken(), wanted, "cut at {cut}");
    }
    Ok(())
}

/// A page request whose head has so many bytes, from 80 on.
fn of_length(alloc: Global, len: usize) -> Result<Vec<u8>, Fail> {
    let mut text = Vec::from_slice(
        alloc,
        b"GET /touch HTTP/1.1\r\nCookie: ASP.NET_SessionId=baaaaaaaaaaaaaaaaaaaaaaa\r\nA: ",
    )?;
    for _ in 80..len {
        text.push(b'a')?;
    }
    text.extend_from_slice(b"\r\n\r\n")?;
    Ok(text)
}

#[test]
fn a_head_that_is_too_long_is_answered_bad(rt: HostRuntime) -> Result<(), Fail> {
    let alloc = rt.alloc();
    for (len, wanted_status, wanted) in [(8_192, 0, DONE), (8_193, 3, BAD)] {
        let text = of_length(alloc, len)?;
        let (status, sink) = run_gate(alloc, "cookie", &text, 16_384, &[])?;
        assert_eq!(rt; status, wanted_status, "{len}");
        assert_eq!(rt; sink.taken(), wanted, "{len}");
    }
    Ok(())
}

#[test]
fn a_head_without_a_length_is_answered_bad(rt: HostRuntime) -> Result<(), Fail> {
    let alloc = rt.alloc();
    for text in [
        b"POST /put HTTP/1.1\r\nContent-Length: x\r\n\r\nx".as_slice(),
        b"POST /put HTTP/1.1\r\nContent-Length: 1\r\nContent-Length: 1\r\n\r\nx".as_slice(),
        b"POST /put HTTP/1.1\r\nContent-Length: 4194305\r\n\r\nx".as_slice(),
        b"\0\r\n\r\n".as_slice(),
    ] {
        let (status, sink) = run_gate(alloc, "cookie", text, 16_384, &[])?;
        assert_eq!(rt; status, 3);
        assert_eq!(rt; sink.taken(), BAD);
    }
    Ok(())
}

#[test]
fn other_words_read_nothing(rt: HostRuntime) -> Result<(), Fail> {
    let alloc = rt.alloc();
    for words in [
        ["gate", "", "0", "0"].as_slice(),
        &["gate", "Cookie", "0", "0"],
        &["gate", "path", "0", "0"],
        &["gate", "cookie", "2305843009213693953", "0"],
        &["gate", "cookie", "0", "2305843009213693953"],
        &["gate", "url", "-1", "0"],
        &["gate", "url", "0"],
        &["gate", "url", "0", "0", "0"],
        &["Gate", "url", "0", "0"],
        &[],
    ] {
        let (status, sink) = run_words(alloc, words, TOUCH, 16_384, &[])?;
        assert_eq!(rt; status, 2);
        assert!(rt; sink.taken().is_empty());
        let given = words_of(alloc, words)?;
        assert!(rt; !is_gate(&given));
    }
    let latest = words_of(alloc, &["gate", "url", "02305843009213693952", "0"])?;
    assert!(rt; is_gate(&latest));
    Ok(())
}
