//! Heads at their limits, each in pieces of four sizes.
use crate::running::{PIPE, run_text, spelled};
use std::alloc::Global;
use std::test::Fail;

/// A read whose head has so many fields.
fn with_fields(alloc: Global, count: usize) -> Result<Vec<u8>, Fail> {
    let mut text = Vec::from_slice(alloc, b"GET /a HTTP/1.1\r\n")?;
    for _ in 0..count {
        text.extend_from_slice(b"x: y\r\n")?;
    }
    text.extend_from_slice(b"\r\n")?;
    Ok(text)
}

/// A read whose head has so many bytes, from 30 on.
fn of_length(alloc: Global, len: usize) -> Result<Vec<u8>, Fail> {
    let mut text = Vec::from_slice(alloc, b"GET /a HTTP/1.1\r\nx: ")?;
    for _ in 24..len {
        text.push(b'y')?;
    }
    text.extend_from_slice(b"\r\n\r\n")?;
    Ok(text)
}

/// A write with this field and a body of the byte `z`.
fn with_length(alloc: Global, field: &[u8]) -> Result<Vec<u8>, Fail> {
    let mut text = Vec::from_slice(alloc, b"PUT /a HTTP/1.1\r\n")?;
    text.extend_from_slice(field)?;
    text.extend_from_slice(b"\r\n\r\nz")?;
    Ok(text)
}

#[test]
fn a_head_at_its_limits_is_read_and_beyond_them_is_none(rt: HostRuntime) -> Result<(), Fail> {
    let alloc = rt.alloc();
    for (text, wanted_status, replies) in [
        (with_fields(alloc, 64)?, 0, "missing\n"),
        (with_fields(alloc, 65)?, 3, "bad\n"),
        (of_length(alloc, 8192)?, 0, "missing\n"),
        (of_length(alloc, 8193)?, 3, "bad\n"),
        (with_length(alloc, b"Content-Length: 1")?, 0, "done\n"),
        (
            with_length(alloc, b"Content-Length: \t 0001 \t")?,
            0,
            "done\n",
        ),
        (
            with_length(alloc, b"Content-Length: 1\r\nContent-Length: 1")?,
            3,
            "bad\n",
        ),
        (
            with_length(alloc, b"Content-Length: 0\r\nContent-Length: 0")?,
            3,
            "bad\n",
        ),
        (
            with_length(alloc, b"Content-Length: 0\r\nContent-Length: 1")?,
            3,
            "bad\n",
        ),
        (
            with_length(alloc, b"Content-Length: 1\r\nContent-Length: 0")?,
            3,
            "bad\n",
        ),
        (with_length(alloc, b"Content-Length:")?, 3, "bad\n"),
        (with_length(alloc, b"Content-Length: +1")?, 3, "bad\n"),
        (
            with_length(alloc, b"Content-Length: 000000000000000000001")?,
            3,
            "bad\n",
        ),
        (with_length(alloc, b"Content-Length: 4194305")?, 3, "bad\n"),
        (
            Vec::from_slice(alloc, b"GET /a HTTP/1.1\nx: y\n\n")?,
            0,
            "missing\n",
        ),
        (
            Vec::from_slice(alloc, b"\r\n\r\nGET /a HTTP/1.1\r\n\r\n")?,
            0,
            "missing\n",
        ),
        (
            Vec::from_slice(alloc, b"GET /a HTTP/1.1\r\n\r\n\r\n")?,
            3,
            "missing\nbad\n",
        ),
        (vec![in alloc; b'a'; 8192]?, 3, "bad\n"),
    ] {
        for piece in [1, 2, 3, 16_384] {
            let (status, output) = run_text(alloc, PIPE, &text, piece)?;
            let lines = spelled(alloc, output.taken())?;
            assert_eq!(rt; status, wanted_status, "pieces of {piece}, {replies}");
            assert_eq!(rt; lines.as_slice(), replies.as_bytes(), "pieces of {piece}");
        }
    }
    Ok(())
}

#[test]
fn the_largest_body_is_taken_whole(rt: HostRuntime) -> Result<(), Fail> {
    let alloc = rt.alloc();
    let mut text = Vec::from_slice(alloc, b"PUT /a HTTP/1.1\r\nContent-Length: 4194304\r\n\r\n")?;
    text.extend_from_slice(&vec![in alloc; b'z'; 4_194_304]?)?;
    text.extend_from_slice(b"HEAD /a HTTP/1.1\r\n\r\n")?;
    let (status, output) = run_text(alloc, PIPE, &text, 16_384)?;
    assert_eq!(rt; status, 0);
    assert_eq!(rt;
        spelled(alloc, output.taken())?.as_slice(),
        b"done\ndone\n".as_slice()
    );
    Ok(())
}
