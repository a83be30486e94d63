//! The limits of a reader, and the largest bodies, written by one end and read back by the other.
use asp_base::{Bytes, MOST_PIECE, NoMemory};
use asp_messages::{Ask, Message, Reply, Request, named, reply_body, reply_head, write_request};
use message_framing::{MOST_HEAD, MOST_HELD};
use reply_reader::{ReplyNext, ReplyReader};
use request_reader::{Next, RequestReader};
use std::alloc::Global;
use std::test::Fail;

/// The greatest piece, and one that cuts the bodies at other places.
const SIZES: [usize; 2] = [16_384, 4099];

const MOST_BODY: usize = 4_194_304;

/// A body of 4,194,304 bytes: the numbers from 0 on, in four bytes each.
fn largest_body(alloc: Global) -> Result<Bytes, NoMemory> {
    let mut body = Vec::new(alloc);
    for number in 0..1_048_576u32 {
        body.extend_from_slice(&number.to_be_bytes())?;
    }
    Ok(Bytes::adopt(body))
}

/// The reply that the text is, read in pieces; `None` where the text is not one whole reply.
fn reply_of(alloc: Global, text: &[u8], size: usize) -> Result<Option<Reply>, NoMemory> {
    let mut reader = ReplyReader::new(alloc);
    let mut left = text.len();
    for piece in text.chunks(size.clamp(1, MOST_PIECE)) {
        reader.feed(piece)?;
        left = left.saturating_sub(piece.len());
        match reader.next() {
            ReplyNext::Reply(reply) if left == 0 && reader.end() => return Ok(Some(reply)),
            ReplyNext::More => {}
            ReplyNext::NoMemory => return Err(NoMemory),
            _ => return Ok(None),
        }
    }
    Ok(None)
}

/// The message that the text is, read in pieces; `None` where the text is not one whole message.
fn message_of(alloc: Global, text: &[u8], size: usize) -> Result<Option<Message>, NoMemory> {
    let mut reader = RequestReader::new(alloc);
    let mut left = text.len();
    for piece in text.chunks(size.clamp(1, MOST_PIECE)) {
        reader.feed(piece)?;
        left = left.saturating_sub(piece.len());
        match reader.next() {
            Next::Message(message) if left == 0 && reader.end() => return Ok(Some(message)),
            Next::More => {}
            Next::NoMemory => return Err(NoMemory),
            _ => return Ok(None),
        }
    }
    Ok(None)
}

#[test]
fn a_reader_has_room_for_a_head_a_body_and_a_piece(rt: HostRuntime) {
    assert_eq!(rt; MOST_HEAD, 8192);
    assert_eq!(rt; MOST_PIECE, 16_384);
    assert_eq!(rt; MOST_HELD, 4_218_880);
    assert_eq!(rt; MOST_HELD, MOST_HEAD + MOST_BODY + MOST_PIECE);
}

#[test]
fn the_largest_reply_is_read_as_it_was_written(rt: HostRuntime) -> Result<(), Fail> {
    let alloc = rt.alloc();
    let body = largest_body(alloc)?;
    assert_eq!(rt; body.as_slice().len(), MOST_BODY);
    let written = Reply::Found {
        body,
        minutes: 20,
        cookie: named(1),
        first: true,
    };
    let mut wire = Vec::from_slice(alloc, reply_head(&written).as_slice())?;
    wire.extend_from_slice(reply_body(&written))?;
    let want = Some(written);
    for size in SIZES {
        let read = reply_of(alloc, &wire, size)?;
        assert!(rt; read == want, "in pieces of {size}");
    }
    Ok(())
}

#[test]
fn the_largest_request_is_read_as_it_was_written(rt: HostRuntime) -> Result<(), Fail> {
    let alloc = rt.alloc();
    let body = largest_body(alloc)?;
    assert_eq!(rt; body.as_slice().len(), MOST_BODY);
    let written = Request {
        key: Bytes::copy(alloc, b"/a")?,
        ask: Ask::Write {
            body,
            minutes: 20,
            fresh: false,
            cookie: named(1),
        },
    };
    let mut wire = Vec::new(alloc);
    write_request(&mut wire, &written)?;
    let want = Some(Message::Fit(written));
    for size in SIZES {
        let read = message_of(alloc, &wire, size)?;
        assert!(rt; read == want, "in pieces of {size}");
    }
    Ok(())
}
