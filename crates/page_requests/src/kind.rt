//! Page requests as a kind of messages.
ghost use Rattle.std.specs.Prelude.{◌≡◌, ◌≤◌, [], length, map, All, vec_capacity};
ghost use Rattle.httparse.specs.Spans.{IsHeaderWithin, header_bytes};
ghost use Rattle.asp_messages.specs.Fields.{request_fields};
ghost use Rattle.asp_messages.specs.Head.{IsRequestHead};
ghost use Rattle.asp_messages.specs.Stream.{IsWaiting};
ghost use Rattle.request_reader.specs.RequestHeads.{IsRequestAnnounced};
ghost use Rattle.request_reader.specs.RequestHeads.{short, waits_for_head, waits_for_body};
ghost use Rattle.page_requests.specs.Requests.{MeansPage, SpellsPage, filled_page, page_request};
ghost use Rattle.page_requests.specs.PageLaws.{page_spells, page_spelled, page_ends, page_fits};

use crate::cookie::cookie_id;
use crate::request::{PageRequest, Verb};
use asp_base::Bytes;
use httparse::spans::HeaderSpan;
use message_framing::{Begun, MessageKind, MessageReader};
use request_reader::parse_head;
use std::mem::replace;

/// Page requests.
pub struct PageRequests;

/// The bytes, put into the room that is there for them and taken out of it; short ones are copied.
/// It takes no memory.
fn keep(room: &mut Vec<u8>, text: &[u8]) -> Bytes
    requires empty { room.old.items ≡ [] }
    requires room { length text.now ≤ vec_capacity room.old }
    ensures { result ≡ text.now }
{
    if let Some(short) = Bytes::short(text) {
        return short;
    }
    match room.extend_from_slice(text) {
        Ok(()) => {}
        Err(_) => {}
    }
    let empty = Vec::new(*room.allocator());
    Bytes::adopt(replace(room, empty))
}

/// The request of a head's parts, which lie in `buf`, with its body still to be filled in. `room`
/// is empty and has room for the target; no other memory is taken.
fn request(
    room: &mut Vec<u8>,
    method: &[u8],
    target: &[u8],
    buf: &[u8],
    headers: &[HeaderSpan],
) -> PageRequest
    requires fields { All (IsHeaderWithin (length buf.now)) headers.now }
    requires empty { room.old.items ≡ [] }
    requires room { length target.now ≤ vec_capacity room.old }
    ensures { result ≡ page_request method.now target.now
        (map (header_bytes buf.now) headers.now) [] }
{
    let alloc = *room.allocator();
    PageRequest {
        verb: Verb::of(method),
        target: keep(room, target),
        cookie: cookie_id(buf, headers),
        body: Bytes::adopt(Vec::new(alloc)),
    }
}

impl MessageKind for PageRequests {
    type Message = PageRequest;

    ghost IsHead = { IsRequestAnnounced };

    ghost Means = { MeansPage };

    ghost filled = { filled_page };

    ghost spells = { page_spells };

    ghost spelled = { page_spelled };

    ghost Spells = { SpellsPage };

    ghost Waits = { IsWaiting IsRequestHead request_fields };

    ghost ends = { page_ends };

    ghost fits = { page_fits };

    ghost short = { short };

    ghost waits_for_head = { waits_for_head };

    ghost waits_for_body = { waits_for_body };

    fn begin(
        room: &mut Vec<u8>,
        headers: &mut [HeaderSpan; 64],
        text: &[u8],
    ) -> Option<Begun<PageRequest>> {
        let (spans, body_len) = parse_head(text, headers)?;
        Some(Begun {
            message: request(
                room,
                spans.method.of(text),
                spans.path.of(text),
                text,
                &headers[..spans.headers],
            ),
            body_len,
        })
    }

    fn fill(message: PageRequest, body: Bytes) -> PageRequest {
        PageRequest {
            verb: message.verb,
            target: message.target,
            cookie: message.cookie,
            body,
        }
    }
}
