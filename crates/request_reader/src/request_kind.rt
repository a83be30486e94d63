//! Requests as a kind of messages, and their reader: what a head spells, and the body behind it.
ghost use Rattle.std.specs.Prelude.{◌≡◌, ◌≤◌, [], length, map, All, vec_capacity};
ghost use Rattle.asp_messages.specs.Fields.{request_fields};
ghost use Rattle.asp_messages.specs.Head.{IsRequestHead};
ghost use Rattle.asp_messages.specs.RequestSpelling.{SpellsRequest};
ghost use Rattle.asp_messages.specs.Stream.{IsWaiting};
ghost use Rattle.request_reader.specs.Requests.{MeansRequest, filled_message, filled_ask};
ghost use Rattle.request_reader.specs.RequestHeads.{IsRequestAnnounced, short, waits_for_head, waits_for_body};
ghost use Rattle.request_reader.specs.RequestLaws.{spells, spelled, ends, fits};
ghost use Rattle.httparse.specs.Spans.{IsHeaderWithin, header_bytes};
ghost use Rattle.message_framing.specs.Standings.{standing_of};
ghost use Rattle.percent_encoding.specs.Percent as percent;
ghost use Rattle.asp_messages.specs.RequestSpelling as spelling;

use crate::request_head::parse_head;
use asp_base::{Bytes, same_name};
use asp_messages::{Ask, MOST_COOKIE, MOST_KEY, MOST_MINUTES, Message, Request, named};
use httparse::spans::HeaderSpan;
use message_framing::{
    Begun, FieldOccurrence, Found, MessageKind, MessageReader, find_field, lock_cookie,
    number_needed, number_or,
};
use percent_encoding::percent_decode;
use std::alloc::Global;
use std::mem::replace;

/// Requests.
pub struct Requests;

/// A reader of requests from the pieces of a stream, which never holds more than 4,218,880 bytes.
/// What its clauses call `K.Spells` is `SpellsRequest`: exactly the requests of the wire.
pub type RequestReader = MessageReader<Requests>;

/// What a reader answers when it is asked for the next message.
pub type Next = Found<Message>;

impl MessageKind for Requests {
    type Message = Message;

    ghost IsHead = { IsRequestAnnounced };

    ghost Means = { MeansRequest };

    ghost Spells = { SpellsRequest };

    ghost Waits = { IsWaiting IsRequestHead request_fields };

    ghost filled = { filled_message };

    ghost spells = { spells };

    ghost spelled = { spelled };

    ghost ends = { ends };

    ghost fits = { fits };

    ghost short = { short };

    ghost waits_for_head = { waits_for_head };

    ghost waits_for_body = { waits_for_body };

    fn begin(
        room: &mut Vec<u8>,
        headers: &mut [HeaderSpan; 64],
        text: &[u8],
    ) -> Option<Begun<Message>> {
        let (spans, body_len) = parse_head(text, headers)?;
        Some(Begun {
            message: message(
                room,
                spans.method.of(text),
                spans.path.of(text),
                text,
                &headers[..spans.headers],
            ),
            body_len,
        })
    }

    fn fill(message: Message, body: Bytes) -> Message {
        match message {
            Message::Fit(request) => {
                let Request { key, ask } = request;
                let ask = with_body(ask, body);
                Message::Fit(Request { key, ask })
            }
            Message::Unfit => Message::Unfit,
        }
    }
}

/// The ask with this body, which only a write has.
fn with_body(ask: Ask, body: Bytes) -> Ask
    ensures { result ≡ filled_ask ask body }
{
    match ask {
        Ask::Write {
            body: _,
            minutes,
            fresh,
            cookie,
        } => Ask::Write {
            body,
            minutes,
            fresh,
            cookie,
        },
        other => other,
    }
}

/// How long an item lives whose write says no timeout, in minutes.
const DEFAULT_MINUTES: u64 = 20;

/// Puts the target without its escapes into the room that is there for it.
fn decode(room: &mut Vec<u8>, target: &[u8])
    requires empty { room.old.items ≡ [] }
    requires room { length target.now ≤ vec_capacity room.old }
    ensures { room.new.items ≡ percent.percent_decode target.now }
{
    match percent_decode(target).append_to(room) {
        Ok(()) => {}
        Err(_) => {}
    }
}

/// The bytes of the vector, with its memory where they are many. It takes no memory.
fn take_key(room: &mut Vec<u8>) -> Bytes
    ensures { result ≡ room.old.items }
{
    match Bytes::short(room.as_slice()) {
        Some(key) => key,
        None => {
            let empty = Vec::new(*room.allocator());
            Bytes::adopt(replace(room, empty))
        }
    }
}

fn release_ask(cookie: Option<u64>) -> Option<Ask>
    ensures { result ≡ spelling.release_ask cookie }
{
    let cookie = cookie?;
    Some(Ask::Release { cookie })
}

fn exclusive_ask(word: &[u8], cookie: Option<u64>) -> Option<Ask>
    ensures { result ≡ spelling.exclusive_ask word.now cookie }
{
    if same_name(word, b"acquire") {
        Some(Ask::Acquire)
    } else if same_name(word, b"release") {
        release_ask(cookie)
    } else {
        None
    }
}

fn get_ask(exclusive: FieldOccurrence, cookie: Option<u64>) -> Option<Ask>
    ensures { result ≡ spelling.get_ask (standing_of exclusive.entry) cookie }
{
    match exclusive {
        FieldOccurrence::Absent => Some(Ask::Read),
        FieldOccurrence::One(word) => exclusive_ask(word, cookie),
        FieldOccurrence::Twice => None,
    }
}

/// A write without its body.
fn put_ask(
    alloc: Global,
    minutes: Option<u64>,
    flag: Option<u64>,
    cookie: Option<u64>,
) -> Option<Ask>
    ensures { result ≡ spelling.put_ask [] minutes flag cookie }
{
    match (minutes, flag, cookie) {
        (Some(minutes), Some(flag), Some(cookie)) => Some(Ask::Write {
            body: Bytes::adopt(Vec::new(alloc)),
            minutes,
            fresh: flag == 1,
            cookie: named(cookie),
        }),
        _ => None,
    }
}

fn delete_ask(cookie: Option<u64>) -> Option<Ask>
    ensures { result ≡ spelling.delete_ask cookie }
{
    let cookie = cookie?;
    Some(Ask::Remove {
        cookie: named(cookie),
    })
}

/// What the verb asks, without a body. The fields are those of the head that lies in `buf`. It
/// takes no memory.
#[tactic(auto, unfolding(asp_messages::specs::RequestSpelling::ask_of))]
fn ask(alloc: Global, verb: &[u8], buf: &[u8], headers: &[HeaderSpan]) -> Option<Ask>
    requires { All (IsHeaderWithin (length buf.now)) headers.now }
    ensures { result ≡ spelling.ask_of verb.now (map (header_bytes buf.now) headers.now) [] }
{
    if verb == b"GET".as_slice() {
        let cookie = number_needed(MOST_COOKIE, find_field(buf, headers, b"LockCookie"));
        return get_ask(find_field(buf, headers, b"Exclusive"), cookie);
    }
    if verb == b"PUT".as_slice() {
        let minutes = find_field(buf, headers, b"Timeout");
        let flag = find_field(buf, headers, b"ExtraFlags");
        return put_ask(
            alloc,
            number_or(DEFAULT_MINUTES, 1, MOST_MINUTES, minutes),
            number_or(0, 0, 1, flag),
            lock_cookie(buf, headers),
        );
    }
    if verb == b"DELETE".as_slice() {
        return delete_ask(lock_cookie(buf, headers));
    }
    if verb == b"HEAD".as_slice() {
        return Some(Ask::Reset);
    }
    None
}

/// The message of a head's verb, target and fields, which lie in `buf`, with its body still to be
/// filled in. `room` is empty and has room for the key; no other memory is taken.
#[tactic(auto, unfolding(asp_messages::specs::RequestSpelling::message_of))]
fn message(
    room: &mut Vec<u8>,
    verb: &[u8],
    target: &[u8],
    buf: &[u8],
    headers: &[HeaderSpan],
) -> Message
    requires fields { All (IsHeaderWithin (length buf.now)) headers.now }
    requires empty { room.old.items ≡ [] }
    requires room { length target.now ≤ vec_capacity room.old }
    ensures { result ≡ spelling.message_of verb.now target.now
        (map (header_bytes buf.now) headers.now) [] }
{
    let alloc = *room.allocator();
    decode(room, target);
    if room.is_empty() || room.len() > MOST_KEY {
        return Message::Unfit;
    }
    match ask(alloc, verb, buf, headers) {
        Some(ask) => Message::Fit(Request {
            key: take_key(room),
            ask,
        }),
        None => Message::Unfit,
    }
}
