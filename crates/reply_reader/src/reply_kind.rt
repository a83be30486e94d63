//! Replies as a kind of messages: what a head spells, and the body behind it.
ghost use Rattle.std.specs.Prelude.{◌≡◌, ◌≤◌, ℕ, List, length, IfSome, IsNone, [], map, All, codes};
ghost use Rattle.asp_messages.specs.Fields.{response_fields};
ghost use Rattle.asp_messages.specs.Head.{IsReplyHead, most_head};
ghost use Rattle.asp_messages.specs.Stream.{IsWaiting};
ghost use Rattle.message_framing.specs.Framed.{BeginsNothing};
ghost use Rattle.reply_reader.specs.Replies.{IsReplyAnnounced, IsReplyParsed, MeansReply, SpellsMessage, filled_reply_message, filled_reply};
ghost use Rattle.reply_reader.specs.ReplyLaws.{spells, spelled, ends, fits, short, waits_for_head, waits_for_body};
ghost use Rattle.httparse.specs.Spans.{IsHeaderWithin, header_bytes};
ghost use Rattle.message_framing.specs.Standings.{standing_of};
ghost use Rattle.asp_messages.specs.Fields as fields;
ghost use Rattle.asp_messages.specs.ReplySpelling as spelling;

use asp_base::Bytes;
use asp_messages::{MOST_AGE, MOST_COOKIE, MOST_MINUTES, MOST_SINCE, Reply, named};
use httparse::Status;
use httparse::spans::{HeaderSpan, ResponseSpans, parse_response};
use message_framing::{
    Begun, FieldOccurrence, MessageKind, body_length, find_field, lock_cookie, number_needed,
    number_or,
};
use std::alloc::Global;

/// A whole message of a stream of replies.
#[derive(Drop)]
pub enum ReplyMessage {
    /// A reply.
    Reply(Reply),
    /// A message of this status that is no reply.
    Strange(u16),
}

/// Replies.
pub struct Replies;

/// Where a head that ends with the text has its parts, and the length of the body that it
/// announces, in bytes. `None` where no message begins with the text.
fn parse(text: &[u8], headers: &mut [HeaderSpan; 64]) -> Option<(ResponseSpans, u64)>
    requires { length text.now ≤ most_head }
    ensures head { IfSome result (λ r. IsReplyParsed text.now headers.new r.0 r.1) }
    ensures none { IsNone result → BeginsNothing MeansReply text.now }
{
    let Ok(Status::Complete(spans)) = parse_response(text, headers) else {
        return None;
    };
    if spans.len != text.len() {
        return None;
    }
    let body_len = body_length(text, &headers[..spans.headers])?;
    Some((spans, body_len))
}

impl MessageKind for Replies {
    type Message = ReplyMessage;

    ghost IsHead = { IsReplyAnnounced };

    ghost Means = { MeansReply };

    ghost Spells = { SpellsMessage };

    ghost Waits = { IsWaiting IsReplyHead response_fields };

    ghost filled = { filled_reply_message };

    ghost spells = { spells };

    ghost spelled = { spelled };

    ghost ends = { ends };

    ghost fits = { fits };

    ghost short = { short };

    ghost waits_for_head = { waits_for_head };

    ghost waits_for_body = { waits_for_body };

    fn begin(
        room: &mut Vec<u8>,
        headers: &mut [HeaderSpan; 64],
        text: &[u8],
    ) -> Option<Begun<ReplyMessage>> {
        let (spans, body_len) = parse(text, headers)?;
        let alloc = *room.allocator();
        let message = match reply(alloc, spans.code, text, &headers[..spans.headers]) {
            Some(reply) => ReplyMessage::Reply(reply),
            None => ReplyMessage::Strange(spans.code),
        };
        Some(Begun { message, body_len })
    }

    fn fill(message: ReplyMessage, body: Bytes) -> ReplyMessage {
        match message {
            ReplyMessage::Reply(reply) => with_body(reply, body),
            ReplyMessage::Strange(status) => ReplyMessage::Strange(status),
        }
    }
}

/// The reply with this body, which only content has; a 200 that says no more has none.
fn with_body(reply: Reply, body: Bytes) -> ReplyMessage
    ensures { result ≡ filled_reply reply body }
{
    match reply {
        Reply::Found {
            body: _,
            minutes,
            cookie,
            first,
        } => ReplyMessage::Reply(Reply::Found {
            body,
            minutes,
            cookie,
            first,
        }),
        Reply::Done => {
            if body.as_slice().is_empty() {
                ReplyMessage::Reply(Reply::Done)
            } else {
                ReplyMessage::Strange(200)
            }
        }
        other => ReplyMessage::Reply(other),
    }
}

/// Content without its body.
fn found_reply(
    alloc: Global,
    minutes: Option<u64>,
    cookie: Option<u64>,
    flag: Option<u64>,
) -> Option<Reply>
    ensures { result ≡ spelling.found_reply [] minutes cookie flag }
{
    match (minutes, cookie, flag) {
        (Some(minutes), Some(cookie), Some(flag)) => Some(Reply::Found {
            body: Bytes::adopt(Vec::new(alloc)),
            minutes,
            cookie: named(cookie),
            first: flag == 1,
        }),
        _ => None,
    }
}

fn locked_reply(cookie: Option<u64>, age: Option<u64>, since: Option<u64>) -> Option<Reply>
    ensures { result ≡ spelling.locked_reply cookie age since }
{
    let cookie = cookie?;
    let age = age?;
    Some(Reply::Locked { cookie, age, since })
}

fn plain_reply(status: u16) -> Option<Reply>
    ensures { result ≡ spelling.plain_reply status }
{
    match status {
        400 => Some(Reply::Bad),
        404 => Some(Reply::Missing),
        500 => Some(Reply::KeeperFault),
        503 => Some(Reply::NoMemory),
        507 => Some(Reply::CookiesOut),
        508 => Some(Reply::PlacesOut),
        _ => None,
    }
}

fn timeout(buf: &[u8], headers: &[HeaderSpan]) -> Option<u64>
    requires { All (IsHeaderWithin (length buf.now)) headers.now }
    ensures { result ≡ spelling.minutes_field (map (header_bytes buf.now) headers.now) }
{
    let minutes = number_needed(MOST_MINUTES, find_field(buf, headers, b"Timeout"))?;
    if 1 <= minutes { Some(minutes) } else { None }
}

/// What 200 says without a body: content where `Timeout` stands, else that what was asked is done.
fn ok_reply(alloc: Global, buf: &[u8], headers: &[HeaderSpan]) -> Option<Reply>
    requires { All (IsHeaderWithin (length buf.now)) headers.now }
    ensures { let fs = map (header_bytes buf.now) headers.now in
        result ≡ spelling.ok_reply (fields.once fs (codes "Timeout")) []
        (spelling.found_reply [] (spelling.minutes_field fs) (fields.lock_cookie_field fs)
        (spelling.action_flags_field fs)) }
{
    match find_field(buf, headers, b"Timeout") {
        FieldOccurrence::Absent => Some(Reply::Done),
        _ => {
            let flags = find_field(buf, headers, b"ActionFlags");
            found_reply(
                alloc,
                timeout(buf, headers),
                lock_cookie(buf, headers),
                number_or(0, 0, 1, flags),
            )
        }
    }
}

/// What the status says, without a body, with the fields of the head that lies in `buf`. `None`
/// where that is no form of a reply. It takes no memory.
#[tactic(auto, unfolding(asp_messages::specs::ReplySpelling::reply_from))]
pub fn reply(alloc: Global, status: u16, buf: &[u8], headers: &[HeaderSpan]) -> Option<Reply>
    requires { All (IsHeaderWithin (length buf.now)) headers.now }
    ensures { result ≡ spelling.reply_from status (map (header_bytes buf.now) headers.now) [] }
{
    if status == 200 {
        return ok_reply(alloc, buf, headers);
    }
    if status == 423 {
        let cookie = number_needed(MOST_COOKIE, find_field(buf, headers, b"LockCookie"));
        let age = number_needed(MOST_AGE, find_field(buf, headers, b"LockAge"));
        let since = number_needed(MOST_SINCE, find_field(buf, headers, b"LockDate"));
        return locked_reply(cookie, age, since);
    }
    plain_reply(status)
}
