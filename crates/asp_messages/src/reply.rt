//! What the state server answers, what is in range of it, and its canonical text: a head in a fixed
//! buffer, and the body behind it.
ghost use Rattle.std.specs.Prelude.{◌≡◌, ◌+◌, ◌≤◌, ◌++◌, length, ◌↔◌, IsTrue};
ghost use Rattle.asp_messages.specs.ReplyText.{http_status, head_text, body_of, number_line, cookie_line, since_line, first_line, ending, status_line, reply_fields};
ghost use Rattle.asp_messages.specs.Ranges.{ReplyFits, SinceFits};

use crate::request::{MOST_COOKIE, body_fits, cookie_fits, minutes_fit};
use asp_base::{Bytes, FixedText};
use itoa::Buffer;

/// The greatest age of a lock, in seconds.
pub const MOST_AGE: u64 = 1 << 62;

/// The latest moment that a reply tells, in milliseconds.
pub const MOST_SINCE: u64 = 1 << 62;

/// A reply to a request ([MS-ASP], section 2.2; the statuses 500, 503, 507 and 508 are this
/// project's own).
#[derive(Debug, PartialEq, Eq, Drop)]
pub enum Reply {
    /// 200 with the item's content.
    Found {
        /// The content, at most 4,194,304 bytes.
        body: Bytes,
        /// How long the item lives untouched, 1 to 525,600 minutes.
        minutes: u64,
        /// The cookie of the lock that was acquired, where one was.
        cookie: Option<u64>,
        /// Whether the item was uninitialized until this read.
        first: bool,
    },
    /// 200 without content: what was asked is done.
    Done,
    /// 423: a lock is in the way.
    Locked {
        /// The cookie of that lock, 0 where there is none.
        cookie: u64,
        /// How long the lock has been held, in whole seconds.
        age: u64,
        /// The moment of the acquisition, in milliseconds, where it is told.
        since: Option<u64>,
    },
    /// 404: the session has no item.
    Missing,
    /// 400: the message is no request.
    Bad,
    /// 500: the keeper of the items failed, and nothing changed.
    KeeperFault,
    /// 503: there was no memory, and nothing changed.
    NoMemory,
    /// 507: the cookies of this run are used up, and nothing changed.
    CookiesOut,
    /// 508: the places of this run are used up, and nothing changed.
    PlacesOut,
}

/// The status of the reply's canonical status line.
pub fn status_of(reply: &Reply) -> u16
    ensures { result ≡ http_status reply.now }
{
    match reply {
        Reply::Found { .. } | Reply::Done => 200,
        Reply::Locked { .. } => 423,
        Reply::Missing => 404,
        Reply::Bad => 400,
        Reply::KeeperFault => 500,
        Reply::NoMemory => 503,
        Reply::CookiesOut => 507,
        Reply::PlacesOut => 508,
    }
}

fn since_fits(since: Option<u64>) -> bool
    ensures { IsTrue result ↔ SinceFits since }
{
    match since {
        None => true,
        Some(since) => since <= MOST_SINCE,
    }
}

/// Whether each length and number of the reply is in its range.
pub fn reply_fits(reply: &Reply) -> bool
    ensures { IsTrue result ↔ ReplyFits reply.now }
{
    match reply {
        Reply::Found {
            body,
            minutes,
            cookie,
            ..
        } => body_fits(body) && minutes_fit(*minutes) && cookie_fits(*cookie),
        Reply::Locked { cookie, age, since } => {
            *cookie <= MOST_COOKIE && *age <= MOST_AGE && since_fits(*since)
        }
        _ => true,
    }
}

/// The canonical head of a reply.
pub type ReplyHead = FixedText<256>;

/// Adds a field with a number.
fn push_number(head: &mut ReplyHead, name: &[u8], n: u64)
    requires { length head.old + length name.now + 24 ≤ 256 }
    ensures text { head.new ≡ head.old ++ number_line name.now n }
    ensures room { length head.new ≤ length head.old + length name.now + 24 }
{
    let mut buffer = Buffer::new();
    head.push(name);
    head.push(b": ");
    head.push(buffer.format(n).as_bytes());
    head.push(b"\r\n");
}

/// Adds the line of the cookie that was acquired.
fn push_cookie(head: &mut ReplyHead, cookie: Option<u64>)
    requires { length head.old + 34 ≤ 256 }
    ensures text { head.new ≡ head.old ++ cookie_line cookie }
    ensures room { length head.new ≤ length head.old + 34 }
{
    if let Some(cookie) = cookie {
        push_number(head, b"LockCookie", cookie);
    }
}

/// Adds the line of the moment of the acquisition.
fn push_since(head: &mut ReplyHead, since: Option<u64>)
    requires { length head.old + 32 ≤ 256 }
    ensures text { head.new ≡ head.old ++ since_line since }
    ensures room { length head.new ≤ length head.old + 32 }
{
    if let Some(since) = since {
        push_number(head, b"LockDate", since);
    }
}

/// Adds the line that tells the first reader of an uninitialized item.
fn push_first(head: &mut ReplyHead, first: bool)
    requires { length head.old + 16 ≤ 256 }
    ensures text { head.new ≡ head.old ++ first_line first }
    ensures room { length head.new ≤ length head.old + 16 }
{
    if first {
        head.push(b"ActionFlags: 1\r\n");
    }
}

fn status_text(reply: &Reply) -> &'static [u8]
    ensures text { result.now ≡ status_line reply.now }
    ensures short { length result.now ≤ 27 }
{
    match reply {
        Reply::Found { .. } | Reply::Done => b"HTTP/1.1 200 OK\r\n",
        Reply::Locked { .. } => b"HTTP/1.1 423 Locked\r\n",
        Reply::Missing => b"HTTP/1.1 404 Not Found\r\n",
        Reply::Bad => b"HTTP/1.1 400 Bad Request\r\n",
        Reply::KeeperFault => b"HTTP/1.1 500 Keeper Fault\r\n",
        Reply::NoMemory => b"HTTP/1.1 503 No Memory\r\n",
        Reply::CookiesOut => b"HTTP/1.1 507 Cookies Out\r\n",
        Reply::PlacesOut => b"HTTP/1.1 508 Places Out\r\n",
    }
}

/// Adds the fields of a reply but for the length of its body.
fn push_fields(head: &mut ReplyHead, reply: &Reply)
    requires { length head.old ≤ 27 }
    ensures text { head.new ≡ head.old ++ reply_fields reply.now }
    ensures room { length head.new ≤ length head.old + 99 }
{
    match reply {
        Reply::Found {
            minutes,
            cookie,
            first,
            ..
        } => {
            push_number(head, b"Timeout", *minutes);
            push_cookie(head, *cookie);
            push_first(head, *first);
        }
        Reply::Locked { cookie, age, since } => {
            push_number(head, b"LockCookie", *cookie);
            push_number(head, b"LockAge", *age);
            push_since(head, *since);
        }
        _ => {}
    }
}

/// The canonical head of a reply. It takes no memory.
#[tactic(auto, unfolding(crate::specs::ReplyText::head_text))]
pub fn reply_head(reply: &Reply) -> ReplyHead
    ensures { result ≡ head_text reply.now }
{
    let mut head = ReplyHead::new();
    head.push(status_text(reply));
    push_fields(&mut head, reply);
    push_number(&mut head, b"Content-Length", reply_body(reply).len() as u64);
    head.push(b"\r\n");
    head
}

/// The body that follows the canonical head: the content of `Found`, and else nothing.
pub fn reply_body(reply: &Reply) -> &[u8]
    ensures { result.now ≡ body_of reply.now }
{
    match reply {
        Reply::Found { body, .. } => body.as_slice(),
        _ => &[],
    }
}
