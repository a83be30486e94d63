//! Clients that add one to a number under its lock, and what they hear.
ghost use Rattle.std.specs.Prelude.{◌≡◌, None, ⊤, IfOk, IfSome, IfNone, OnOk, OnErr};
ghost use Rattle.asp_base.specs.Causes.{HasCause};
ghost use Rattle.stream_server.specs.Doors.{untold};

use asp_base::{Bytes, Clock, Failed, LAST_MOMENT, NoMemory, Sink, Source};
use asp_messages::{Ask, Reply, Request, write_request};
use reply_reader::{ReplyNext, ReplyReader};
use std::alloc::Global;
use std::rt::Clock as HostTime;
use std::sync::Wait;
use std::sync::atomic::{AtomicU64, Ordering};
use std::thread::yield_now;
use stream_server::{Conn, Door, StreamEnd};

/// What a client sends next, as one number: nothing, an acquire, or a first write of 0. Any other
/// is a write under the lock of a cookie, of a number below 256.
pub const NOTHING: u64 = 0;

pub const ACQUIRE: u64 = 1;

pub const OPEN: u64 = 2;

fn write_of(alloc: Global, number: u8, cookie: Option<u64>) -> Result<Ask, NoMemory> {
    Ok(Ask::Write {
        body: Bytes::copy(alloc, &[number])?,
        minutes: 525_600,
        fresh: false,
        cookie,
    })
}

/// What the number says.
pub fn ask_of(alloc: Global, code: u64) -> Result<Option<Ask>, NoMemory> {
    match code {
        NOTHING => Ok(None),
        ACQUIRE => Ok(Some(Ask::Acquire)),
        OPEN => Ok(Some(write_of(alloc, 0, None)?)),
        _ => Ok(Some(write_of(alloc, (code & 255) as u8, Some(code >> 8))?)),
    }
}

/// A client ends once it wrote a number that this divides. So as many numbers for each client are
/// written in all, if none is lost.
pub const ADDITIONS: u64 = 5;

/// What is sent after `code` was answered so.
pub fn code_after(code: u64, reply: &Reply) -> u64 {
    match reply {
        Reply::Found {
            body,
            cookie: Some(cookie),
            ..
        } => {
            let number = body.as_slice().first().copied().unwrap_or(255);
            cookie.wrapping_shl(8) | u64::from(number.wrapping_add(1))
        }
        Reply::Missing | Reply::Locked { .. } => ACQUIRE,
        Reply::Done if code == OPEN || (code & 255) % ADDITIONS != 0 => ACQUIRE,
        _ => NOTHING,
    }
}

/// The client's sending half. It sends what its hearing half tells it to, and then ends.
#[derive(Drop)]
pub struct Sending<'a> {
    next: &'a AtomicU64,
    alloc: Global,
    text: Vec<u8>,
    at: usize,
    faults: u64,
}

impl Sending<'_> {
    fn refill(&mut self) -> Result<(), NoMemory>
        ensures { self.new.faults ≡ self.old.faults }
    {
        self.text.clear();
        self.at = 0;
        let code = self.next.swap(NOTHING, Ordering::SeqCst);
        if code == ACQUIRE {
            yield_now();
        }
        if let Some(ask) = ask_of(self.alloc, code)? {
            let key = Bytes::copy(self.alloc, b"/a")?;
            write_request(&mut self.text, &Request { key, ask })?;
        }
        Ok(())
    }
}

impl Source for Sending<'_> {
    ghost told = { λ _. None };

    ghost faults = { λ s. s.faults };

    fn read(&mut self, buf: &mut [u8]) -> Result<usize, Failed> {
        if self.at >= self.text.len() && self.refill().is_err() {
            self.faults = self.faults.saturating_add(1);
            return Err(Failed);
        }
        let rest = self.text.get(self.at..).unwrap_or(b"");
        let count = rest.len().min(buf.len());
        buf[..count].copy_from_slice(&rest[..count]);
        self.at = self.at.saturating_add(count);
        Ok(count)
    }
}

/// The client's hearing half, which keeps each reply.
#[derive(Drop)]
pub struct Hearing<'a> {
    next: &'a AtomicU64,
    alloc: Global,
    sent: u64,
    text: Vec<u8>,
    /// What was heard, in order.
    pub replies: Vec<Reply>,
    faults: u64,
}

/// The reply that the bytes are, where they are a whole one.
fn reply_of(alloc: Global, text: &[u8]) -> Option<Reply> {
    if text.len() > 16_384 {
        return None;
    }
    let mut reader = ReplyReader::new(alloc);
    reader.feed(text).ok()?;
    match reader.next() {
        ReplyNext::Reply(reply) => Some(reply),
        _ => None,
    }
}

impl Hearing<'_> {
    fn hear(&mut self, piece: &[u8]) -> Option<()>
        ensures { self.new.faults ≡ self.old.faults }
    {
        self.text.extend_from_slice(piece).ok()?;
        if let Some(reply) = reply_of(self.alloc, self.text.as_slice()) {
            self.text.clear();
            self.sent = code_after(self.sent, &reply);
            self.next.store(self.sent, Ordering::SeqCst);
            self.replies.push(reply).ok()?;
        }
        Some(())
    }
}

impl Sink for Hearing<'_> {
    ghost taken = { λ _. None };

    ghost faults = { λ s. s.faults };

    fn write(&mut self, piece: &[u8]) -> Result<usize, Failed> {
        if self.hear(piece).is_none() {
            self.faults = self.faults.saturating_add(1);
            return Err(Failed);
        }
        Ok(piece.len())
    }
}

/// A client that begins with `first`, which stands in `next` then.
pub fn client(alloc: Global, next: &AtomicU64, first: u64) -> Conn<Sending<'_>, Hearing<'_>> {
    next.store(first, Ordering::SeqCst);
    Conn {
        input: Sending {
            next,
            alloc,
            text: Vec::new(alloc),
            at: 0,
            faults: 0,
        },
        output: Hearing {
            next,
            alloc,
            sent: first,
            text: Vec::new(alloc),
            replies: Vec::new(alloc),
            faults: 0,
        },
    }
}

/// A door of clients, the last first, and what those heard that came back.
#[derive(Drop)]
pub struct Clients<'a> {
    /// The clients to come, the last first.
    pub coming: Vec<Conn<Sending<'a>, Hearing<'a>>>,
    /// What those heard that came back, in order.
    pub heard: Vec<Vec<Reply>>,
    /// How often it failed: never.
    pub faults: u64,
}

impl<'a> Door for Clients<'a> {
    type Input = Sending<'a>;

    type Output = Hearing<'a>;

    ghost told = { λ _. untold };

    ghost faults = { λ d. d.faults };

    ghost has_room = { λ _. ⊤ };

    fn next<R: Wait>(&mut self, _rt: &R) -> Result<Option<Conn<Sending<'a>, Hearing<'a>>>, Failed>
        ensures some { IfOk result (λ o. IfSome o (λ _. ⊤)) }
        ensures room { IfOk result (λ o. IfSome o (λ _. ⊤)) }
        ensures none { IfOk result (λ o. IfNone o (⊤ × (untold ≡ untold))) }
        ensures failed { OnErr result (untold ≡ untold) }
        ensures cause { HasCause self.old.faults self.new.faults result }
        ensures count { OnOk result (self.new.faults ≡ self.old.faults) }
    {
        Ok(self.coming.pop())
    }

    fn done(&mut self, conn: Conn<Sending<'a>, Hearing<'a>>, _end: StreamEnd)
        ensures back { ⊤ }
        ensures count { self.new.faults ≡ self.old.faults }
    {
        let Conn { input: _, output } = conn;
        let Hearing { replies, .. } = output;
        let _ = self.heard.push(replies);
    }
}

/// A clock that gives a moment and then every 500 ms.
#[derive(Drop)]
pub struct Steps {
    pub next: u64,
}

/// The time from one moment of `Steps` to the next, in milliseconds.
pub const STEP: u64 = 500;

impl Clock for Steps {
    ghost told = { λ _. None };

    fn now<R: HostTime>(&mut self, _rt: &R) -> u64 {
        let now = self.next.min(LAST_MOMENT);
        self.next = now + STEP;
        now
    }
}
