//! What a web server asks of the state server, and what is in range of it.
ghost use Rattle.std.specs.Prelude.{◌≡◌, IfOk, ◌↔◌, IsTrue};
ghost use Rattle.asp_messages.specs.Fields.{named};
ghost use Rattle.asp_messages.specs.Ranges.{AskFits, BodyFits, CookieFits, MinutesFit, RequestFits};

use asp_base::{Bytes, NoMemory};
use std::alloc::Global;

/// The most bytes of a key.
pub const MOST_KEY: usize = 1024;

/// The most bytes of a body.
pub const MOST_BODY: u64 = 4_194_304;

/// The longest timeout, in minutes.
pub const MOST_MINUTES: u64 = 525_600;

/// The greatest cookie.
pub const MOST_COOKIE: u64 = (1 << 63) - 1;

/// A request for one session's item ([MS-ASP], section 2.2).
#[derive(Debug, PartialEq, Eq, Drop)]
pub struct Request {
    /// The session's key, 1 to 1,024 bytes: the decoded request target.
    pub key: Bytes,
    /// What is asked.
    pub ask: Ask,
}

impl Request {
    /// The same request once more, its key and its content too. The only error is want of memory.
    pub fn copy(&self, alloc: Global) -> Result<Request, NoMemory>
        ensures { IfOk result (λ copy. copy ≡ self.now) }
    {
        Ok(Request {
            key: Bytes::copy(alloc, self.key.as_slice())?,
            ask: self.ask.copy(alloc)?,
        })
    }

    /// Another owner of the request's key and content, of which no byte is copied. The request
    /// stays the same whatever it answers; the only error is want of memory, which the counts of
    /// owners may take.
    pub fn share(&mut self) -> Result<Request, NoMemory>
        ensures same { self.new ≡ self.old }
        ensures shared { IfOk result (λ other. other ≡ self.old) }
    {
        self.key.make_shared()?;
        Ok(Request {
            key: self.key.share()?,
            ask: self.ask.share()?,
        })
    }
}

/// What a request asks.
#[derive(Debug, PartialEq, Eq, Drop)]
pub enum Ask {
    /// The content, without a lock.
    Read,
    /// The content, and the lock under a new cookie.
    Acquire,
    /// The end of the lock of this cookie.
    Release {
        /// 0 is a cookie that is never in force.
        cookie: u64,
    },
    /// New content, and the end of the lock of the cookie that is named.
    Write {
        /// The content, at most 4,194,304 bytes.
        body: Bytes,
        /// How long the item lives untouched, 1 to 525,600 minutes.
        minutes: u64,
        /// Whether the item is made uninitialized, to be told so to its first reader.
        fresh: bool,
        /// The cookie of the lock under which the content was read, where there is one.
        cookie: Option<u64>,
    },
    /// The item's removal, under the lock of the cookie that is named.
    Remove {
        /// The cookie of the lock under which the content was read, where there is one.
        cookie: Option<u64>,
    },
    /// A new timeout for the item, and nothing else.
    Reset,
}

impl Ask {
    /// The same ask once more, its content too. The only error is want of memory.
    pub fn copy(&self, alloc: Global) -> Result<Ask, NoMemory>
        ensures { IfOk result (λ copy. copy ≡ self.now) }
    {
        Ok(match self {
            Ask::Read => Ask::Read,
            Ask::Acquire => Ask::Acquire,
            Ask::Release { cookie } => Ask::Release { cookie: *cookie },
            Ask::Write {
                body,
                minutes,
                fresh,
                cookie,
            } => Ask::Write {
                body: Bytes::copy(alloc, body.as_slice())?,
                minutes: *minutes,
                fresh: *fresh,
                cookie: *cookie,
            },
            Ask::Remove { cookie } => Ask::Remove { cookie: *cookie },
            Ask::Reset => Ask::Reset,
        })
    }

    /// Another owner of the ask's content, of which no byte is copied. The ask stays the same
    /// whatever it answers; the only error is want of memory, which the count of owners may take.
    pub fn share(&mut self) -> Result<Ask, NoMemory>
        ensures same { self.new ≡ self.old }
        ensures shared { IfOk result (λ other. other ≡ self.old) }
    {
        Ok(match self {
            Ask::Read => Ask::Read,
            Ask::Acquire => Ask::Acquire,
            Ask::Release { cookie } => Ask::Release { cookie: *cookie },
            Ask::Write {
                body,
                minutes,
                fresh,
                cookie,
            } => {
                body.make_shared()?;
                Ask::Write {
                    body: body.share()?,
                    minutes: *minutes,
                    fresh: *fresh,
                    cookie: *cookie,
                }
            }
            Ask::Remove { cookie } => Ask::Remove { cookie: *cookie },
            Ask::Reset => Ask::Reset,
        })
    }
}

/// A message of a request stream.
#[derive(Debug, PartialEq, Eq, Drop)]
pub enum Message {
    /// A request in range.
    Fit(Request),
    /// A whole message that is no request; it is answered 400 and the stream goes on.
    Unfit,
}

/// The cookie that a number names: 0 names none.
pub fn named(cookie: u64) -> Option<u64>
    ensures { result ≡ named cookie }
{
    if cookie == 0 { None } else { Some(cookie) }
}

pub(crate) fn body_fits(body: &Bytes) -> bool
    ensures { IsTrue result ↔ BodyFits body.now }
{
    body.as_slice().len() as u64 <= MOST_BODY
}

pub(crate) fn cookie_fits(cookie: Option<u64>) -> bool
    ensures { IsTrue result ↔ CookieFits cookie }
{
    match cookie {
        None => true,
        Some(cookie) => cookie > 0 && cookie <= MOST_COOKIE,
    }
}

pub(crate) fn minutes_fit(minutes: u64) -> bool
    ensures { IsTrue result ↔ MinutesFit minutes }
{
    minutes > 0 && minutes <= MOST_MINUTES
}

fn ask_fits(ask: &Ask) -> bool
    ensures { IsTrue result ↔ AskFits ask.now }
{
    match ask {
        Ask::Read | Ask::Acquire | Ask::Reset => true,
        Ask::Release { cookie } => *cookie <= MOST_COOKIE,
        Ask::Write {
            body,
            minutes,
            cookie,
            ..
        } => body_fits(body) && minutes_fit(*minutes) && cookie_fits(*cookie),
        Ask::Remove { cookie } => cookie_fits(*cookie),
    }
}

/// Whether each length and number of the request is in its range.
pub fn request_fits(request: &Request) -> bool
    ensures { IsTrue result ↔ RequestFits request.now }
{
    let key = request.key.as_slice();
    !key.is_empty() && key.len() <= MOST_KEY && ask_fits(&request.ask)
}
