//! The requests of a load.
ghost use Rattle.std.specs.Prelude.{◌≡◌, ◌++◌, ◌+◌, ◌*◌, ◌%◌, ◌/◌, ◌<◌, ◌≤◌, ◌^◌, codes, decimal, length, IfOk};
ghost use Rattle.asp_messages.specs.Ranges.{AskFits, CookieFits, KeyFits, RequestFits, ReplyFits};
ghost use Rattle.load_generator.specs.Load.{number_after, part_of, numbered_key, asking, writing, release, named_write, request_of, seeded, next_request, next_moment, generator_after};

use asp_base::{Bytes, NoMemory};
use asp_messages::{Ask, Reply, Request};
use itoa::Buffer;
use std::alloc::Global;
use std::marker::Model;

/// The timeout of each write, in minutes.
const TIMEOUT_MINUTES: u64 = 20;

/// The key of a number and the cookie of an acquire that was answered `Found`.
#[derive(Drop)]
struct LatestGrant {
    number: u64,
    cookie: u64,
}

impl Model for LatestGrant {
    ghost use Rattle.std.specs.Prelude.{◌<◌, ◌^◌};
    ghost use Rattle.load_generator.specs.Load.{Granted, numbered_key};

    ghost Value = { Granted };

    ghost view = { λ g. record { key = numbered_key g.number; cookie = g.cookie } };

    ghost invariant = { λ g. (0 < g.cookie) × (g.cookie < 2 ^ 63) };
}

/// Makes requests, one after the other, by its numbers and by the latest grant.
#[derive(Drop)]
pub struct Generator {
    number: u64,
    made: u64,
    grant: Option<LatestGrant>,
}

impl Model for Generator {
    ghost use Rattle.std.specs.Prelude.{◌<◌, ◌≤◌, ◌^◌};
    ghost use Rattle.load_generator.specs.Load.{Generating};

    ghost Value = { Generating };

    ghost view = { λ g. record { number = g.number; made = g.made; grant = g.grant } };

    ghost invariant = { λ g. (g.number < 2 ^ 31) };
}

/// A text of `/` and a number, or of a number alone.
fn text(alloc: Global, start: &[u8], n: u64) -> Result<Bytes, NoMemory>
    ensures text { IfOk result (λ text. text ≡ start.now ++ decimal n) }
    ensures bound { IfOk result (λ text. length text ≤ length start.now + 20) }
{
    let mut text = Vec::new(alloc);
    text.extend_from_slice(start)?;
    let mut buffer = Buffer::new();
    text.extend_from_slice(buffer.format(n).as_bytes())?;
    Ok(Bytes::adopt(text))
}

fn key(alloc: Global, n: u64) -> Result<Bytes, NoMemory>
    ensures key { IfOk result (λ key. key ≡ numbered_key n) }
    ensures fits { IfOk result KeyFits }
{
    text(alloc, b"/", n)
}

fn write(alloc: Global, k: u64, cookie: Option<u64>) -> Result<Ask, NoMemory>
    requires { CookieFits cookie }
    ensures ask { IfOk result (λ ask. ask ≡ writing k cookie) }
    ensures fits { IfOk result AskFits }
{
    Ok(Ask::Write {
        body: text(alloc, b"", k)?,
        minutes: TIMEOUT_MINUTES,
        fresh: false,
        cookie,
    })
}

/// What is asked of the key of a number.
fn asking(alloc: Global, number: u64, ask: Ask) -> Result<Request, NoMemory>
    requires { AskFits ask }
    ensures request { IfOk result (λ request. request ≡ asking (numbered_key number) ask) }
    ensures fits { IfOk result RequestFits }
{
    Ok(Request {
        key: key(alloc, number)?,
        ask,
    })
}

/// A release of the latest grant, else of cookie 0.
fn release(alloc: Global, drawn: u64, grant: &Option<LatestGrant>) -> Result<Request, NoMemory>
    ensures request { IfOk result (λ request. request ≡ release (numbered_key drawn) grant.now) }
    ensures fits { IfOk result RequestFits }
{
    match grant {
        Some(LatestGrant { number, cookie }) => asking(
            alloc,
            *number,
            Ask::Release { cookie: *cookie },
        ),
        None => asking(alloc, drawn, Ask::Release { cookie: 0 }),
    }
}

/// A write under the latest grant, else one without a cookie.
fn named_write(
    alloc: Global,
    k: u64,
    drawn: u64,
    grant: &Option<LatestGrant>,
) -> Result<Request, NoMemory>
    ensures request { IfOk result (λ request. request
        ≡ named_write k (numbered_key drawn) grant.now) }
    ensures fits { IfOk result RequestFits }
{
    match grant {
        Some(LatestGrant { number, cookie }) => {
            let ask = write(alloc, k, Some(*cookie))?;
            asking(alloc, *number, ask)
        }
        None => {
            let ask = write(alloc, k, None)?;
            asking(alloc, drawn, ask)
        }
    }
}

/// The k-th request, by its kind, the number of its key and the latest grant.
fn request_of(
    alloc: Global,
    kind: u64,
    k: u64,
    drawn: u64,
    grant: &Option<LatestGrant>,
) -> Result<Request, NoMemory>
    ensures request { IfOk result (λ request. request
        ≡ request_of kind k (numbered_key drawn) grant.now) }
    ensures fits { IfOk result RequestFits }
{
    match kind {
        0 => asking(alloc, drawn, Ask::Remove { cookie: None }),
        2 => asking(alloc, drawn, Ask::Read),
        4 => release(alloc, drawn, grant),
        5 => named_write(alloc, k, drawn, grant),
        6 => asking(alloc, drawn, Ask::Acquire),
        7 => asking(alloc, drawn, Ask::Reset),
        _ => {
            let ask = write(alloc, k, None)?;
            asking(alloc, drawn, ask)
        }
    }
}

impl Generator {
    /// A generator that has made no request: `seed` is below 2^31.
    pub fn new(seed: u64) -> Generator
        requires { seed < 2 ^ 31 }
        ensures { result ≡ seeded seed }
    {
        Generator {
            number: seed,
            made: 0,
            grant: None,
        }
    }

    fn next_number(&self) -> u64
        ensures { result ≡ number_after self.now.number }
    {
        (self.number * 1_103_515_245 + 12_345) % 2_147_483_648
    }

    /// The moment of the request that is made next, in milliseconds.
    pub fn moment(&self) -> u64
        requires { self.now.made < 2 ^ 32 }
        ensures { result ≡ next_moment self.now }
    {
        (self.made + 1) * 1000
    }

    /// The request that is made next.
    pub fn request(&self, alloc: Global) -> Result<Request, NoMemory>
        requires { self.now.made < 2 ^ 32 }
        ensures request { IfOk result (λ request. request ≡ next_request self.now) }
        ensures fits { IfOk result RequestFits }
    {
        let part = self.next_number() / 65_536;
        request_of(alloc, part % 8, self.made + 1, part / 8, &self.grant)
    }

    /// The request that is made next was answered.
    pub fn heard(&mut self, reply: &Reply)
        requires made { self.old.made < 2 ^ 32 }
        requires reply { ReplyFits reply.now }
        ensures { self.new ≡ generator_after self.old reply.now }
    {
        let number = self.next_number();
        let part = number / 65_536;
        if part % 8 == 6
            && let Reply::Found {
                cookie: Some(cookie),
                ..
            } = reply
        {
            self.grant = Some(LatestGrant {
                number: part / 8,
                cookie: *cookie,
            });
        }
        self.number = number;
        self.made += 1;
    }
}
