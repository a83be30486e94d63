//! A head: where it ends, at its first empty line after its first byte that is neither carriage
//! return nor line feed (RFC 7230, section 3); and its fields by name, where `httparse` found them.
ghost use Rattle.std.specs.Prelude.{◌≡◌, ◌<◌, ◌≤◌, ◌-◌, length, take, Some, map, All, codes};
ghost use Rattle.message_framing.specs.HeadEnd.{after, phase_after};
ghost use Rattle.message_framing.specs.Looks.{LooksOn, LooksOnce};
ghost use Rattle.asp_messages.specs.Head.{most_head};
ghost use Rattle.httparse.specs.Spans.{IsHeaderWithin, header_bytes};
ghost use Rattle.message_framing.specs.Standings.{standing_of, one_more_value};
ghost use Rattle.asp_messages.specs.Fields as fields;

use asp_base::{Held, StepCount, read_number, same_name};
use asp_messages::{MOST_BODY, MOST_COOKIE};
use httparse::spans::HeaderSpan;
use std::sync::ledger::Ledger;

/// The most bytes of a head, with the empty lines before it.
pub const MOST_HEAD: usize = 8192;

/// How far the bytes that were looked at have come in a head.
#[derive(Clone, Copy, Debug)]
pub enum Phase {
    /// Each is a carriage return or a line feed.
    Blank,
    /// In a line.
    Line,
    /// Right after a line feed.
    Feed,
    /// Right after a line feed and a carriage return.
    Return,
}

/// What a look has come to.
#[derive(Clone, Copy, Debug)]
pub enum HeadSearch {
    /// The head ends after so many bytes.
    Ended(u64),
    /// It doesn't end in so many bytes, which are all or as many as a head may have.
    Open(u64, Phase),
}

/// With one byte more; `None` where the head ends with it.
fn after(phase: Phase, byte: u8) -> Option<Phase>
    ensures { result ≡ after phase byte }
{
    if byte > b'\r' {
        return Some(Phase::Line);
    }
    match phase {
        Phase::Blank => {
            if byte == b'\r' || byte == b'\n' {
                Some(Phase::Blank)
            } else {
                Some(Phase::Line)
            }
        }
        Phase::Line => {
            if byte == b'\n' {
                Some(Phase::Feed)
            } else {
                Some(Phase::Line)
            }
        }
        Phase::Feed => {
            if byte == b'\n' {
                None
            } else if byte == b'\r' {
                Some(Phase::Return)
            } else {
                Some(Phase::Line)
            }
        }
        Phase::Return => {
            if byte == b'\n' {
                None
            } else {
                Some(Phase::Line)
            }
        }
    }
}

/// Looks on from place `at`: over the rest of a line with its line feed, or else at one byte.
fn look_once<L: Ledger>(
    held: &Held,
    at: u64,
    end: u64,
    phase: Phase,
    steps: &mut StepCount<L>,
) -> HeadSearch
    requires at { at < end }
    requires end { end ≤ length held.now }
    requires room { end ≤ most_head }
    requires seen { phase_after Phase.Blank (take at held.now) ≡ Some phase }
    ensures looks { LooksOnce held.now at end result (steps.new - steps.old) }
    ensures rises { steps.old ≤ steps.new }
{
    if let Phase::Line = phase {
        return match held.find(b'\n', at, end, steps) {
            Some(place) => HeadSearch::Open(place + 1, Phase::Feed),
            None => HeadSearch::Open(end, Phase::Line),
        };
    }
    let byte = held.look(at, steps);
    match after(phase, byte) {
        Some(next) => HeadSearch::Open(at + 1, next),
        None => HeadSearch::Ended(at + 1),
    }
}

/// Looks on for the end of a head from the place where the last look stopped, at each byte once.
pub fn look_on<L: Ledger>(
    held: &Held,
    from: u64,
    phase: Phase,
    steps: &mut StepCount<L>,
) -> HeadSearch
    requires from { from ≤ length held.now }
    requires room { from ≤ most_head }
    requires seen { phase_after Phase.Blank (take from held.now) ≡ Some phase }
    ensures looks { LooksOn held.now from result (steps.new - steps.old) }
    ensures rises { steps.old ≤ steps.new }
{
    let end = held.len().min(MOST_HEAD as u64);
    let mut at = from;
    let mut phase = phase;
    while at < end {
        match look_once(held, at, end, phase, steps) {
            HeadSearch::Ended(len) => return HeadSearch::Ended(len),
            HeadSearch::Open(len, then) => {
                at = len;
                phase = then;
            }
        }
    }
    HeadSearch::Open(at, phase)
}

/// How often a field stands in a head, and its value where it stands once.
#[derive(Clone, Copy, Debug)]
pub enum FieldOccurrence<'a> {
    /// Never.
    Absent,
    /// Once, with this value.
    One(&'a [u8]),
    /// More than once.
    Twice,
}

fn with_value<'a>(found: FieldOccurrence<'a>, value: &'a [u8]) -> FieldOccurrence<'a>
    ensures { standing_of result ≡ one_more_value (standing_of found.entry) value.now }
{
    match found {
        FieldOccurrence::Absent => FieldOccurrence::One(value),
        _ => FieldOccurrence::Twice,
    }
}

/// How often the field of this name stands in the head that lies in `buf`.
pub fn find_field<'a>(buf: &'a [u8], headers: &[HeaderSpan], name: &[u8]) -> FieldOccurrence<'a>
    requires { All (IsHeaderWithin (length buf.now)) headers.now }
    ensures { standing_of result ≡ fields.once (map (header_bytes buf.now) headers.now) name.now }
{
    let mut found = FieldOccurrence::Absent;
    for header in headers {
        let value = header.value.of(buf);
        if same_name(header.name.of(buf), name) {
            found = with_value(found, value);
        }
    }
    found
}

/// The number of a field that may be absent: `default` then, and `None` where it stands twice, is
/// no number, or is out of the range from `least` to `most`.
pub fn number_or(default: u64, least: u64, most: u64, field: FieldOccurrence) -> Option<u64>
    ensures { result ≡ fields.number_or default least most (standing_of field.entry) }
{
    match field {
        FieldOccurrence::Absent => Some(default),
        FieldOccurrence::One(value) => at_least(least, read_number(value, most)),
        FieldOccurrence::Twice => None,
    }
}

fn at_least(least: u64, number: Option<u64>) -> Option<u64>
    ensures { result ≡ fields.at_least least number }
{
    let number = number?;
    if least <= number { Some(number) } else { None }
}

/// The number of a field that is needed: `None` where it is absent, stands twice, is no number, or
/// is above `most`.
pub fn number_needed(most: u64, field: FieldOccurrence) -> Option<u64>
    ensures { result ≡ fields.number_needed most (standing_of field.entry) }
{
    match field {
        FieldOccurrence::One(value) => read_number(value, most),
        _ => None,
    }
}

/// The length in bytes of the body that the head announces, at most 4,194,304. `None` where its
/// `Content-Length` is no such number, or stands twice (RFC 7230, section 3.3.2).
pub fn body_length(buf: &[u8], headers: &[HeaderSpan]) -> Option<u64>
    requires { All (IsHeaderWithin (length buf.now)) headers.now }
    ensures { result ≡ fields.body_length (map (header_bytes buf.now) headers.now) }
{
    number_or(0, 0, MOST_BODY, find_field(buf, headers, b"Content-Length"))
}

/// The cookie of `LockCookie`, 0 where it names none. `None` where it is out of range.
pub fn lock_cookie(buf: &[u8], headers: &[HeaderSpan]) -> Option<u64>
    requires { All (IsHeaderWithin (length buf.now)) headers.now }
    ensures { result ≡ fields.lock_cookie_field (map (header_bytes buf.now) headers.now) }
{
    number_or(0, 0, MOST_COOKIE, find_field(buf, headers, b"LockCookie"))
}
