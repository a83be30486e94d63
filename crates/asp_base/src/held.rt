//! Bytes held for a reader, and a count of the steps that it takes, for proofs alone.
ghost use Rattle.std.specs.Prelude.{◌≡◌, ◌<◌, ◌≤◌, ◌+◌, ◌++◌, [], length, take, drop, slice_index, IfOk, IsOk, OnOk, OnErr, MatchOption};
ghost use Rattle.asp_base.specs.Places.{HasNone, IsFirstPlace};

use crate::{Bytes, NoMemory};
use memchr::memchr;
use std::alloc::Global;
use std::fmt;
use std::marker::Model;
use std::mem::replace;
use std::sync::ledger::{Blank, Book, Ledger, Share};

/// The least length of a body that `split` takes with the vector that it lies in, in bytes.
const LARGE: u64 = 16_384;

/// The most bytes that stay before a large body in its vector.
const MOST_SKIPPED: usize = 1_024;

/// Bytes that are added at the end and taken off the front. Contracts see those that are held. They
/// can be read only by calls that count each byte that they read.
#[derive(Drop)]
pub struct Held {
    alloc: Global,
    bytes: Vec<u8>,
    start: usize,
}

impl Model for Held {
    ghost use Rattle.std.specs.Prelude.{List, ℕ, ◌≤◌, length, drop};

    ghost Value = { List ℕ };

    ghost view = { λ h. drop h.start h.bytes.items };

    ghost invariant = { λ h. h.start ≤ length h.bytes.items };
}

// It shows no bytes: whoever reads them counts them.
impl fmt::Debug for Held {
    fn fmt<W: fmt::Write>(&self, f: &mut fmt::Formatter<W>) -> fmt::Result {
        f.write_str("Held")
    }
}

/// Drops the bytes before `start`, where there are more than may stay with a body. It takes no
/// memory, and costs the bytes from `start` on then.
fn compact(bytes: &mut Vec<u8>, start: &mut usize)
    requires { start.old ≤ length bytes.old.items }
    ensures start { start.new ≤ 1_024 }
    ensures within { start.new ≤ length bytes.new.items }
    ensures bytes { drop start.new bytes.new.items ≡ drop start.old bytes.old.items }
{
    if *start > MOST_SKIPPED {
        let left = bytes.len() - *start;
        bytes.copy_within(*start.., 0);
        bytes.truncate(left);
        *start = 0;
    }
}

impl Held {
    /// No bytes. It takes no memory.
    pub fn new(alloc: Global) -> Held
        ensures { result ≡ [] }
    {
        Held {
            alloc,
            bytes: Vec::new(alloc),
            start: 0,
        }
    }

    /// Adds a piece. What is held moves once after something was taken, into memory of its own
    /// size. The only error is want of memory, and nothing has changed then.
    pub fn add(&mut self, piece: &[u8]) -> Result<(), NoMemory>
        ensures ok { OnOk result (self.new ≡ self.old ++ piece.now) }
        ensures err { OnErr result (self.new ≡ self.old) }
    {
        if self.start == 0 {
            self.bytes.extend_from_slice(piece)?;
            return Ok(());
        }
        let left = &self.bytes[self.start..];
        let mut bytes = Vec::with_capacity(self.alloc, left.len() + piece.len())?;
        bytes.extend_from_slice(left)?;
        bytes.extend_from_slice(piece)?;
        self.bytes = bytes;
        self.start = 0;
        Ok(())
    }

    /// Makes room for `more` bytes, where there is memory for it, so that what is held doesn't move
    /// as they are added. What is held stays the same.
    pub fn make_room(&mut self, more: u64)
        ensures { self.new ≡ self.old }
    {
        if self.start == 0 {
            let _room = self.bytes.reserve_exact(more as usize);
            return;
        }
        let left = &self.bytes[self.start..];
        let room = left.len().saturating_add(more as usize);
        let Ok(mut bytes) = Vec::with_capacity(self.alloc, room) else {
            return;
        };
        if let Ok(()) = bytes.extend_from_slice(left) {
            self.bytes = bytes;
            self.start = 0;
        }
    }

    /// How many bytes are held.
    pub fn len(&self) -> u64
        ensures { result ≡ length self.now }
    {
        (self.bytes.len() - self.start) as u64
    }

    /// The byte at place `at`, from 0. It counts one step.
    pub fn look<L: Ledger>(&self, at: u64, steps: &mut StepCount<L>) -> u8
        requires { at < length self.now }
        ensures byte { result ≡ slice_index self.now at }
        ensures steps { steps.new ≡ steps.old + 1 }
    {
        steps.add(1);
        self.bytes[self.start + at as usize]
    }

    /// The first place of the byte from `from` on and before `to`; `None` where it has none there.
    /// It counts a step for each byte up to that place, which is among them, or up to `to`.
    pub fn find<L: Ledger>(
        &self,
        byte: u8,
        from: u64,
        to: u64,
        steps: &mut StepCount<L>,
    ) -> Option<u64>
        requires from { from ≤ to }
        requires to { to ≤ length self.now }
        ensures place { MatchOption result (HasNone byte self.now from to)
            (λ place. IsFirstPlace byte self.now from to place) }
        ensures steps { MatchOption result (steps.new + from ≡ steps.old + to)
            (λ place. steps.new + from ≡ steps.old + place + 1) }
    {
        let bytes = &self.bytes[self.start + from as usize..self.start + to as usize];
        match memchr(byte, bytes) {
            Some(passed) => {
                let passed = passed as u64;
                steps.add(passed + 1);
                Some(from + passed)
            }
            None => {
                steps.add(to - from);
                None
            }
        }
    }

    /// The first `n` bytes. It counts `n` steps.
    pub fn front<L: Ledger>(&self, n: u64, steps: &mut StepCount<L>) -> &[u8]
        requires { n ≤ length self.now }
        ensures bytes { result.now ≡ take n self.now }
        ensures steps { steps.new ≡ steps.old + n }
    {
        steps.add(n);
        &self.bytes[self.start..self.start + n as usize]
    }

    /// Takes `head` bytes and then `body` bytes off the front, and gives the latter. It counts no
    /// step. A large body is not copied: it keeps the memory in which it came, with its head where
    /// that is short, and what is left gets its own. The only error is want of memory, never where
    /// `body` is 0, and nothing has changed then.
    pub fn split(&mut self, head: u64, body: u64) -> Result<Bytes, NoMemory>
        requires { head + body ≤ length self.old }
        ensures body { IfOk result (λ bytes. bytes ≡ take body (drop head self.old)) }
        ensures left { OnOk result (self.new ≡ drop (head + body) self.old) }
        ensures err { OnErr result (self.new ≡ self.old) }
        ensures no_body { body ≡ 0 → IsOk result }
    {
        let mut from = self.start + head as usize;
        let to = from + body as usize;
        if body == 0 {
            self.start = to;
            return Ok(Bytes::adopt(Vec::new(self.alloc)));
        }
        if body < LARGE {
            let bytes = Bytes::copy(self.alloc, &self.bytes[from..to])?;
            self.start = to;
            return Ok(bytes);
        }
        let left = Vec::from_slice(self.alloc, &self.bytes[to..])?;
        let mut bytes = replace(&mut self.bytes, left);
        self.start = 0;
        bytes.truncate(to);
        compact(&mut bytes, &mut from);
        Ok(Bytes::adopt_behind(bytes, from as u32))
    }
}

/// How many steps were taken. It takes no bytes, and only calls that say so change it.
#[derive(Drop)]
pub struct StepCount<L: Ledger> {
    book: Book<L>,
    share: Share<L>,
}

impl<L: Ledger> Model for StepCount<L> {
    ghost use Rattle.std.specs.Prelude.{ℕ, ◌<◌};

    ghost Value = { ℕ };

    ghost view = { λ s. s.book.total };

    ghost invariant = { λ s. 0 < s.share.parts };
}

impl<L: Ledger> StepCount<L> {
    /// No steps yet. The ledger is that of `blank`, of at least one part.
    pub fn new(blank: Blank) -> StepCount<L>
        requires name { blank.name ≡ L.name }
        requires parts { blank.parts ≡ L.parts }
        requires has_parts { 0 < L.parts }
        ensures { result ≡ 0 }
    {
        let (book, share) = blank.open();
        StepCount { book, share }
    }

    /// Counts `n` steps more.
    pub(crate) fn add(&mut self, n: u64)
        ensures { self.new ≡ self.old + n }
    {
        self.book.add(&mut self.share, n);
    }
}
