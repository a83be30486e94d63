//! The bytes that a reader holds: what was fed and is not taken, and how far of it a line feed was
//! sought.
ghost use Rattle.std.specs.Prelude.{◌≡◌, ◌<◌, ◌≤◌, ◌+◌, ◌-◌, ◌++◌, ◌==◌, [], length, take, drop, OnOk, OnErr, MatchOption};
ghost use Rattle.plain_words.specs.Words.{HasNo, SplitsAt};

use asp_base::NoMemory;
use memchr::memchr;
use std::alloc::Global;
use std::marker::Model;

/// Bytes that are fed at the end and taken from the front, line by line. Contracts see those that
/// are held.
#[derive(Debug, Drop)]
pub struct HeldLines {
    alloc: Global,
    bytes: Vec<u8>,
    start: usize,
    searched: usize,
}

impl Model for HeldLines {
    ghost use Rattle.std.specs.Prelude.{List, ℕ, ◌≤◌, length, drop, slice_range};
    ghost use Rattle.plain_words.specs.Words.{HasNo};

    ghost Value = { List ℕ };

    ghost view = { λ h. drop h.start h.bytes.items };

    ghost invariant = { λ h. (h.start ≤ h.searched) × (h.searched ≤ length h.bytes.items)
        × HasNo 10 (slice_range h.bytes.items h.start h.searched) };
}

/// Drops the bytes before `start`, if there are any. It takes no memory, and costs the bytes from
/// `start` on.
fn compact(bytes: &mut Vec<u8>, start: &mut usize, searched: &mut usize)
    requires within { start.old ≤ length bytes.old.items }
    requires sought { start.old ≤ searched.old }
    ensures start { start.new ≡ 0 }
    ensures searched { searched.new ≡ searched.old - start.old }
    ensures bytes { bytes.new.items ≡ drop start.old bytes.old.items }
{
    if *start > 0 {
        bytes.drain(..*start);
        *searched -= *start;
        *start = 0;
    }
}

impl HeldLines {
    /// No bytes. It takes no memory.
    pub fn new(alloc: Global) -> HeldLines
        ensures { result ≡ [] }
    {
        HeldLines {
            alloc,
            bytes: Vec::new(alloc),
            start: 0,
            searched: 0,
        }
    }

    /// The bytes that are held.
    pub fn as_slice(&self) -> &[u8]
        ensures { result.now ≡ self.now }
    {
        &self.bytes[self.start..]
    }

    /// How many bytes are held.
    pub fn len(&self) -> usize
        ensures { result ≡ length self.now }
    {
        self.as_slice().len()
    }

    /// Whether no bytes are held.
    pub fn is_empty(&self) -> bool
        ensures { result ≡ (length self.now == 0) }
    {
        self.as_slice().is_empty()
    }

    /// Drops all bytes and their memory.
    pub fn clear(&mut self)
        ensures { self.new ≡ [] }
    {
        self.bytes = Vec::new(self.alloc);
        self.start = 0;
        self.searched = 0;
    }

    /// Adds a piece. What is held moves once after something was taken. The only error is to be out
    /// of memory, and nothing has changed then.
    pub fn feed(&mut self, piece: &[u8]) -> Result<(), NoMemory>
        ensures ok { OnOk result (self.new ≡ self.old ++ piece.now) }
        ensures err { OnErr result (self.new ≡ self.old) }
    {
        compact(&mut self.bytes, &mut self.start, &mut self.searched);
        self.bytes.extend_from_slice(piece)?;
        Ok(())
    }

    /// The length of the first line without its line feed; `None` exactly where there is no line
    /// feed. No byte is sought twice.
    pub fn first_line(&mut self) -> Option<usize>
        ensures same { self.new ≡ self.old }
        ensures line { MatchOption result (HasNo 10 self.old)
            (λ len. (len < length self.old) × SplitsAt 10 self.old (take len self.old)
            (drop (len + 1) self.old)) }
    {
        match memchr(b'\n', &self.bytes[self.searched..]) {
            Some(place) => {
                self.searched += place;
                Some(self.searched - self.start)
            }
            None => {
                self.searched = self.bytes.len();
                None
            }
        }
    }

    /// Takes a line of this length and its line feed from the front.
    pub fn take_line(&mut self, len: usize)
        requires { len < length self.old }
        ensures { self.new ≡ drop (len + 1) self.old }
    {
        let end = self.start + len + 1;
        self.start = end;
        self.searched = end;
    }
}
