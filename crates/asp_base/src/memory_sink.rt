//! Sinks in memory: one that keeps its bytes and fails where it is told to, and one that only
//! counts.
ghost use Rattle.std.specs.Prelude.{◌≡◌, ◌<◌, ◌↔◌, ◌+◌, ◌-◌, [], length, min, Some, None, IfOk, IsOkAnd, IsErr, MatchResult, Contains, ◌^◌};
ghost use Rattle.asp_base.specs.Causes.{HasCause};
ghost use Rattle.asp_base.specs.InMemory.{counted_once_more, write_count, FailsWrite};
ghost use Rattle.asp_base.specs.Outside.{Writes};

use crate::{Failed, NoMemory, Sink};
use std::alloc::Global;
use std::marker::Model;

/// A sink that keeps what it takes in room that it has from the start, takes at most `piece` bytes
/// a write, and fails the listed writes and those that find no room.
#[derive(Debug, Drop)]
pub struct MemorySink {
    kept: Vec<u8>,
    room: usize,
    piece: u64,
    calls: u64,
    fails: Vec<u64>,
    faults: u64,
}

impl Model for MemorySink {
    ghost use Rattle.std.specs.Prelude.{◌<◌, ◌≤◌, ◌+◌, vec_len, vec_capacity};
    ghost use Rattle.asp_base.specs.InMemory.{SinkInMemory};

    ghost Value = { SinkInMemory };

    ghost view = { λ s. record {
      taken = s.kept.items;
      room = s.room;
      piece = s.piece;
      calls =
          s.calls;
      fails = s.fails.items;
      faults = s.faults;
    } };

    ghost invariant = { λ s. (vec_len s.kept + s.room ≤ vec_capacity s.kept) × (0 < s.piece) };
}

impl MemorySink {
    /// A sink with room for `room` bytes. `fails` lists the numbers of the writes that fail, from
    /// 0; a failed write takes nothing. The only error is want of memory for the room.
    pub fn new(
        alloc: Global,
        room: u64,
        piece: u64,
        fails: Vec<u64>,
    ) -> Result<MemorySink, NoMemory>
        requires { 0 < piece }
        ensures { IfOk result (λ s. s ≡ record {
          taken = [];
          room = room;
          piece = piece;
          calls =
              0;
          fails = fails.items;
          faults = 0;
        }) }
    {
        let room = room as usize;
        Ok(MemorySink {
            kept: Vec::with_capacity(alloc, room)?,
            room,
            piece,
            calls: 0,
            fails,
            faults: 0,
        })
    }

    /// The bytes taken so far.
    pub fn taken(&self) -> &[u8]
        ensures { result.now ≡ self.now.taken }
    {
        self.kept.as_slice()
    }

    fn failed(&mut self) -> Failed
        ensures { self.new ≡ record self.old { faults = counted_once_more self.old.faults } }
    {
        self.faults = self.faults.saturating_add(1);
        Failed
    }
}

impl Sink for MemorySink {
    ghost taken = { λ s. Some s.taken };

    ghost faults = { λ s. s.faults };

    fn write(&mut self, piece: &[u8]) -> Result<usize, Failed>
        ensures writes { Writes (Some self.old.taken) (Some self.new.taken) result piece.now }
        ensures cause { HasCause self.old.faults self.new.faults result }

        // It fails at the listed writes, where it has no room for any of the bytes, and nowhere
        // else.
        ensures fails { IsErr result ↔ FailsWrite self.old piece.now }
        ensures count { IfOk result (λ n. n ≡ write_count self.old piece.now) }
        ensures calls { self.new.calls ≡ counted_once_more self.old.calls }

        // Each failure is counted, and nothing else is; the room shrinks by what is taken, and what
        // it was made for stays.
        ensures counted { MatchResult result (λ _. self.new.faults ≡ self.old.faults)
            (λ _. self.new.faults ≡ counted_once_more self.old.faults) }
        ensures room { MatchResult result (λ n. self.new.room + n ≡ self.old.room)
            (λ _. self.new.room ≡ self.old.room) }
        ensures piece { self.new.piece ≡ self.old.piece }
        ensures listed { self.new.fails ≡ self.old.fails }
    {
        let call = self.calls;
        self.calls = call.saturating_add(1);
        let most = self.piece.min(piece.len() as u64) as usize;
        let count = most.min(self.room);
        if self.fails.contains(&call) || (count == 0 && !piece.is_empty()) {
            return Err(self.failed());
        }
        match self.kept.extend_from_slice(&piece[..count]) {
            Ok(()) => {
                self.room -= count;
                Ok(count)
            }
            Err(_) => Err(self.failed()),
        }
    }
}

/// A sink that takes every piece, keeps only how many bytes it took, and tells no bytes.
#[derive(Clone, Copy, Debug)]
pub struct SureSink {
    count: u64,
}

impl Model for SureSink {
    ghost use Rattle.std.specs.Prelude.{ℕ};

    ghost Value = { ℕ };

    ghost view = { λ s. s.count };

    ghost inverse = { λ n. record { count = n } };
}

impl SureSink {
    /// A sink that has taken nothing.
    pub fn new() -> SureSink
        ensures { result ≡ 0 }
    {
        SureSink { count: 0 }
    }

    /// How many bytes were taken, at most the last value of a `u64`.
    pub fn count(&self) -> u64
        ensures { result ≡ self.now }
    {
        self.count
    }
}

impl Sink for SureSink {
    ghost taken = { λ _. None };

    ghost faults = { λ _. 0 };

    fn write(&mut self, piece: &[u8]) -> Result<usize, Failed>
        ensures writes { Writes None None result piece.now }
        ensures cause { HasCause 0 0 result }
        ensures count { IsOkAnd result (λ n. n ≡ length piece.now) }
        ensures taken { self.new ≡ min (self.old + length piece.now) (2 ^ 64 - 1) }
    {
        self.count = self.count.saturating_add(piece.len() as u64);
        Ok(piece.len())
    }
}
