//! Sources in memory: one that fails where it is told to, and one that never fails.
ghost use Rattle.std.specs.Prelude.{◌≡◌, ◌+◌, ◌<◌, ◌≤◌, ◌↔◌, [], ◌++◌, length, take, drop, min, Some, IfOk, IsOkAnd, IsErr, MatchResult, Contains};
ghost use Rattle.asp_base.specs.Causes.{HasCause};
ghost use Rattle.asp_base.specs.InMemory.{counted_once_more, read_count};
ghost use Rattle.asp_base.specs.Outside.{Reads};

use crate::{Bytes, Failed, Source};
use std::marker::Model;

/// Puts the next bytes of the text into `buf`, at most `piece` of them, and answers how many.
fn give(text: &Bytes, at: &mut usize, piece: u64, buf: &mut [u8]) -> usize
    requires { at.old ≤ length text.now }
    ensures count { result ≡ min (min (length buf.old) piece) (length (drop at.old text.now)) }
    ensures at { at.new ≡ at.old + result }
    ensures within { at.new ≤ length text.now }
    ensures given { take at.new text.now ≡ take at.old text.now ++ take result buf.new }
    ensures left { drop at.old text.now ≡ take result buf.new ++ drop at.new text.now }
{
    let text = text.as_slice();
    let most = piece.min(buf.len() as u64) as usize;
    let count = most.min(text.len() - *at);
    buf[..count].copy_from_slice(&text[*at..*at + count]);
    *at += count;
    count
}

/// A source that gives a text, at most `piece` bytes a read, and fails the listed reads.
#[derive(Debug, Drop)]
pub struct MemorySource {
    text: Bytes,
    at: usize,
    piece: u64,
    calls: u64,
    fails: Vec<u64>,
    faults: u64,
}

impl Model for MemorySource {
    ghost use Rattle.std.specs.Prelude.{◌<◌, ◌≤◌, length, take, drop};
    ghost use Rattle.asp_base.specs.InMemory.{SourceInMemory};

    ghost Value = { SourceInMemory };

    ghost view = { λ s. record {
      given = take s.at s.text;
      left = drop s.at s.text;
      piece =
          s.piece;
      calls = s.calls;
      fails = s.fails.items;
      faults = s.faults;
    } };

    ghost invariant = { λ s. (s.at ≤ length s.text) × (0 < s.piece) };
}

impl MemorySource {
    /// A source of `text`. `fails` lists the numbers of the reads that fail, from 0; a failed read
    /// gives nothing.
    pub fn new(text: Bytes, piece: u64, fails: Vec<u64>) -> MemorySource
        requires { 0 < piece }
        ensures { result ≡ record {
          given = [];
          left = text;
          piece = piece;
          calls = 0;
          fails =
              fails.items;
          faults = 0;
        } }
    {
        MemorySource {
            text,
            at: 0,
            piece,
            calls: 0,
            fails,
            faults: 0,
        }
    }
}

impl Source for MemorySource {
    ghost told = { λ s. Some (s.given, s.left) };

    ghost faults = { λ s. s.faults };

    fn read(&mut self, buf: &mut [u8]) -> Result<usize, Failed>
        requires { 0 < length buf.old }
        ensures reads { Reads (Some (self.old.given, self.old.left))
            (Some (self.new.given, self.new.left)) result buf.new }
        ensures cause { HasCause self.old.faults self.new.faults result }

        // It fails at the listed reads and nowhere else.
        ensures fails { IsErr result ↔ Contains self.old.fails self.old.calls }
        ensures count { IfOk result (λ n. n ≡ read_count self.old buf.old) }
        ensures calls { self.new.calls ≡ counted_once_more self.old.calls }

        // Each failure is counted, and nothing else is; what it was made for stays.
        ensures counted { MatchResult result (λ _. self.new.faults ≡ self.old.faults)
            (λ _. self.new.faults ≡ counted_once_more self.old.faults) }
        ensures piece { self.new.piece ≡ self.old.piece }
        ensures listed { self.new.fails ≡ self.old.fails }
    {
        let call = self.calls;
        self.calls = call.saturating_add(1);
        if self.fails.contains(&call) {
            self.faults = self.faults.saturating_add(1);
            return Err(Failed);
        }
        Ok(give(&self.text, &mut self.at, self.piece, buf))
    }
}

/// A source that gives a text, at most `piece` bytes a read, and never fails.
#[derive(Debug, Drop)]
pub struct SureSource {
    text: Bytes,
    at: usize,
    piece: u64,
}

impl Model for SureSource {
    ghost use Rattle.std.specs.Prelude.{◌<◌, ◌≤◌, length, take, drop};
    ghost use Rattle.asp_base.specs.InMemory.{SureText};

    ghost Value = { SureText };

    ghost view = { λ s. record {
      given = take s.at s.text;
      left = drop s.at s.text;
      piece =
          s.piece;
    } };

    ghost invariant = { λ s. (s.at ≤ length s.text) × (0 < s.piece) };
}

impl SureSource {
    /// A source of `text`.
    pub fn new(text: Bytes, piece: u64) -> SureSource
        requires { 0 < piece }
        ensures { result ≡ record { given = []; left = text; piece = piece } }
    {
        SureSource { text, at: 0, piece }
    }
}

impl Source for SureSource {
    ghost told = { λ s. Some (s.given, s.left) };

    ghost faults = { λ s. 0 };

    fn read(&mut self, buf: &mut [u8]) -> Result<usize, Failed>
        requires { 0 < length buf.old }
        ensures reads { Reads (Some (self.old.given, self.old.left))
            (Some (self.new.given, self.new.left)) result buf.new }
        ensures cause { HasCause 0 0 result }
        ensures count { IsOkAnd result (λ n. n
            ≡ min (min (length buf.old) self.old.piece) (length self.old.left)) }
        ensures piece { self.new.piece ≡ self.old.piece }
    {
        Ok(give(&self.text, &mut self.at, self.piece, buf))
    }
}
