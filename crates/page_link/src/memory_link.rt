//! A link in memory, which fails where it is told to.
ghost use Rattle.std.specs.Prelude.{◌≡◌, ◌<◌, ◌≤◌, ◌↔◌, ◌+◌, ◌-◌, [], ◌∷◌, ◌++◌, ℕ, List, Option, length, take, Some, MatchResult, IfOk, IsErr, Contains};
ghost use Rattle.asp_base.specs.Causes.{HasCause};
ghost use Rattle.asp_base.specs.InMemory.{counted_once_more};
ghost use Rattle.page_link.specs.LinkInMemory.{receipt_count, FailsSend};
ghost use Rattle.page_link.specs.Links.{IsReceipt, KeepsPauses, LinkSends, SendsFront};

use crate::Link;
use asp_base::{Bytes, Failed, MemorySource, NoMemory, Source};
use std::alloc::Global;
use std::marker::Model;
use std::rt::Clock as HostTime;

/// A link that keeps what is sent in room that it has from the start, gives listed bytes, at most
/// `piece` a receipt, and fails the listed sends and receipts, and a send that finds no room. No
/// time passes in its pauses.
#[derive(Debug, Drop)]
pub struct MemoryLink {
    sent: Vec<u8>,
    room: usize,
    incoming: MemorySource,
    sends: u64,
    send_fails: Vec<u64>,
    faults: u64,
    pauses: Vec<u64>,
    pause_room: usize,
}

impl Model for MemoryLink {
    ghost use Rattle.std.specs.Prelude.{◌≤◌, ◌+◌, vec_len, vec_capacity};
    ghost use Rattle.page_link.specs.LinkInMemory.{LinkInMemory};

    ghost Value = { LinkInMemory };

    ghost view = { λ l. record {
      sent = l.sent.items;
      room = l.room;
      incoming = l.incoming.left;
      piece = l.incoming.piece;
      sends = l.sends;
      receipts = l.incoming.calls;
      send_fails = l.send_fails.items;
      receive_fails = l.incoming.fails;
      faults = l.faults;
      pauses = l.pauses.items;
      pause_room = l.pause_room;
    } };

    ghost invariant = { λ l. (vec_len l.sent + l.room ≤ vec_capacity l.sent)
        × (vec_len l.pauses + l.pause_room ≤ vec_capacity l.pauses) };
}

impl MemoryLink {
    /// A link with room for `room` bytes that are sent, and these bytes to be received. The lists
    /// have the numbers of the sends and of the receipts that fail, each from 0; a failed receipt
    /// takes nothing, and a listed send sends nothing. The only error is want of memory for the
    /// room.
    pub fn new(
        alloc: Global,
        room: u64,
        incoming: Bytes,
        piece: u64,
        send_fails: Vec<u64>,
        receive_fails: Vec<u64>,
    ) -> Result<MemoryLink, NoMemory>
        requires { 0 < piece }
        ensures { IfOk result (λ l. l ≡ record {
          sent = [];
          room = room;
          incoming =
              incoming;
          piece = piece;
          sends = 0;
          receipts = 0;
          send_fails = send_fails.items;
          receive_fails = receive_fails.items;
          faults = 0;
          pauses = [];
          pause_room = 0;
        }) }
    {
        let room = room as usize;
        Ok(MemoryLink {
            sent: Vec::with_capacity(alloc, room)?,
            room,
            incoming: MemorySource::new(incoming, piece, receive_fails),
            sends: 0,
            send_fails,
            faults: 0,
            pauses: Vec::new(alloc),
            pause_room: 0,
        })
    }

    /// This link, with room for the moments of so many pauses, in place of those that it kept. The
    /// only error is want of memory for the room.
    pub fn keeping_pauses(self, alloc: Global, most: u64) -> Result<MemoryLink, NoMemory>
        ensures { IfOk result (λ l. l ≡ record self { pauses = []; pause_room = most }) }
    {
        let room = most as usize;
        let mut link = self;
        link.pauses = Vec::with_capacity(alloc, room)?;
        link.pause_room = room;
        Ok(link)
    }

    /// The moments until which it was told to pause, in order, so many of the first of them as it
    /// had room for.
    pub fn pauses(&self) -> &[u64]
        ensures { result.now ≡ self.now.pauses }
    {
        self.pauses.as_slice()
    }

    /// The bytes sent so far.
    pub fn sent(&self) -> &[u8]
        ensures { result.now ≡ self.now.sent }
    {
        self.sent.as_slice()
    }

    fn failed(&mut self) -> Failed
        ensures { self.new ≡ record self.old { faults = counted_once_more self.old.faults } }
    {
        self.faults = self.faults.saturating_add(1);
        Failed
    }
}

impl Link for MemoryLink {
    ghost told = { λ l. Some (l.sent, l.incoming) };

    ghost pauses = { λ l. Some (l.pauses, l.pause_room) };

    ghost faults = { λ l. l.faults };

    fn send<R>(&mut self, _rt: &R, piece: &[u8]) -> Result<(), Failed>
        ensures sends { MatchResult result
            (λ _. LinkSends (Some (self.old.sent, self.old.incoming))
            (Some (self.new.sent, self.new.incoming)) piece.now)
            (λ _. SendsFront (Some (self.old.sent, self.old.incoming))
            (Some (self.new.sent, self.new.incoming)) piece.now) }
        ensures pauses { let old : Option (List ℕ × ℕ) =
            Some (self.old.pauses, self.old.pause_room) in
            Some (self.new.pauses, self.new.pause_room) ≡ old }
        ensures cause { HasCause self.old.faults self.new.faults result }

        // It fails at the listed sends and where it has no room for the whole piece, and nowhere
        // else.
        ensures fails { IsErr result ↔ FailsSend self.old piece.now }

        // A send that is not listed keeps what fits.
        ensures kept { (Contains self.old.send_fails self.old.sends → ⊥)
            → self.new.sent ≡ self.old.sent ++ take self.old.room piece.now }
        ensures number { self.new.sends ≡ counted_once_more self.old.sends }

        // A listed send keeps nothing; the room shrinks by what is kept.
        ensures nothing { Contains self.old.send_fails self.old.sends
            → self.new.sent ≡ self.old.sent }
        ensures room { length self.new.sent + self.new.room ≡ length self.old.sent + self.old.room }

        // Each failure is counted, and nothing else is; receipts are not numbered, and what it was
        // made for stays.
        ensures counted { MatchResult result (λ _. self.new.faults ≡ self.old.faults)
            (λ _. self.new.faults ≡ counted_once_more self.old.faults) }
        ensures receipts { self.new.receipts ≡ self.old.receipts }
        ensures piece { self.new.piece ≡ self.old.piece }
        ensures send_fails { self.new.send_fails ≡ self.old.send_fails }
        ensures receive_fails { self.new.receive_fails ≡ self.old.receive_fails }
    {
        let call = self.sends;
        self.sends = call.saturating_add(1);
        if self.send_fails.contains(&call) {
            return Err(self.failed());
        }
        let count = self.room.min(piece.len());
        match self.sent.extend_from_slice(&piece[..count]) {
            Ok(()) => self.room -= count,
            Err(_) => return Err(self.failed()),
        }
        if count < piece.len() {
            return Err(self.failed());
        }
        Ok(())
    }

    fn receive<R>(&mut self, _rt: &R, buf: &mut [u8]) -> Result<usize, Failed>
        requires { 0 < length buf.old }
        ensures receives { IsReceipt (Some (self.old.sent, self.old.incoming))
            (Some (self.new.sent, self.new.incoming)) result buf.new }
        ensures pauses { let old : Option (List ℕ × ℕ) =
            Some (self.old.pauses, self.old.pause_room) in
            Some (self.new.pauses, self.new.pause_room) ≡ old }
        ensures cause { HasCause self.old.faults self.new.faults result }

        // It fails at the listed receipts and nowhere else.
        ensures fails { IsErr result ↔ Contains self.old.receive_fails self.old.receipts }
        ensures count { IfOk result (λ n. n ≡ receipt_count self.old buf.old) }
        ensures number { self.new.receipts ≡ counted_once_more self.old.receipts }

        // Each failure is counted, and nothing else is; sends are not numbered, and what it was
        // made for stays.
        ensures counted { MatchResult result (λ _. self.new.faults ≡ self.old.faults)
            (λ _. self.new.faults ≡ counted_once_more self.old.faults) }
        ensures sends { self.new.sends ≡ self.old.sends }
        ensures room { self.new.room ≡ self.old.room }
        ensures piece { self.new.piece ≡ self.old.piece }
        ensures send_fails { self.new.send_fails ≡ self.old.send_fails }
        ensures receive_fails { self.new.receive_fails ≡ self.old.receive_fails }
    {
        match self.incoming.read(buf) {
            Ok(count) => Ok(count),
            Err(Failed) => Err(self.failed()),
        }
    }

    fn pause<R: HostTime>(&mut self, _rt: &R, until: u64)
        ensures told { let old : Option (List ℕ × List ℕ) =
            Some (self.old.sent, self.old.incoming) in
            Some (self.new.sent, self.new.incoming) ≡ old }
        ensures pauses { KeepsPauses (Some (self.old.pauses, self.old.pause_room))
            (Some (self.new.pauses, self.new.pause_room)) (until ∷ []) }
        ensures faults { self.old.faults ≤ self.new.faults }

        // No time passes: the pause is kept where there is room, and nothing else changes.
        ensures same { self.new ≡ record self.old {
          pauses = self.new.pauses;
          pause_room = self.new.pause_room;
        } }
    {
        if self.pause_room > 0 {
            self.pause_room -= 1;

            // There is room, so this takes no memory.
            let _kept = self.pauses.push(until);
        }
    }
}
