//! A sink that gathers what it takes, and hands it on in few calls.
ghost use Rattle.std.specs.Prelude.{◌≡◌, ◌-◌, ◌<◌, ◌≤◌, ◌++◌, [], length, min, take, IfOk, OnOk};
ghost use Rattle.asp_base.specs.Causes.{HasCause};
ghost use Rattle.asp_base.specs.Outside.{Writes};
ghost use Rattle.journal_files.specs.Gathering.{taken_with};

use asp_base::{Failed, NoMemory, Sink};
use std::alloc::Global;
use std::marker::Model;
use std::rt::Clock as HostTime;
use std::time::{Duration, Instant};

/// How many bytes are gathered at most, and then handed on in one call.
pub const GATHERED: usize = 16_384;

/// How long after it handed on last what is taken is handed on at once, in milliseconds.
const PAUSE: u64 = 100;

/// A sink before another one, which gathers up to 16,384 bytes and hands them on in one call. What
/// it takes a tenth of a second or more after it handed on last it hands on at once, with what
/// waits.
///
/// Contracts see the sink behind it, and the bytes that wait.
#[derive(Drop)]
pub struct GatheringSink<'a, T, R> {
    inner: T,
    clock: &'a R,
    waiting: Vec<u8>,
    handed_on: Option<Instant>,
}

impl<'a, T, R> Model for GatheringSink<'a, T, R> {
    ghost use Rattle.std.specs.Prelude.{◌≤◌, vec_len, vec_capacity};
    ghost use Rattle.journal_files.specs.Gathering.{Gathering};

    ghost Value = { Gathering T };

    ghost view = { λ s. record { inner = s.inner; waiting = s.waiting.items } };

    ghost invariant = { λ s. (vec_len s.waiting ≤ 16384) × (16384 ≤ vec_capacity s.waiting) };
}

impl<'a, T: Sink, R: HostTime> GatheringSink<'a, T, R> {
    /// A sink before `inner` that has gathered nothing. All memory is taken here; where it is
    /// wanting `inner` is dropped.
    pub fn new(alloc: Global, inner: T, clock: &'a R) -> Result<GatheringSink<'a, T, R>, NoMemory>
    where
        T: Drop,
        ensures inner { IfOk result (λ s. s.inner ≡ inner) }
        ensures waiting { IfOk result (λ s. s.waiting ≡ []) }
    {
        let waiting = Vec::with_capacity(alloc, GATHERED)?;
        Ok(GatheringSink {
            inner,
            clock,
            waiting,
            handed_on: None,
        })
    }

    /// Hands on what waits, in one call of the sink behind if that takes it all. After `Failed`
    /// what was not taken waits still.
    pub fn hand_on(&mut self) -> Result<(), Failed>
        ensures taken { taken_with (T.taken self.new.inner) self.new.waiting
            ≡ taken_with (T.taken self.old.inner) self.old.waiting }
        ensures nothing_waits { OnOk result (self.new.waiting ≡ []) }
        ensures cause { HasCause (T.faults self.old.inner) (T.faults self.new.inner) result }
    {
        while !self.waiting.is_empty() {
            self.hand_on_some()?;
        }
        self.handed_on = Instant::now(self.clock).ok();
        Ok(())
    }

    /// Hands on what waits in one call, which may take only a front of it.
    fn hand_on_some(&mut self) -> Result<(), Failed>
        requires some { 0 < length self.old.waiting }
        ensures taken { taken_with (T.taken self.new.inner) self.new.waiting
            ≡ taken_with (T.taken self.old.inner) self.old.waiting }
        ensures fewer { OnOk result (length self.new.waiting < length self.old.waiting) }
        ensures cause { HasCause (T.faults self.old.inner) (T.faults self.new.inner) result }
    {
        let count = self.inner.write(self.waiting.as_slice())?;
        let left = self.waiting.len() - count;
        self.waiting.rotate_left(count);
        self.waiting.truncate(left);
        Ok(())
    }

    /// Hands on what waits where there is no room for more.
    fn make_room(&mut self) -> Result<(), Failed>
        ensures taken { taken_with (T.taken self.new.inner) self.new.waiting
            ≡ taken_with (T.taken self.old.inner) self.old.waiting }
        ensures room { OnOk result (length self.new.waiting < 16384) }
        ensures cause { HasCause (T.faults self.old.inner) (T.faults self.new.inner) result }
    {
        if self.waiting.len() < GATHERED {
            return Ok(());
        }
        self.hand_on()
    }

    /// Gathers a front of the piece, as much as there is room for.
    fn gather(&mut self, piece: &[u8]) -> usize
        requires room { length self.old.waiting < 16384 }
        ensures count { result ≡ min (16384 - length self.old.waiting) (length piece.now) }
        ensures waiting { self.new.waiting ≡ self.old.waiting ++ take result piece.now }
        ensures inner { self.new.inner ≡ self.old.inner }
    {
        let room = GATHERED - self.waiting.len();
        let count = room.min(piece.len());
        match self.waiting.extend_from_slice(&piece[..count]) {
            Ok(()) => count,
            Err(_) => unreachable!(),
        }
    }

    /// Whether what is taken now is handed on at once: also where the clock can't be read.
    fn is_due(&self) -> bool {
        match (self.handed_on, Instant::now(self.clock)) {
            (Some(before), Ok(now)) => {
                now.duration_since(before) >= Duration::from_millis(PAUSE)
            }
            _ => true,
        }
    }

    /// The sink behind it. What waits is dropped.
    pub fn into_inner(self) -> T
        ensures { result ≡ self.entry.inner }
    {
        self.inner
    }
}

impl<'a, T: Sink, R: HostTime> Sink for GatheringSink<'a, T, R> {
    ghost taken = { λ s. taken_with (T.taken s.inner) s.waiting };

    ghost faults = { λ s. T.faults s.inner };

    /// Where what was taken can't be handed on at once it waits, and nothing is said before there
    /// is no room for more.
    fn write(&mut self, piece: &[u8]) -> Result<usize, Failed> {
        self.make_room()?;
        let count = self.gather(piece);
        if self.is_due() {
            let _ = self.hand_on();
        }
        Ok(count)
    }
}
