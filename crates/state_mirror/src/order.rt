//! Entries that are handed in in any order, and written in the order of their places.
ghost use Rattle.std.specs.Prelude.{◌≡◌, ◌≢◌, ◌↔◌, ◌+◌, ◌-◌, ◌<◌, ◌≤◌, ◌^◌, ◌++◌, ◌∷◌, [], ℕ, List, Option, None, Some, length, MatchResult, OnOk, OnErr, IfErr, IfOk, IsSome, IfSome, IfNone, IsTrue, IsFalse, ◌⊎◌};
ghost use Rattle.asp_base.specs.Causes.{Rose};
ghost use Rattle.asp_base.specs.Outside.{Takes, TakesFront};
ghost use Rattle.session_machine.specs.declared.entry.Entry.{Entry as AnEntry};
ghost use Rattle.session_machine.specs.History.{IsFormed};
ghost use Rattle.session_machine.specs.Profiles.{newest};
ghost use Rattle.journal_text.specs.WritingText.{EntryFits, entry_line, head_line};
ghost use Rattle.state_mirror.specs.Ordering.{HasFailedWriting, IsFresh, IsRefused, answer_of, HasOrdered, IfKnown, IsWriting, entry_for, handed_with, part_text, place_end};

use crate::SpelledEntry;
use asp_base::{Failed, NoMemory, Sink, write_whole};
use asp_messages::push;
use journal_text::{entry_fits, write_head};
use session_machine::{Entry, Profile};
use std::alloc::Global;
use std::collections::BTreeMap;
use std::marker::Model;

/// What stopped an order.
#[derive(Clone, Copy, Debug, PartialEq, Eq)]
pub enum Stop {
    /// The sink failed.
    Sink,
    /// There was no memory.
    NoMemory,
}

/// What came of an entry that was handed in.
#[derive(Clone, Copy, Debug, PartialEq, Eq)]
pub enum Handed {
    /// It was written, or waits for those before it.
    Taken,
    /// An entry was handed in for this place before; nothing changed.
    Known {
        /// The place.
        place: u64,
    },
    /// The order was stopped before; nothing changed.
    Stopped,
    /// The sink failed, and the order is stopped.
    SinkFault,
    /// There was no memory, and the order is stopped.
    NoMemory,
}

/// A journal on a sink, whose entries are handed in in any order of their places and written as
/// soon as none before them is missing.
#[derive(Debug, Drop)]
pub struct Order<T> {
    alloc: Global,
    first_place: u64,
    next: u64,
    waiting: BTreeMap<u64, SpelledEntry>,
    stop: Option<Stop>,
    sink: T,
}

impl<T> Model for Order<T> {
    ghost use Rattle.std.specs.Prelude.{◌-◌, ◌≤◌, ◌^◌};
    ghost use Rattle.state_mirror.specs.Ordering.{OrderState, WaitersFit, place_end};

    ghost Value = { OrderState T };

    ghost view = { λ o. record {
      first = o.first_place;
      next = o.next;
      waiting = o.waiting.entries;
      stop = o.stop;
      sink = o.sink;
    } };

    ghost invariant = { λ o. WaitersFit o.waiting.entries };
}

/// Writes a text whole.
fn write_text<T: Sink>(sink: &mut T, text: &[u8]) -> Result<(), Stop>
    ensures ok { OnOk result (Takes (T.taken sink.old) (T.taken sink.new) text.now) }
    ensures err { OnErr result (TakesFront (T.taken sink.old) (T.taken sink.new) text.now) }
    ensures cause { IfErr result
        (λ stop. stop ≡ Stop.Sink → Rose (T.faults sink.old) (T.faults sink.new)) }
    ensures later { T.faults sink.old ≤ T.faults sink.new }
{
    match write_whole(sink, text) {
        Ok(()) => Ok(()),
        Err(Failed) => Err(Stop::Sink),
    }
}

/// The text of the first entry, which has the first line of a journal before it.
fn first_part(alloc: Global, first: u64, entry: &SpelledEntry) -> Result<Vec<u8>, NoMemory>
    requires place { first < place_end }
    ensures { IfOk result (λ text. text.items
        ≡ head_line newest first ++ entry_line newest entry.now) }
{
    let mut text = Vec::with_capacity(alloc, entry.line().len().saturating_add(64))?;
    write_head(&mut text, Profile::Three, first)?;
    push(&mut text, entry.line())?;
    Ok(text)
}

/// Writes the text of one entry.
fn write_part<T: Sink>(
    alloc: Global,
    sink: &mut T,
    first: u64,
    place: u64,
    entry: &SpelledEntry,
) -> Result<(), Stop>
    requires place { (first ≤ place) × (place < place_end) }
    ensures ok { OnOk result (Takes (T.taken sink.old) (T.taken sink.new)
        (part_text first place entry.now)) }
    ensures err { OnErr result (TakesFront (T.taken sink.old) (T.taken sink.new)
        (part_text first place entry.now)) }
    ensures cause { IfErr result
        (λ stop. stop ≡ Stop.Sink → Rose (T.faults sink.old) (T.faults sink.new)) }
    ensures later { T.faults sink.old ≤ T.faults sink.new }
{
    if place != first {
        return write_text(sink, entry.line());
    }
    match first_part(alloc, first, entry) {
        Ok(text) => write_text(sink, text.as_slice()),
        Err(NoMemory) => Err(Stop::NoMemory),
    }
}

/// Lets an entry go. It stands apart so that what calls it has one way through.
fn let_go<E: Drop>(entry: E) {
    let _entry = entry;
}

impl Stop {
    /// The answer of the call that was stopped so.
    fn answer(self) -> Handed
        ensures { result ≡ answer_of self }
    {
        match self {
            Stop::Sink => Handed::SinkFault,
            Stop::NoMemory => Handed::NoMemory,
        }
    }
}

impl<T: Sink> Order<T> {
    /// An order that begins with this place, on a sink that has taken nothing. It takes no memory.
    pub fn new(alloc: Global, sink: T, first_place: u64) -> Order<T>
        ensures ordered { HasOrdered T.taken (T.taken sink) [] result }
        ensures goes_on { result.stop ≡ None }
        ensures first { result.first ≡ first_place }
        ensures sink { result.sink ≡ sink }
    {
        Order {
            alloc,
            first_place,
            next: first_place,
            waiting: BTreeMap::new(alloc),
            stop: None,
            sink,
        }
    }

    /// Whether an entry was handed in for the place.
    fn knows(&self, place: u64) -> bool
        ensures yes { IsTrue result
            → (place < self.now.next) ⊎ IsSome (entry_for self.now.waiting place) }
        ensures no { IsFalse result
            → (self.now.next ≤ place) × (entry_for self.now.waiting place ≡ None) }
    {
        place < self.next || self.waiting.contains_key(&place)
    }

    /// Takes out the entry that waits for the next place.
    fn take_next(&mut self) -> Option<SpelledEntry>
        ensures found { result ≡ entry_for self.old.waiting self.old.next }
        ensures fits { IfSome result (λ e. (self.old.next < place_end) × EntryFits newest e) }
        ensures later { (place : ℕ) → self.old.next < place
            → entry_for self.new.waiting place ≡ entry_for self.old.waiting place }
        ensures fewer { IfSome result
            (λ _. length self.new.waiting < length self.old.waiting) }
        ensures none { IfNone result (self.new ≡ self.old) }
        ensures same { self.new ≡ record self.old { waiting = self.new.waiting } }
    {
        let next = self.next;
        self.waiting.remove(&next)
    }

    /// Writes the entry of the next place.
    fn write_next(&mut self, entry: &SpelledEntry) -> Result<(), Stop>
        requires place { (self.old.first ≤ self.old.next) × (self.old.next < place_end) }
        ensures ok { OnOk result (Takes (T.taken self.old.sink) (T.taken self.new.sink)
            (part_text self.old.first self.old.next entry.now)) }
        ensures err { OnErr result (TakesFront (T.taken self.old.sink) (T.taken self.new.sink)
            (part_text self.old.first self.old.next entry.now)) }
        ensures next { OnOk result (self.new.next ≡ self.old.next + 1) }
        ensures same { (self.new.first ≡ self.old.first)
            × (self.new.waiting ≡ self.old.waiting) × (self.new.stop ≡ self.old.stop) }
        ensures cause { IfErr result (λ stop. stop ≡ Stop.Sink
            → Rose (T.faults self.old.sink) (T.faults self.new.sink)) }
        ensures later { T.faults self.old.sink ≤ T.faults self.new.sink }
    {
        write_part(
            self.alloc,
            &mut self.sink,
            self.first_place,
            self.next,
            entry,
        )?;
        self.next += 1;
        Ok(())
    }

    /// The same of an entry that is dropped then. It stands apart so that the calls above have one
    /// way through.
    fn write_owned(&mut self, entry: SpelledEntry) -> Result<(), Stop>
        requires place { (self.old.first ≤ self.old.next) × (self.old.next < place_end) }
        ensures ok { OnOk result (Takes (T.taken self.old.sink) (T.taken self.new.sink)
            (part_text self.old.first self.old.next entry)) }
        ensures err { OnErr result (TakesFront (T.taken self.old.sink) (T.taken self.new.sink)
            (part_text self.old.first self.old.next entry)) }
        ensures next { OnOk result (self.new.next ≡ self.old.next + 1) }
        ensures same { (self.new.first ≡ self.old.first)
            × (self.new.waiting ≡ self.old.waiting) × (self.new.stop ≡ self.old.stop) }
        ensures cause { IfErr result (λ stop. stop ≡ Stop.Sink
            → Rose (T.faults self.old.sink) (T.faults self.new.sink)) }
        ensures later { T.faults self.old.sink ≤ T.faults self.new.sink }
    {
        self.write_next(&entry)
    }

    /// Whether the place is behind the next one.
    fn is_later(&self, place: u64) -> bool
        ensures yes { IsTrue result → self.now.next < place }
        ensures no { IsFalse result → place ≤ self.now.next }
    {
        place > self.next
    }

    /// Writes the entries that wait for the next places, as far as none is missing.
    fn drain(&mut self) -> Result<(), Stop>
        requires goes_on { self.old.stop ≡ None }
        requires place { self.old.first ≤ self.old.next }
        ensures drained { (sink : Option (List ℕ)) (handed : List (ℕ × AnEntry))
            → IsWriting T.taken sink handed self.old
            → MatchResult result (λ _. HasOrdered T.taken sink handed self.new)
            (λ _. HasFailedWriting T.taken sink handed self.new) }
        ensures stop { self.new.stop ≡ None }
        ensures first { self.new.first ≡ self.old.first }
        ensures cause { IfErr result (λ stop. stop ≡ Stop.Sink
            → Rose (T.faults self.old.sink) (T.faults self.new.sink)) }
    {
        'places: while let Some(entry) = self.take_next() {
            match self.write_owned(entry) {
                Ok(()) => {}
                Err(stop) => return Err(stop),
            }
        }
        Ok(())
    }

    /// Keeps an entry for later.
    fn keep(&mut self, place: u64, entry: SpelledEntry) -> Result<(), Stop>
        requires place { place < place_end }
        requires absent { entry_for self.old.waiting place ≡ None }
        ensures kept { OnOk result (entry_for self.new.waiting place ≡ Some entry) }
        ensures others { (other : ℕ) → other ≢ place
            → entry_for self.new.waiting other ≡ entry_for self.old.waiting other }
        ensures same { self.new ≡ record self.old { waiting = self.new.waiting } }
        ensures cause { IfErr result (λ stop. stop ≡ Stop.NoMemory) }
    {
        match self.waiting.insert(place, entry) {
            Ok(_) => Ok(()),
            Err(_) => Err(Stop::NoMemory),
        }
    }

    /// Takes an entry for a place for which none was handed in.
    fn admit(&mut self, place: u64, entry: SpelledEntry) -> Result<(), Stop>
        requires goes_on { self.old.stop ≡ None }
        requires entry { EntryFits newest entry }
        requires place { (self.old.first ≤ place) × (place < place_end) }
        requires new { (self.old.next ≤ place) × (entry_for self.old.waiting place ≡ None) }
        ensures admitted { (sink : Option (List ℕ)) (handed : List (ℕ × AnEntry))
            → HasOrdered T.taken sink handed self.old
            → MatchResult result
            (λ _. HasOrdered T.taken sink (handed ++ (place, entry) ∷ []) self.new)
            (λ _. HasFailedWriting T.taken sink (handed ++ (place, entry) ∷ []) self.new) }
        ensures stop { self.new.stop ≡ None }
        ensures first { self.new.first ≡ self.old.first }
        ensures cause { IfErr result (λ stop. stop ≡ Stop.Sink
            → Rose (T.faults self.old.sink) (T.faults self.new.sink)) }
    {
        if self.is_later(place) {
            return self.keep(place, entry);
        }
        match self.write_owned(entry) {
            Ok(()) => self.drain(),
            Err(stop) => Err(stop),
        }
    }

    /// Takes an entry for its place, which is from the first on and below 2^63 - 1. It is written
    /// with those behind it that wait, if none before it is missing, and else waits.
    ///
    /// `Known` is answered exactly where an entry was handed in for the place before and the order
    /// is not stopped; `SinkFault` only where the sink's count of failures rose. After `SinkFault`
    /// and `NoMemory` the order is stopped, and exactly then every later call answers `Stopped`.
    pub fn hand(&mut self, place: u64, entry: Entry) -> Handed
        requires entry { IsFormed entry }
        requires place { (self.old.first ≤ place) × (place < place_end) }

        // The order stands for what was handed in.
        ensures handed { (sink : Option (List ℕ)) (handed : List (ℕ × AnEntry))
            → HasOrdered T.taken sink handed self.old
            → HasOrdered T.taken sink (handed_with result place entry handed) self.new }

        ensures known { (sink : Option (List ℕ)) (handed : List (ℕ × AnEntry))
            → HasOrdered T.taken sink handed self.old → self.old.stop ≡ None
            → (result ≡ Handed.Known place) ↔ IsSome (entry_for handed place) }
        ensures known_place { IfKnown result (λ known. (known ≡ place) × (self.old.stop ≡ None)
            × (self.new ≡ self.old)) }
        ensures stopped { (result ≡ Handed.Stopped) ↔ IsSome self.old.stop }
        ensures stays { result ≡ Handed.Stopped → self.new ≡ self.old }
        ensures taken { result ≡ Handed.Taken → self.new.stop ≡ None }
        ensures sink_fault { result ≡ Handed.SinkFault → (self.new.stop ≡ Some Stop.Sink)
            × Rose (T.faults self.old.sink) (T.faults self.new.sink) }
        ensures no_memory { result ≡ Handed.NoMemory → self.new.stop ≡ Some Stop.NoMemory }
        ensures first { self.new.first ≡ self.old.first }
    {
        match self.refusal(place) {
            Some(answer) => {
                let_go(entry);
                answer
            }
            None => self.take(place, entry),
        }
    }

    /// The same as `hand`, for an entry whose line is spelled.
    pub fn hand_spelled(&mut self, place: u64, entry: SpelledEntry) -> Handed
        requires place { (self.old.first ≤ place) × (place < place_end) }

        // The order stands for what was handed in.
        ensures handed { (sink : Option (List ℕ)) (handed : List (ℕ × AnEntry))
            → HasOrdered T.taken sink handed self.old
            → HasOrdered T.taken sink (handed_with result place entry handed) self.new }

        ensures known { (sink : Option (List ℕ)) (handed : List (ℕ × AnEntry))
            → HasOrdered T.taken sink handed self.old → self.old.stop ≡ None
            → (result ≡ Handed.Known place) ↔ IsSome (entry_for handed place) }
        ensures known_place { IfKnown result (λ known. (known ≡ place) × (self.old.stop ≡ None)
            × (self.new ≡ self.old)) }
        ensures stopped { (result ≡ Handed.Stopped) ↔ IsSome self.old.stop }
        ensures stays { result ≡ Handed.Stopped → self.new ≡ self.old }
        ensures taken { result ≡ Handed.Taken → self.new.stop ≡ None }
        ensures sink_fault { result ≡ Handed.SinkFault → (self.new.stop ≡ Some Stop.Sink)
            × Rose (T.faults self.old.sink) (T.faults self.new.sink) }
        ensures no_memory { result ≡ Handed.NoMemory → self.new.stop ≡ Some Stop.NoMemory }
        ensures first { self.new.first ≡ self.old.first }
    {
        match self.refusal(place) {
            Some(answer) => {
                let_go(entry);
                answer
            }
            None => self.take_spelled(place, entry),
        }
    }

    /// The answer where no entry is taken for the place: the order is stopped, or it is known.
    fn refusal(&self, place: u64) -> Option<Handed>
        ensures some { IfSome result (IsRefused self.now place) }
        ensures none { IfNone result ((self.now.stop ≡ None) × (self.now.next ≤ place)
            × (entry_for self.now.waiting place ≡ None)) }
    {
        if let Some(_) = self.stopped() {
            return Some(Handed::Stopped);
        }
        if self.knows(place) {
            return Some(Handed::Known { place });
        }
        None
    }

    /// Takes an entry for a place for which none was handed in, and answers.
    fn take(&mut self, place: u64, entry: Entry) -> Handed
        requires goes_on { self.old.stop ≡ None }
        requires entry { IsFormed entry }
        requires place { (self.old.first ≤ place) × (place < place_end) }
        requires new { (self.old.next ≤ place) × (entry_for self.old.waiting place ≡ None) }
        ensures handed { (sink : Option (List ℕ)) (handed : List (ℕ × AnEntry))
            → HasOrdered T.taken sink handed self.old
            → HasOrdered T.taken sink (handed_with result place entry handed) self.new }
        ensures fresh { IsFresh result }
        ensures taken { result ≡ Handed.Taken → self.new.stop ≡ None }
        ensures sink_fault { result ≡ Handed.SinkFault → (self.new.stop ≡ Some Stop.Sink)
            × Rose (T.faults self.old.sink) (T.faults self.new.sink) }
        ensures no_memory { result ≡ Handed.NoMemory → self.new.stop ≡ Some Stop.NoMemory }
        ensures first { self.new.first ≡ self.old.first }
    {
        match SpelledEntry::new(self.alloc, entry) {
            Ok(entry) => self.take_spelled(place, entry),
            Err(entry) => self.leave_unspelled(place, entry),
        }
    }

    /// The same for an entry whose line is spelled.
    fn take_spelled(&mut self, place: u64, entry: SpelledEntry) -> Handed
        requires goes_on { self.old.stop ≡ None }
        requires place { (self.old.first ≤ place) × (place < place_end) }
        requires new { (self.old.next ≤ place) × (entry_for self.old.waiting place ≡ None) }
        ensures handed { (sink : Option (List ℕ)) (handed : List (ℕ × AnEntry))
            → HasOrdered T.taken sink handed self.old
            → HasOrdered T.taken sink (handed_with result place entry handed) self.new }
        ensures fresh { IsFresh result }
        ensures taken { result ≡ Handed.Taken → self.new.stop ≡ None }
        ensures sink_fault { result ≡ Handed.SinkFault → (self.new.stop ≡ Some Stop.Sink)
            × Rose (T.faults self.old.sink) (T.faults self.new.sink) }
        ensures no_memory { result ≡ Handed.NoMemory → self.new.stop ≡ Some Stop.NoMemory }
        ensures first { self.new.first ≡ self.old.first }
    {
        entry.fits();
        match self.admit(place, entry) {
            Ok(()) => Handed::Taken,
            Err(stop) => self.halt(stop),
        }
    }

    /// Stops the order, since there is no memory for the line of an entry.
    fn leave_unspelled(&mut self, place: u64, entry: Entry) -> Handed
        requires goes_on { self.old.stop ≡ None }
        requires entry { IsFormed entry }
        requires place { (self.old.first ≤ place) × (place < place_end) }
        requires new { (self.old.next ≤ place) × (entry_for self.old.waiting place ≡ None) }
        ensures handed { (sink : Option (List ℕ)) (handed : List (ℕ × AnEntry))
            → HasOrdered T.taken sink handed self.old
            → HasOrdered T.taken sink (handed_with result place entry handed) self.new }
        ensures answer { result ≡ Handed.NoMemory }
        ensures stop { self.new.stop ≡ Some Stop.NoMemory }
        ensures first { self.new.first ≡ self.old.first }
    {
        entry_fits(Profile::Three, &entry);
        self.halt(Stop::NoMemory)
    }

    /// Stops the order, and answers what stopped it.
    fn halt(&mut self, stop: Stop) -> Handed
        ensures halts { self.new ≡ record self.old { stop = Some stop } }
        ensures answer { result ≡ answer_of stop }
    {
        self.stop = Some(stop);
        stop.answer()
    }

    /// What stopped the order; `None` exactly where it goes on.
    pub fn stopped(&self) -> Option<Stop>
        ensures { result ≡ self.now.stop }
    {
        self.stop
    }

    /// The sink.
    pub fn into_sink(self) -> T
        ensures { result ≡ self.sink }
    {
        self.sink
    }
}
