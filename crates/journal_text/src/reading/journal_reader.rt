//! A reader of journals.
ghost use Rattle.std.specs.Prelude.{◌≡◌, ◌⊎◌, ◌+◌, ◌-◌, ◌<◌, ◌≤◌, ◌^◌, ◌++◌, ◌↔◌, ℕ, List, [], true, false, length, take, drop, Option, Some, None, IsTrue, IsFalse, OnOk, OnErr, IfSome, IfNone, IsSome, MatchOption};
ghost use Rattle.asp_base.specs.Limits.{most_piece};
ghost use Rattle.plain_words.specs.Words.{HasNo, SplitsAt};
ghost use Rattle.journal_text.specs.WritingText.{PlaceFits, EntryFits, head_words, entry_words, most_journal_line};
ghost use Rattle.journal_text.specs.ReadingText.{IsNoLine, Taken, IsJournalOf, StopsAt, JournalReading, most_journal_held, new_reader, reading_fed, reading_waiting, reading_broken, TakesLine, TakesEntry, HasRead, BeginsWith, BeginsWithEntry};
ghost use Rattle.journal_text.specs.ReadingAnswers.{IfHead, IfEntry, IfNotAJournal, taken_with};

use super::journal_line::{read_entry, read_head};
use crate::writing::MOST_JOURNAL_LINE;
use asp_base::NoMemory;
use held_lines::HeldLines;
use session_machine::{Entry, Profile};
use std::alloc::Global;
use std::marker::Model;

/// What a reader answers when it is asked for the next line.
#[derive(Debug, Drop)]
pub enum JournalNext {
    /// The first line, which was taken.
    Head {
        /// The profile of the journal.
        profile: Profile,
        /// The place of the first entry, below 2^63 - 1.
        place: u64,
    },
    /// The entry of the next line, which was taken.
    Entry(Entry),
    /// No line is whole; feed more bytes.
    More,
    /// The next line is none of its place; the reader is broken for good.
    NotAJournal {
        /// The offset of that line's first byte in the text.
        offset: u64,
    },
    /// There was no memory for the entry; nothing has changed.
    NoMemory,
}

/// A reader of a journal from the pieces of its text. It never holds more than 16,816,384 bytes.
#[derive(Debug, Drop)]
pub struct JournalReader {
    alloc: Global,
    lines: HeldLines,
    offset: u64,
    begun: Option<Profile>,
    is_broken: bool,
    may_feed: bool,
}

impl Model for JournalReader {
    ghost use Rattle.std.specs.Prelude.{◌≡◌, ◌+◌, ◌-◌, ◌<◌, ◌≤◌, ◌^◌, length, IsTrue, IsFalse};
    ghost use Rattle.plain_words.specs.Words.{HasNo};
    ghost use Rattle.journal_text.specs.WritingText.{most_journal_line};
    ghost use Rattle.journal_text.specs.ReadingText.{JournalReading, most_journal_held};

    ghost Value = { JournalReading };

    ghost view = { λ r. record {
      held = r.lines;
      offset = r.offset;
      begun = r.begun;
      is_broken = r.is_broken;
      may_feed = r.may_feed;
    } };

    ghost invariant = { λ r. (length r.lines ≤ most_journal_held) × (r.offset + length r.lines < 2 ^ 63 - 1)
        × (IsTrue r.may_feed → (length r.lines ≤ most_journal_line) × HasNo 10 r.lines) };
}

impl JournalReader {
    /// A reader that was fed nothing. It takes no memory.
    pub fn new(alloc: Global) -> JournalReader
        ensures is_new { result ≡ new_reader }
        ensures reads { HasRead [] None result }
    {
        JournalReader {
            alloc,
            lines: HeldLines::new(alloc),
            offset: 0,
            begun: None,
            is_broken: false,
            may_feed: true,
        }
    }

    /// Adds a piece of at most 16,384 bytes to those held; a broken reader keeps nothing. The
    /// caller has heard `More` or `NotAJournal` since the last piece. After `NoMemory` nothing has
    /// changed.
    pub fn feed(&mut self, piece: &[u8]) -> Result<(), NoMemory>
        requires piece { length piece.now ≤ most_piece }
        requires may_feed { IsTrue self.old.may_feed }
        requires text_fits { self.old.offset + length self.old.held + length piece.now
            < 2 ^ 63 - 1 }
        ensures ok { OnOk result (self.new ≡ reading_fed self.old piece.now) }
        ensures err { OnErr result (self.new ≡ self.old) }
        ensures bound { length self.new.held ≤ most_journal_held }
        ensures reads { OnOk result ((text : List ℕ) (taken : Taken) → HasRead text taken self.old
            → HasRead (text ++ piece.now) taken self.new) }
    {
        self.add(piece)
    }

    fn add(&mut self, piece: &[u8]) -> Result<(), NoMemory>
        requires piece { length piece.now ≤ most_piece }
        requires may_feed { IsTrue self.old.may_feed }
        requires text_fits { self.old.offset + length self.old.held + length piece.now
            < 2 ^ 63 - 1 }
        ensures ok { OnOk result (self.new ≡ reading_fed self.old piece.now) }
        ensures err { OnErr result (self.new ≡ self.old) }
        ensures bound { length self.new.held ≤ most_journal_held }
    {
        if self.is_broken {
            self.lines.clear();
        } else {
            self.lines.feed(piece)?;
        }
        self.may_feed = false;
        Ok(())
    }

    fn take(&mut self, len: usize, profile: Profile)
        requires { len < length self.old.held }
        ensures { self.new ≡ record {
          held = drop (len + 1) self.old.held;
          offset =
              self.old.offset + (len + 1);
          begun = Some profile;
          is_broken = self.old.is_broken;
          may_feed =
              false;
        } }
    {
        self.lines.take_line(len);
        self.offset += len as u64 + 1;
        self.begun = Some(profile);
        self.may_feed = false;
    }

    fn break_off(&mut self) -> JournalNext
        ensures answer { result ≡ JournalNext.NotAJournal self.old.offset }
        ensures broken { self.new ≡ reading_broken self.old }
    {
        self.lines.clear();
        self.is_broken = true;
        self.may_feed = true;
        JournalNext::NotAJournal {
            offset: self.offset,
        }
    }

    /// The first line of the bytes held, which is taken.
    pub fn next(&mut self) -> JournalNext
        // The line with the profile and the place, where nothing was taken before.
        ensures head { IfHead result (λ profile place. PlaceFits place × (self.old.begun ≡ None)
            × TakesLine profile (head_words profile place) self.old self.new) }

        // The line of an entry, behind that.
        ensures entry { IfEntry result (λ e. TakesEntry e self.old self.new) }

        // No line is whole, and there is room for more bytes.
        ensures more { result ≡ JournalNext.More → self.new ≡ reading_waiting self.old }
        ensures none_whole { result ≡ JournalNext.More
            → IsFalse self.old.is_broken × HasNo 10 self.old.held
            × (length self.old.held ≤ most_journal_line) }

        // The first line is none of its place, whatever follows, and the reader stays broken.
        ensures offset { IfNotAJournal result (λ offset. offset ≡ self.old.offset) }
        ensures broken { IfNotAJournal result (λ _. self.new ≡ reading_broken self.old) }
        ensures no_line { IfNotAJournal result
            (λ _. IsTrue self.old.is_broken ⊎ IsNoLine self.old.begun self.old.held) }
        ensures stays { IsTrue self.old.is_broken
            → result ≡ JournalNext.NotAJournal self.old.offset }

        ensures no_memory { result ≡ JournalNext.NoMemory → self.new ≡ self.old }

        // There is memory for a first line.
        ensures no_memory_begun { result ≡ JournalNext.NoMemory → IsSome self.old.begun }

        ensures bound { length self.new.held ≤ most_journal_held }

        // It takes bytes, and adds none.
        ensures counted { self.new.offset + length self.new.held ≤ self.old.offset
            + length self.old.held }

        // What was taken of a text grows by the answer, and where it stops, the text is no journal.
        ensures reads { (text : List ℕ) (taken : Taken) → HasRead text taken self.old
            → HasRead text (taken_with result taken) self.new }
        ensures stops { IfNotAJournal result (λ offset. (text : List ℕ) (taken : Taken)
            → HasRead text taken self.old → StopsAt text offset) }
    {
        if self.is_broken {
            return self.break_off();
        }
        let Some(len) = self.lines.first_line() else {
            if self.lines.as_slice().len() > MOST_JOURNAL_LINE {
                return self.break_off();
            }
            self.may_feed = true;
            return JournalNext::More;
        };
        let words = &self.lines.as_slice()[..len];
        match self.begun {
            Some(profile) => match read_entry(self.alloc, profile, words) {
                Ok(Some(entry)) => {
                    self.take(len, profile);
                    JournalNext::Entry(entry)
                }
                Ok(None) => self.break_off(),
                Err(NoMemory) => JournalNext::NoMemory,
            },
            None => match read_head(words) {
                Some((profile, place)) => {
                    self.take(len, profile);
                    JournalNext::Head { profile, place }
                }
                None => self.break_off(),
            },
        }
    }

    /// As `next`, but no line is taken: `pass` takes that of an entry. So what is done with an entry
    /// can be given up for want of memory, and the line is read again.
    pub fn look(&mut self) -> JournalNext
        ensures head { IfHead result (λ profile place. PlaceFits place × (self.old.begun ≡ None)
            × BeginsWith (head_words profile place) self.old × (self.new ≡ self.old)) }
        ensures entry { IfEntry result (λ e. BeginsWithEntry e self.old × (self.new ≡ self.old)) }
        ensures more { result ≡ JournalNext.More → self.new ≡ reading_waiting self.old }
        ensures none_whole { result ≡ JournalNext.More
            → IsFalse self.old.is_broken × HasNo 10 self.old.held
            × (length self.old.held ≤ most_journal_line) }
        ensures offset { IfNotAJournal result (λ offset. offset ≡ self.old.offset) }
        ensures broken { IfNotAJournal result (λ _. self.new ≡ reading_broken self.old) }
        ensures no_line { IfNotAJournal result
            (λ _. IsTrue self.old.is_broken ⊎ IsNoLine self.old.begun self.old.held) }
        ensures stays { IsTrue self.old.is_broken
            → result ≡ JournalNext.NotAJournal self.old.offset }
        ensures no_memory { result ≡ JournalNext.NoMemory → self.new ≡ self.old }

        // There is memory for a first line.
        ensures no_memory_begun { result ≡ JournalNext.NoMemory → IsSome self.old.begun }

        // Nothing more of a text was taken, and where it stops, the text is no journal.
        ensures reads { (text : List ℕ) (taken : Taken) → HasRead text taken self.old
            → HasRead text taken self.new }
        ensures stops { IfNotAJournal result (λ offset. (text : List ℕ) (taken : Taken)
            → HasRead text taken self.old → StopsAt text offset) }
    {
        if self.is_broken {
            return self.break_off();
        }
        let Some(len) = self.lines.first_line() else {
            if self.lines.as_slice().len() > MOST_JOURNAL_LINE {
                return self.break_off();
            }
            self.may_feed = true;
            return JournalNext::More;
        };
        let words = &self.lines.as_slice()[..len];
        match self.begun {
            Some(profile) => match read_entry(self.alloc, profile, words) {
                Ok(Some(entry)) => JournalNext::Entry(entry),
                Ok(None) => self.break_off(),
                Err(NoMemory) => JournalNext::NoMemory,
            },
            None => match read_head(words) {
                Some((profile, place)) => JournalNext::Head { profile, place },
                None => self.break_off(),
            },
        }
    }

    /// Takes the line of an entry, where `look` found one at the front of the bytes held.
    pub fn pass(&mut self)
        requires entry { (e : Entry) × BeginsWithEntry e self.old }
        ensures takes { (e : Entry) → BeginsWithEntry e self.old → TakesEntry e self.old self.new }
        ensures may_not_feed { IsFalse self.new.may_feed }
        ensures reads { (e : Entry) → BeginsWithEntry e self.old → (text : List ℕ) (taken : Taken)
            → HasRead text taken self.old
            → HasRead text (taken_with (JournalNext.Entry e) taken) self.new }
    {
        if let Some(profile) = self.begun {
            if let Some(len) = self.lines.first_line() {
                self.take(len, profile);
            }
        }
    }

    /// The profile of the first line, which says how the lines behind it are spelled; `None` until
    /// that line was taken.
    pub fn profile(&self) -> Option<Profile>
        ensures { result ≡ self.now.begun }
    {
        self.begun
    }

    /// Where a text that ends here is no journal: `None` exactly where it is one. Else the offset
    /// of the line at which the reader is broken, or of a last line without its line feed, or 0 for
    /// the empty text. The caller has heard `More` or `NotAJournal` since the last piece.
    pub fn finish(&self) -> Option<u64>
        requires { IsTrue self.now.may_feed }
        ensures whole { result ≡ None ↔ (IsFalse self.now.is_broken × IsSome self.now.begun
            × (self.now.held ≡ [])) }
        ensures offset { IfSome result (λ offset. offset ≡ self.now.offset) }
        ensures journal { IfNone result ((text : List ℕ) (taken : Taken)
            → HasRead text taken self.now → IsJournalOf text taken) }
        ensures stops { IfSome result (λ offset. (text : List ℕ) (taken : Taken)
            → HasRead text taken self.now → StopsAt text offset) }
    {
        if !self.is_broken && self.begun.is_some() && self.lines.as_slice().is_empty() {
            return None;
        }
        Some(self.offset)
    }
}
