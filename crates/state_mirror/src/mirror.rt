//! A journal that is read in pieces, and the items behind it.
ghost use Rattle.std.specs.Prelude.{◌≡◌, ◌+◌, ◌-◌, ◌<◌, ◌≤◌, ◌^◌, ◌++◌, ◌∷◌, [], ℕ, List, None, Some, length, OnOk, OnErr, IfOk, IfSome, IfNone, IsTrue, IsFalse, true, option_copied};
ghost use Rattle.asp_base.specs.Limits.{most_piece};
ghost use Rattle.plain_words.specs.Words.{HasNo};
ghost use Rattle.session_machine.specs.declared.entry.Entry.{Entry as AnEntry};
ghost use Rattle.journal_text.specs.JudgingChecker.{HasTaken};
ghost use Rattle.journal_text.specs.JudgingObjections.{ObjectsTo};
ghost use Rattle.journal_text.specs.WritingText.{PlaceFits, most_journal_line};
ghost use Rattle.journal_text.specs.ReadingAnswers.{taken_with};
ghost use Rattle.journal_text.specs.ReadingText.{BeginsWithEntry, HasRead, StopsAt, Taken, new_reader, reading_broken, reading_waiting};
ghost use Rattle.journal_text.specs.declared.reading.journal_reader.JournalNext.TheVariants as read;
ghost use Rattle.session_listing.specs.Listing.{ListsSessions};
ghost use Rattle.state_mirror.specs.Mirroring.{AppliesNext, HasMirrored, HasWholeText, IfApplied, IfIllegal, IfNoJournal, ObjectsNext, item_applied};

use asp_base::{Bytes, NoMemory};
use journal_text::{Checker, JournalNext, JournalReader, Judgement, Objection, Why};
use session_listing::list_sessions;
use session_machine::{Entry, Item, Profile};
use std::alloc::Global;
use std::marker::Model;

/// What a mirror answers when it is asked for the next line.
#[derive(Debug, Drop)]
pub enum MirrorNext {
    /// The entry of the next line was applied.
    Applied {
        /// Its place.
        place: u64,
    },
    /// No line is whole; feed more bytes.
    More,
    /// The next line is none of its place; that stays so.
    NotAJournal {
        /// The offset of that line's first byte in the text.
        offset: u64,
    },
    /// The line was taken, but this entry or one before it may not stand, and from the first such on
    /// none is applied.
    Illegal {
        /// The place of the first entry that may not stand.
        place: u64,
        /// Why.
        why: Why,
    },
    /// There was no memory; nothing has changed.
    NoMemory,
}

/// A reader of a journal, and the items behind the entries that it read.
#[derive(Debug, Drop)]
pub struct Mirror {
    alloc: Global,
    reader: JournalReader,
    checker: Checker,
    next_place: u64,
    may_feed: bool,
}

impl Model for Mirror {
    ghost use Rattle.state_mirror.specs.Mirroring.{IsSound, Mirrored};

    ghost Value = { Mirrored };

    ghost view = { λ m. record { reader = m.reader; checker = m.checker; may_feed = m.may_feed } };

    ghost invariant = { λ m. IsSound m.reader m.checker m.next_place m.may_feed };
}

/// Takes the first line of a journal, where it is whole, and begins a checker with its profile and
/// its place.
fn begin(alloc: Global, reader: &mut JournalReader, checker: &mut Checker) -> Option<u64>
    requires { reader.old.begun ≡ None }
    ensures place { IfSome result (λ place. PlaceFits place × (checker.new.first_place ≡ place)
        × (checker.new.taken ≡ 0) × HasTaken checker.new []) }
    ensures begun { IfSome result (λ _. reader.new.begun ≡ Some checker.new.known.profile) }
    ensures reads { IfSome result (λ place. (text : List ℕ) → HasRead text None reader.old
        → HasRead text (Some (checker.new.known.profile, place, [])) reader.new) }
    ensures none { IfNone result ((checker.new ≡ checker.old) × (reader.new.begun ≡ None)
        × (reader.new.offset ≡ reader.old.offset)) }
    ensures unfinished { IfNone result (IsFalse reader.new.is_broken → HasNo 10 reader.new.held) }
    ensures kept { IfNone result ((text : List ℕ) (taken : Taken) → HasRead text taken reader.old
        → HasRead text taken reader.new) }
    ensures counted { reader.new.offset + length reader.new.held ≤ reader.old.offset
        + length reader.old.held }
{
    match reader.next() {
        JournalNext::Head { profile, place } => {
            *checker = Checker::new(alloc, profile, place);
            Some(place)
        }
        JournalNext::More => None,
        JournalNext::NotAJournal { .. } => None,
        JournalNext::Entry(_) => unreachable!(),
        JournalNext::NoMemory => unreachable!(),
    }
}

/// Applies the entry of the first line, and takes the line. After `NoMemory` nothing has changed.
fn apply(
    reader: &mut JournalReader,
    checker: &mut Checker,
    entry: Entry,
) -> Result<Option<Objection>, NoMemory>
    requires few { checker.old.taken < 2 ^ 63 - 1 }
    requires entry { BeginsWithEntry entry reader.old }
    ensures told { IfOk result (ObjectsTo checker.new.verdict) }
    ensures taken { (list : List AnEntry) → HasTaken checker.old list
        → OnOk result (HasTaken checker.new (list ++ entry ∷ [])) }
    ensures reads { (text : List ℕ) (taken : Taken) → HasRead text taken reader.old
        → OnOk result (HasRead text (taken_with (read.Entry entry) taken) reader.new) }
    ensures one_more { OnOk result (checker.new.taken ≡ checker.old.taken + 1) }
    ensures further { OnOk result (reader.old.offset < reader.new.offset) }
    ensures counted { reader.new.offset + length reader.new.held
        ≡ reader.old.offset + length reader.old.held }
    ensures begun { reader.new.begun ≡ reader.old.begun }
    ensures first_place { checker.new.first_place ≡ checker.old.first_place }
    ensures profile { checker.new.known.profile ≡ checker.old.known.profile }
    ensures err { OnErr result ((reader.new ≡ reader.old) × (checker.new ≡ checker.old)) }
{
    let told = checker.take_telling(entry)?;
    reader.pass();
    Ok(told)
}

impl Mirror {
    /// A mirror that was fed nothing. It takes no memory.
    pub fn new(alloc: Global) -> Mirror
        ensures mirrored { HasMirrored [] [] result }
        ensures may_feed { IsTrue result.may_feed }
        ensures reader { result.reader ≡ new_reader }
    {
        Mirror {
            alloc,
            reader: JournalReader::new(alloc),
            checker: Checker::new(alloc, Profile::Three, 0),
            next_place: 0,
            may_feed: true,
        }
    }

    /// Adds a piece of at most 16,384 bytes of the text. The caller has heard `More` or
    /// `NotAJournal` since the last piece. After `NoMemory` nothing has changed.
    pub fn feed(&mut self, piece: &[u8]) -> Result<(), NoMemory>
        requires piece { length piece.now ≤ most_piece }
        requires may_feed { IsTrue self.old.may_feed }
        requires text_fits { self.old.reader.offset + length self.old.reader.held
            + length piece.now < 2 ^ 63 - 1 }
        ensures mirrored { OnOk result ((text : List ℕ) (list : List AnEntry)
            → HasMirrored text list self.old → HasMirrored (text ++ piece.now) list self.new) }
        ensures err { OnErr result (self.new ≡ self.old) }
        ensures counted { self.new.reader.offset + length self.new.reader.held
            ≤ self.old.reader.offset + length self.old.reader.held + length piece.now }
    {
        self.reader.feed(piece)?;
        self.may_feed = false;
        if let Some(_) = self.reader.profile() {
            return Ok(());
        }
        match begin(self.alloc, &mut self.reader, &mut self.checker) {
            Some(place) => {
                self.next_place = place;
                Ok(())
            }
            None => Ok(()),
        }
    }

    /// Takes the next line, and applies its entry.
    pub fn next(&mut self) -> MirrorNext
        // The entry was applied: with it the list is a legal history.
        ensures applied { IfApplied result (λ place. (text : List ℕ) (list : List AnEntry)
            → HasMirrored text list self.old → AppliesNext place text list self.new) }

        // The list with the entry is none: this is the first place that fails, and why.
        ensures illegal { IfIllegal result (λ place why. (text : List ℕ) (list : List AnEntry)
            → HasMirrored text list self.old → ObjectsNext place why text list self.new) }

        // No line is whole, and there is room for more bytes.
        ensures more { result ≡ MirrorNext.More → self.new ≡ record self.old {
          reader = reading_waiting self.old.reader;
          may_feed = true;
        } }
        ensures none_whole { result ≡ MirrorNext.More → IsFalse self.old.reader.is_broken
            × HasNo 10 self.old.reader.held
            × (length self.old.reader.held ≤ most_journal_line) }

        // The text stops being a journal there, and the answer stays.
        ensures offset { IfNoJournal result (λ offset. (text : List ℕ) (list : List AnEntry)
            → HasMirrored text list self.old → StopsAt text offset) }
        ensures broken { IfNoJournal result (λ _. self.new ≡ record self.old {
          reader = reading_broken self.old.reader;
          may_feed = true;
        }) }
        ensures stays { IsTrue self.old.reader.is_broken
            → result ≡ MirrorNext.NotAJournal self.old.reader.offset }
        ensures mirrored { IfNoJournal result (λ _. (text : List ℕ) (list : List AnEntry)
            → HasMirrored text list self.old → HasMirrored text list self.new) }

        ensures no_memory { result ≡ MirrorNext.NoMemory → self.new ≡ self.old }

        // It takes bytes, and adds none.
        ensures counted { self.new.reader.offset + length self.new.reader.held
            ≤ self.old.reader.offset + length self.old.reader.held }
    {
        match self.reader.look() {
            JournalNext::Entry(entry) => {
                let Ok(objection) = apply(&mut self.reader, &mut self.checker, entry) else {
                    return MirrorNext::NoMemory;
                };
                let place = self.next_place;
                self.next_place += 1;
                self.may_feed = false;
                match objection {
                    None => MirrorNext::Applied { place },
                    Some(Objection { place, why }) => MirrorNext::Illegal { place, why },
                }
            }
            JournalNext::More => {
                self.may_feed = true;
                MirrorNext::More
            }
            JournalNext::NotAJournal { offset } => {
                self.may_feed = true;
                MirrorNext::NotAJournal { offset }
            }
            JournalNext::NoMemory => MirrorNext::NoMemory,
            JournalNext::Head { .. } => unreachable!(),
        }
    }

    /// Where a text that ends here is no journal; `None` exactly where it is one. The caller has
    /// heard `More` or `NotAJournal` since the last piece.
    pub fn finish(&self) -> Option<u64>
        requires { IsTrue self.now.may_feed }
        ensures journal { IfNone result ((text : List ℕ) (list : List AnEntry)
            → HasMirrored text list self.now → HasWholeText text list self.now) }
        ensures stops { IfSome result (λ offset. (text : List ℕ) (list : List AnEntry)
            → HasMirrored text list self.now → StopsAt text offset) }
    {
        self.reader.finish()
    }

    /// The item of a key behind the entries that were applied. It takes no memory.
    pub fn item(&self, key: &Bytes) -> Option<&Item>
        ensures { (text : List ℕ) (list : List AnEntry) → HasMirrored text list self.now
            → option_copied result ≡ item_applied self.now list key.now }
    {
        self.checker.map().get(key)
    }

    /// The judgement of the entries that were read. It takes no memory.
    pub fn verdict(&self) -> &Judgement
        ensures verdict { result.now ≡ self.now.checker.verdict }
    {
        self.checker.verdict()
    }

    /// Appends the line `KEY COOKIE SINCE MINUTES FRESH TOUCHED ENDS BODY` of each item that lives at
    /// the moment `t`, in milliseconds, in the order of the keys, and then `sessions` and how many
    /// they are. After `NoMemory` the buffer holds what it held.
    pub fn print(&self, t: u64, out: &mut Vec<u8>) -> Result<(), NoMemory>
        ensures ok { (text : List ℕ) (list : List AnEntry) → HasMirrored text list self.now
            → OnOk result ((listing : List ℕ) × (out.new.items ≡ out.old.items ++ listing)
            × ListsSessions t (item_applied self.now list) listing) }
        ensures err { OnErr result (out.new.items ≡ out.old.items) }
    {
        list_sessions(out, self.checker.map(), t)
    }
}
