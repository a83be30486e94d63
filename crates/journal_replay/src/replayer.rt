//! A journal that is read and judged, line by line.
ghost use Rattle.std.specs.Prelude.{◌≡◌, ◌++◌, [], ℕ, List, OnOk};
ghost use Rattle.journal_replay.specs.ReplayProgress.{IsLegalVerdict, ReplayWent, ReportsTaken, verdict_of};
ghost use Rattle.journal_replay.specs.Replay.{stop_line};

use crate::{ReplayReport, ReplayVerdict};
use asp_base::NoMemory;
use command_loop::{Consumer, Stepped};
use itoa::Buffer;
use journal_text::{Checker, JournalNext, JournalReader, Judgement, write_judgement};
use session_listing::list_sessions;
use session_machine::Profile;
use std::alloc::Global;

/// A reader, and the checker of the entries that it read.
#[derive(Debug, Drop)]
pub struct Replayer {
    alloc: Global,
    report: ReplayReport,
    reader: JournalReader,
    checker: Checker,
    text: Vec<u8>,
}

/// Appends the line that tells at which offset a text is no journal.
#[tactic(auto, unfolding(crate::specs::Replay::stop_line))]
fn write_stop(out: &mut Vec<u8>, offset: u64) -> Result<(), NoMemory>
    ensures { OnOk result (out.new.items ≡ out.old.items ++ stop_line offset) }
{
    let mut buffer = Buffer::new();
    out.extend_from_slice(b"not a journal at ")?;
    out.extend_from_slice(buffer.format(offset).as_bytes())?;
    out.extend_from_slice(b"\n")?;
    Ok(())
}

/// The verdict of a judgement.
fn verdict_of(judgement: &Judgement) -> ReplayVerdict
    ensures { result ≡ verdict_of judgement.now }
{
    match judgement {
        Judgement::Legal { .. } => ReplayVerdict::Legal,
        Judgement::Illegal { .. } => ReplayVerdict::Illegal,
    }
}

/// Appends what is reported of a legal history.
fn write_legal(out: &mut Vec<u8>, report: ReplayReport, checker: &Checker) -> Result<(), NoMemory>
    requires legal { IsLegalVerdict checker.now.verdict }
    ensures { OnOk result ((text : List ℕ) × (out.new.items ≡ out.old.items ++ text)
        × ReportsTaken report checker.now text) }
{
    match report {
        ReplayReport::Judgement => write_judgement(out, checker.profile(), checker.verdict()),
        ReplayReport::Sessions { moment } => list_sessions(out, checker.map(), moment),
    }
}

/// Appends what is reported of the entries that were taken: what lives behind a legal history,
/// where that is asked for, and else the line of the judgement.
fn write_report(out: &mut Vec<u8>, report: ReplayReport, checker: &Checker) -> Result<(), NoMemory>
    ensures { OnOk result ((text : List ℕ) × (out.new.items ≡ out.old.items ++ text)
        × ReportsTaken report checker.now text) }
{
    let judgement = checker.verdict();
    match judgement {
        Judgement::Legal { .. } => write_legal(out, report, checker),
        Judgement::Illegal { .. } => write_judgement(out, checker.profile(), judgement),
    }
}

impl Replayer {
    /// Nothing was read, and this is what will be reported. It takes no memory.
    pub fn new(alloc: Global, report: ReplayReport) -> Replayer
        ensures begun { ReplayWent result result [] [] }
        ensures report { result.report ≡ report }
    {
        Replayer {
            alloc,
            report,
            reader: JournalReader::new(alloc),
            checker: Checker::new(alloc, Profile::Three, 0),
            text: Vec::new(alloc),
        }
    }
}

impl Consumer for Replayer {
    ghost use Rattle.std.specs.Prelude.{length, []};
    ghost use Rattle.journal_replay.specs.ReplayProgress.{ReplayWent, ReplayWaits, ReplayGave, ReplayLacks};

    type Over = ReplayVerdict;

    ghost went = { ReplayWent };

    ghost waits = { λ more now. ReplayWaits now.reader };

    ghost gave = { ReplayGave };

    ghost lacks = { ReplayLacks };

    ghost work = { λ now. length now.reader.held };

    ghost parts = { λ now. (now.text.items, []) };

    fn feed(&mut self, piece: &[u8]) -> Result<(), NoMemory> {
        self.reader.feed(piece)
    }

    fn step(&mut self, _more: bool) -> Stepped<ReplayVerdict> {
        match self.reader.next() {
            JournalNext::Head { profile, place } => {
                self.checker = Checker::new(self.alloc, profile, place);
                Stepped::Did
            }
            JournalNext::Entry(entry) => match self.checker.take(entry) {
                Ok(()) => Stepped::Did,
                Err(NoMemory) => Stepped::NoMemory,
            },
            JournalNext::More => Stepped::More,
            JournalNext::NotAJournal { offset } => match write_stop(&mut self.text, offset) {
                Ok(()) => Stepped::Over(ReplayVerdict::NotAJournal),
                Err(NoMemory) => Stepped::NoMemory,
            },
            JournalNext::NoMemory => Stepped::NoMemory,
        }
    }

    fn finish(&mut self) -> Result<ReplayVerdict, NoMemory> {
        match self.reader.finish() {
            None => {
                write_report(&mut self.text, self.report, &self.checker)?;
                Ok(verdict_of(self.checker.verdict()))
            }
            Some(offset) => {
                write_stop(&mut self.text, offset)?;
                Ok(ReplayVerdict::NotAJournal)
            }
        }
    }

    fn parts(&self) -> (&[u8], &[u8]) {
        (self.text.as_slice(), &[])
    }
}
