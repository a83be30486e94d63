//! An entry with its line in a journal.
ghost use Rattle.std.specs.Prelude.{◌≡◌, IfOk, IfErr};
ghost use Rattle.session_machine.specs.History.{IsFormed};
ghost use Rattle.session_machine.specs.Profiles.{newest};
ghost use Rattle.journal_text.specs.WritingText.{EntryFits, entry_line};

use asp_base::NoMemory;
use asp_messages::{Ask, Reply};
use journal_text::{entry_fits, write_entry};
use session_machine::{Deed, Entry, Profile};
use std::alloc::Global;
use std::marker::Model;

/// An entry and its line in a journal of the newest profile, so that a line is spelled before the
/// journal is waited for. Contracts see the entry.
#[derive(Debug, Drop)]
pub struct SpelledEntry {
    entry: Entry,
    line: Vec<u8>,
}

impl Model for SpelledEntry {
    ghost use Rattle.std.specs.Prelude.{◌≡◌};
    ghost use Rattle.session_machine.specs.declared.entry.Entry.{Entry as AnEntry};
    ghost use Rattle.session_machine.specs.Profiles.{newest};
    ghost use Rattle.journal_text.specs.WritingText.{EntryFits, entry_line};

    ghost Value = { AnEntry };

    ghost view = { λ s. s.entry };

    ghost invariant = { λ s. EntryFits newest s.entry
        × (s.line.items ≡ entry_line newest s.entry) };
}

/// Room for the line of most entries: two digits a byte, and the numbers and words beside them.
fn room_for(entry: &Entry) -> usize {
    let asked = match &entry.deed {
        Deed::Asked(request) => {
            let body = match &request.ask {
                Ask::Write { body, .. } => body.as_slice().len(),
                _ => 0,
            };
            request.key.as_slice().len().saturating_add(body)
        }
        Deed::Expired(key) => key.as_slice().len(),
        Deed::Looked => 0,
    };
    let replied = match &entry.reply {
        Reply::Found { body, .. } => body.as_slice().len(),
        _ => 0,
    };
    asked
        .saturating_add(replied)
        .saturating_mul(2)
        .saturating_add(256)
}

/// The line of an entry.
fn line_of(alloc: Global, entry: &Entry) -> Result<Vec<u8>, NoMemory>
    requires entry { IsFormed entry.now }
    ensures line { IfOk result (λ line. line.items ≡ entry_line newest entry.now) }
    ensures fits { EntryFits newest entry.now }
{
    entry_fits(Profile::Three, entry);
    let mut line = Vec::with_capacity(alloc, room_for(entry))?;
    write_entry(&mut line, Profile::Three, entry)?;
    Ok(line)
}

impl SpelledEntry {
    /// Spells the line of an entry; `Err` gives the entry back where there is no memory for it.
    pub fn new(alloc: Global, entry: Entry) -> Result<SpelledEntry, Entry>
        requires entry { IsFormed entry }
        ensures spelled { IfOk result (λ spelled. spelled ≡ entry) }
        ensures given_back { IfErr result (λ back. back ≡ entry) }
    {
        match line_of(alloc, &entry) {
            Ok(line) => Ok(SpelledEntry { entry, line }),
            Err(NoMemory) => Err(entry),
        }
    }

    /// The line, with its line feed.
    pub fn line(&self) -> &[u8]
        ensures { result.now ≡ entry_line newest self.now }
    {
        self.line.as_slice()
    }

    /// The entry can be written, as its line shows. The function does nothing.
    pub(crate) fn fits(&self)
        ensures { EntryFits newest self.now }
    {
        let _line = &self.line;
    }
}
