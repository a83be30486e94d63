//! Whole texts of journals, read in pieces.
ghost use Rattle.std.specs.Prelude.{◌+◌, ◌≤◌, length, IfOk, IsTrue};

use asp_base::NoMemory;
use journal_text::{JournalNext, JournalReader, MOST_PIECE, write_entry, write_head};
use std::alloc::Global;

/// What was read of a text.
#[derive(Debug, Drop)]
pub struct Again {
    /// Each line that was read, written again.
    pub lines: Vec<u8>,
    /// Where the text stops being a journal.
    pub stops: Option<u64>,
}

/// Writes again each line that the reader has, at most `most` of them, and answers whether it may
/// be fed.
#[tactic(auto, using(crate::proofs::ReadingLemmas::told_by))]
fn tell(reader: &mut JournalReader, lines: &mut Vec<u8>, most: usize) -> Result<bool, NoMemory>
    ensures may_feed { IfOk result (λ b. IsTrue b → IsTrue reader.new.may_feed) }
    ensures counted { reader.new.offset + length reader.new.held ≤ reader.old.offset
        + length reader.old.held }
{
    'lines: for _ in 0..most {
        match reader.next() {
            JournalNext::Head { profile, place } => write_head(lines, profile, place)?,
            JournalNext::Entry(entry) => match reader.profile() {
                Some(profile) => write_entry(lines, profile, &entry)?,
                None => return Ok(false),
            },
            JournalNext::More | JournalNext::NotAJournal { .. } => return Ok(true),
            JournalNext::NoMemory => return Err(NoMemory),
        }
    }
    Ok(false)
}

/// A text of fewer than 2^40 bytes, read in pieces of this size, at least 1 and at most 16,384
/// bytes.
pub fn read_again(alloc: Global, text: &[u8], size: usize) -> Result<Again, NoMemory> {
    let mut lines = Vec::new(alloc);
    let mut reader = JournalReader::new(alloc);
    let mut fed = 0;
    for piece in text.chunks(size.max(1)) {
        if piece.len() > MOST_PIECE || fed > (1 << 40) {
            return Err(NoMemory);
        }
        reader.feed(piece)?;
        fed += piece.len();
        if !tell(&mut reader, &mut lines, MOST_PIECE)? {
            return Err(NoMemory);
        }
    }
    Ok(Again {
        lines,
        stops: reader.finish(),
    })
}
