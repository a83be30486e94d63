//! Journals read: from the pieces of a text, one line after the other.

mod ask_and_reply;
mod journal_line;
mod journal_reader;
mod text_laws;

pub use journal_reader::{JournalNext, JournalReader};
pub use text_laws::{lines_are_short, one_journal, stops_at_one_offset};
