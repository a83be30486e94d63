//! Journals written: a first line, and a line for each entry, appended to a buffer.

mod journal_writer;

pub use journal_writer::{MOST_JOURNAL_LINE, entry_fits, spell_in, write_entry, write_head};
