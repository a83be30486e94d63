//! What the server did, written down, read again and judged: a room for each.
#![tactic(auto)]

mod judging;
mod reading;
mod writing;

pub use asp_base::MOST_PIECE;
pub use judging::{
    Checker, Judgement, Objection, Why, illegal_stays, legal_is_judged_legal, one_judgement,
    write_judgement,
};
pub use reading::{JournalNext, JournalReader, lines_are_short, one_journal, stops_at_one_offset};
pub use writing::{MOST_JOURNAL_LINE, entry_fits, write_entry, write_head};
