//! What a replay finds.

use asp_base::status;
use command_loop::Status;

/// What a replay finds.
#[derive(Clone, Copy, Debug, PartialEq, Eq, Drop)]
pub enum ReplayVerdict {
    /// The input is a journal, and its entries are a legal history.
    Legal,
    /// The input is a journal, and its entries are no legal history.
    Illegal,
    /// The input is no journal.
    NotAJournal,
}

/// How a replay ends.
pub type ReplayEnd = command_loop::RunEnd<ReplayVerdict>;

impl Status for ReplayVerdict {
    ghost use Rattle.journal_replay.specs.Replay.{replay_verdict_status};

    ghost number = { replay_verdict_status };

    fn number(&self) -> u8 {
        match self {
            ReplayVerdict::Legal => status::DONE,
            ReplayVerdict::NotAJournal => status::NOT_WHOLE,
            ReplayVerdict::Illegal => status::ILLEGAL,
        }
    }
}
