//! What a run of `pipe` is told, and how it ends.
ghost use Rattle.std.specs.Prelude.{◌≡◌};
ghost use Rattle.pipe_command.specs.PlainRun.{output_of};

use asp_base::status;
use command_loop::Status;

/// What a run of `pipe` is told.
#[derive(Clone, Copy, Debug, PartialEq, Eq)]
pub struct Pipe {
    /// The moment of the first message, in milliseconds, at most 2^62.
    pub start: u64,
    /// How much later each message comes than the one before it, in milliseconds, at most 2^62.
    pub step: u64,
    /// The first cookie, from 1 to 2^63 - 1.
    pub first: u64,
    /// Whether the sink gets a journal in the place of the replies.
    pub journal: bool,
    /// The most bytes that are taken from the source, from 1 to 2^40.
    pub most: u64,
}

/// What a run writes.
#[derive(Clone, Copy, Debug, PartialEq, Eq)]
pub enum Output {
    /// The reply to each message.
    Replies,
    /// The journal of what was done.
    Journal,
}

impl Pipe {
    /// What the run writes.
    pub fn output(&self) -> Output
        ensures { result ≡ output_of self.now.journal }
    {
        if self.journal {
            Output::Journal
        } else {
            Output::Replies
        }
    }
}

/// What the input of a run was.
#[derive(Clone, Copy, Debug, PartialEq, Eq, Drop)]
pub enum PipeVerdict {
    /// It was whole messages, and each was answered.
    Whole,
    /// It was no whole messages.
    Broken,
}

/// How a run ends.
pub type PipeEnd = command_loop::RunEnd<PipeVerdict>;

impl Status for PipeVerdict {
    ghost use Rattle.pipe_command.specs.PipeRun.{pipe_verdict_status};

    ghost number = { pipe_verdict_status };

    fn number(&self) -> u8 {
        match self {
            PipeVerdict::Whole => status::DONE,
            PipeVerdict::Broken => status::NOT_WHOLE,
        }
    }
}
