//! How a run ends, and the exit status of that.
ghost use Rattle.std.specs.Prelude.{◌≡◌, ℕ};
ghost use Rattle.command_loop.specs.Status.{status_of_run};

use asp_base::status;

/// How a run ends. The first of these in time decides.
#[derive(Clone, Copy, Debug, PartialEq, Eq)]
pub enum RunEnd<V> {
    /// The consumer is over, with this verdict.
    Over(V),
    /// The source failed.
    ReadFault,
    /// The sink failed.
    WriteFault,
    /// There was no memory.
    NoMemory,
    /// The most bytes were taken, and the consumer is not over.
    Long,
}

/// What a consumer finds, and the exit status that tells it.
pub trait Status: Drop {
    /// The exit status.
    ghost number: { Self → ℕ };

    /// The exit status.
    fn number(&self) -> u8
        ensures { result ≡ number self.now };
}

impl<V: Status> RunEnd<V> {
    /// The exit status: the verdict's, or 4 where the source failed, 5 where the sink failed, 6
    /// where memory was wanting, 7 where the most bytes were taken.
    pub fn status(&self) -> u8
        ensures { result ≡ status_of_run V.number self.now }
    {
        match self {
            RunEnd::Over(verdict) => verdict.number(),
            RunEnd::ReadFault => status::READ_FAULT,
            RunEnd::WriteFault => status::WRITE_FAULT,
            RunEnd::NoMemory => status::NO_MEMORY,
            RunEnd::Long => status::TOO_LONG,
        }
    }
}
