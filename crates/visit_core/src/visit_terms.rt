//! What a page needs of its session, and how long it asks.
ghost use Rattle.std.specs.Prelude.{◌≡◌, ◌↔◌, IsTrue};
ghost use Rattle.visit_core.specs.Terms.{LimitsFit, default_limits};
ghost use Rattle.visit_core.specs.VisitRule.{ask_for};

use asp_messages::Ask;

/// The longest execution timeout, in seconds: a day.
pub const MOST_EXECUTION_SECS: u64 = 86_400;

/// The longest time between two polls, in milliseconds.
pub const MOST_POLL_MS: u64 = 60_000;

/// The most polls of a visit.
pub const MOST_POLLS: u64 = 1_000_000;

/// What a page needs of its session (`EnableSessionState` of ASP.NET's `@ Page` directive).
#[derive(Clone, Copy, Debug, PartialEq, Eq)]
pub enum Need {
    /// The content, under a lock that the page holds until its end.
    Exclusive,
    /// The content, without a lock.
    ReadOnly,
    /// Only that the session lives on.
    Off,
}

impl Need {
    /// What the page asks for first.
    pub(crate) fn ask(self) -> Ask
        ensures { result ≡ ask_for self }
    {
        match self {
            Need::Exclusive => Ask::Acquire,
            Need::ReadOnly => Ask::Read,
            Need::Off => Ask::Reset,
        }
    }
}

/// How long a visit waits for a lock that is in its way.
#[derive(Clone, Copy, Debug, PartialEq, Eq)]
pub struct Limits {
    /// A lock of more seconds than this is released by force (`executionTimeout` of ASP.NET's
    /// `httpRuntime`), 1 to 86,400.
    pub execution_secs: u64,
    /// The milliseconds from a poll that found a lock to the next one, 1 to 60,000.
    pub poll_ms: u64,
    /// After so many polls that found a lock the visit gives up, 1 to 1,000,000.
    pub polls: u64,
}

impl Default for Limits {
    ghost is_default = { λ limits. limits ≡ default_limits };

    /// ASP.NET's 110 seconds and half a second, and 1,000 polls.
    fn default() -> Limits {
        Limits {
            execution_secs: 110,
            poll_ms: 500,
            polls: 1_000,
        }
    }
}

/// Whether each limit is in its range.
pub fn limits_fit(limits: &Limits) -> bool
    ensures { IsTrue result ↔ LimitsFit limits.now }
{
    (1..=MOST_EXECUTION_SECS).contains(&limits.execution_secs)
        && (1..=MOST_POLL_MS).contains(&limits.poll_ms)
        && (1..=MOST_POLLS).contains(&limits.polls)
}
