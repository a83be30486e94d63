//! What a visit hears and does.
ghost use Rattle.std.specs.Prelude.{◌≡◌};
ghost use Rattle.visit_core.specs.VisitRule.{ending_ask};

use crate::{Need, Outcome};
use asp_base::Bytes;
use asp_messages::{Ask, Reply, Request};

/// What a visit hears of a request that it sent.
#[derive(Debug, PartialEq, Eq, Drop)]
pub enum Heard {
    /// A reply of the protocol, in range.
    Reply(Reply),
    /// A whole message that is none, with its status.
    Strange(u16),
}

/// How a page ends.
#[derive(Debug, PartialEq, Eq, Drop)]
pub enum Ending {
    /// The session changed.
    Save {
        /// The new content, at most 4,194,304 bytes.
        body: Bytes,
        /// How long the item lives untouched, 1 to 525,600 minutes.
        minutes: u64,
    },
    /// The session did not change.
    Keep,
    /// The session was abandoned.
    Abandon,
}

impl Ending {
    /// What is asked at the page's end, under the visit's own cookie. Only a page that may write
    /// asks then.
    pub(crate) fn ask(self, need: Need, own: Option<u64>) -> Option<Ask>
        ensures { result ≡ ending_ask need own self }
    {
        match (need, own, self) {
            (Need::Exclusive, own, Ending::Save { body, minutes }) => Some(Ask::Write {
                body,
                minutes,
                fresh: false,
                cookie: own,
            }),
            (Need::Exclusive, Some(cookie), Ending::Keep) => Some(Ask::Release { cookie }),
            (Need::Exclusive, Some(cookie), Ending::Abandon) => Some(Ask::Remove {
                cookie: Some(cookie),
            }),
            _ => None,
        }
    }
}

/// What a visit does at a moment.
#[derive(Clone, Copy, Debug, PartialEq, Eq)]
pub enum Act<'a> {
    /// It sends this request, and then hears the answer.
    Send(&'a Request),
    /// It waits until this moment, in milliseconds.
    WaitUntil(u64),
    /// The page runs, and then finishes with its ending.
    Run {
        /// The session's content; `None` where the session has no item.
        content: Option<&'a Bytes>,
        /// Whether the item was uninitialized until now.
        first: bool,
    },
    /// The visit is over.
    Over(&'a Outcome),
}
