//! How far a visit has come, and where an answer leads.
ghost use Rattle.std.specs.Prelude.{◌≡◌, IfSome};
ghost use Rattle.visit_core.specs.Terms.{HeardFits};
ghost use Rattle.visit_core.specs.Tables.{LockFits, lock_met, acquired, answered, end_answered, refused_stage};

use crate::{Heard, Outcome};
use asp_base::Bytes;
use asp_messages::{Ask, Reply, status_of};

/// How far a visit has come. The request that a stage sends stands beside it.
#[derive(Debug, Drop)]
pub(crate) enum Stage {
    /// The session is asked for from this moment on, in milliseconds.
    Asking {
        from: u64,
    },
    /// The lock that is in the way is released.
    Forcing,
    /// The page runs, on its item's content and under its own cookie.
    Running {
        content: Option<Bytes>,
        first: bool,
        cookie: Option<u64>,
    },
    /// The page's end is told.
    Ending,
    /// The visit is over.
    Over(Outcome),
}

/// A lock that is in the way of an ask for the session.
#[derive(Clone, Copy, Debug)]
pub(crate) struct Lock {
    pub(crate) cookie: u64,
    /// How long it has been held, in seconds.
    pub(crate) age: u64,
}

impl Lock {
    /// The lock that the answer to this ask names.
    pub(crate) fn met(ask: &Ask, answer: &Heard) -> Option<Lock>
        requires { HeardFits answer.now }
        ensures lock { result ≡ lock_met ask.now answer.now }
        ensures fits { IfSome result LockFits }
    {
        match (ask, answer) {
            (Ask::Acquire | Ask::Read, Heard::Reply(Reply::Locked { cookie, age, .. })) => {
                Some(Lock {
                    cookie: *cookie,
                    age: *age,
                })
            }
            _ => None,
        }
    }
}

impl Stage {
    /// An answer that does not belong to its request ends the visit.
    pub(crate) fn refused(answer: Heard) -> Stage
        ensures { result ≡ refused_stage answer }
    {
        Stage::Over(Outcome::Refused {
            status: match answer {
                Heard::Reply(reply) => status_of(&reply),
                Heard::Strange(status) => status,
            },
        })
    }

    /// After an answer to an ask for the session, unless a lock is in the way.
    pub(crate) fn answered(ask: &Ask, answer: Heard) -> Stage
        ensures { result ≡ answered ask.now answer }
    {
        match (ask, answer) {
            (
                Ask::Acquire,
                Heard::Reply(
                    Reply::Found {
                        body,
                        cookie,
                        first,
                        ..
                    },
                ),
            ) => Stage::acquired(body, first, cookie),
            (Ask::Read, Heard::Reply(Reply::Found { body, first, .. })) => Stage::Running {
                content: Some(body),
                first,
                cookie: None,
            },
            (Ask::Acquire | Ask::Read, Heard::Reply(Reply::Missing)) => Stage::Running {
                content: None,
                first: false,
                cookie: None,
            },
            (Ask::Reset, Heard::Reply(Reply::Done | Reply::Missing)) => Stage::Over(Outcome::Done),
            (_, answer) => Stage::refused(answer),
        }
    }

    /// Content without a cookie answers a plain read, and no acquisition.
    fn acquired(content: Bytes, first: bool, cookie: Option<u64>) -> Stage
        ensures { result ≡ acquired content first cookie }
    {
        match cookie {
            None => Stage::Over(Outcome::Refused { status: 200 }),
            Some(_) => Stage::Running {
                content: Some(content),
                first,
                cookie,
            },
        }
    }

    /// After an answer to the request of the page's end.
    pub(crate) fn end_answered(answer: Heard) -> Stage
        ensures { result ≡ end_answered answer }
    {
        match answer {
            Heard::Reply(Reply::Done) => Stage::Over(Outcome::Done),
            Heard::Reply(Reply::Missing) => Stage::Over(Outcome::LostMissing),
            Heard::Reply(Reply::Locked { cookie, age, .. }) => {
                Stage::Over(Outcome::LostLocked { cookie, age })
            }
            answer => Stage::refused(answer),
        }
    }
}
