//! What a judgement objects to, told to somebody else.
ghost use Rattle.std.specs.Prelude.{◌≡◌, IfOk, OnErr};
ghost use Rattle.journal_text.specs.JudgingObjections.{IsIllegal, ObjectsTo};

use super::{Judgement, Why};
use asp_base::NoMemory;
use asp_messages::Reply;

/// The first entry of a list that may not stand.
#[derive(Debug, PartialEq, Eq, Drop)]
pub struct Objection {
    /// Its place.
    pub place: u64,
    /// Why it may not.
    pub why: Why,
}

/// The reply once more, which shares its content.
fn same_reply(reply: &Reply) -> Result<Reply, NoMemory>
    ensures { IfOk result (λ other. other ≡ reply.now) }
{
    match reply {
        Reply::Found {
            body,
            minutes,
            cookie,
            first,
        } => Ok(Reply::Found {
            body: body.share()?,
            minutes: *minutes,
            cookie: *cookie,
            first: *first,
        }),
        Reply::Locked { cookie, age, since } => Ok(Reply::Locked {
            cookie: *cookie,
            age: *age,
            since: *since,
        }),
        Reply::Done => Ok(Reply::Done),
        Reply::Missing => Ok(Reply::Missing),
        Reply::Bad => Ok(Reply::Bad),
        Reply::KeeperFault => Ok(Reply::KeeperFault),
        Reply::NoMemory => Ok(Reply::NoMemory),
        Reply::CookiesOut => Ok(Reply::CookiesOut),
        Reply::PlacesOut => Ok(Reply::PlacesOut),
    }
}

impl Why {
    /// The reason once more. The only error is want of memory.
    pub fn again(&self) -> Result<Why, NoMemory>
        ensures { IfOk result (λ other. other ≡ self.now) }
    {
        match self {
            Why::FaultsFell { before, found } => Ok(Why::FaultsFell {
                before: *before,
                found: *found,
            }),
            Why::CookieBack { above, found } => Ok(Why::CookieBack {
                above: *above,
                found: *found,
            }),
            Why::NotDue => Ok(Why::NotDue),
            Why::WrongReply { expected, found } => Ok(Why::WrongReply {
                expected: same_reply(expected)?,
                found: same_reply(found)?,
            }),
        }
    }
}

impl Judgement {
    /// What the judgement objects to, `None` exactly where the list is legal. The only error is
    /// want of memory, and it comes of an illegal list alone.
    pub fn objection(&self) -> Result<Option<Objection>, NoMemory>
        ensures ok { IfOk result (ObjectsTo self.now) }
        ensures err { OnErr result (IsIllegal self.now) }
    {
        match self {
            Judgement::Legal { .. } => Ok(None),
            Judgement::Illegal { place, why } => Ok(Some(Objection {
                place: *place,
                why: why.again()?,
            })),
        }
    }
}
