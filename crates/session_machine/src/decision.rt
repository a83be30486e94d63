//! What a request does with an item: the verdict, the reply that it becomes, and the content behind
//! a change. No content is copied.
ghost use Rattle.std.specs.Prelude.{◌≡◌, ◌<◌, ◌≤◌, ◌^◌, Option, Some, None, IfSome, option_copied, if◌then◌else◌, IfOk};
ghost use Rattle.session_machine.specs.declared.item.Item.{Item};
ghost use Rattle.session_machine.specs.Liveness.{ItemFits};
ghost use Rattle.session_machine.specs.Machine.{effect, on_absent, on_free, on_held};
ghost use Rattle.session_machine.specs.Verdicts.{effect_of, reply_of, body_asked, body_there};

use crate::item::{Hold, Item, Profile, age, end_of, live, told_since};
use asp_base::{Bytes, NoMemory};
use asp_messages::{Ask, Reply, Request, named};
use std::alloc::Global;

/// The kind of a reply. `Found` has the content and the minutes of the item as it stood.
#[derive(Clone, Copy, Debug, PartialEq, Eq)]
pub enum Kind {
    /// Cookie 0 is none.
    Found {
        cookie: u64,
        first: bool,
    },
    /// What was asked is done.
    Done,
    /// A lock is in the way: its cookie, 0 where there is none, its age in seconds, and where it is
    /// told the moment of its acquisition.
    Locked {
        cookie: u64,
        age: u64,
        since: Option<u64>,
    },
    /// The session has no item.
    Missing,
    /// No cookie was left for an acquire.
    CookiesOut,
}

/// What becomes of the item.
#[derive(Clone, Copy, Debug, PartialEq, Eq)]
pub enum Change {
    /// It stays as it is.
    Nothing,
    /// It is removed.
    Cut,
    /// It is made or changed: its content is the request's or stays, and these are its other parts.
    Store {
        body_of_request: bool,
        minutes: u64,
        fresh: bool,
        holder: Option<Hold>,
        touched: u64,
        ends: u64,
    },
}

/// A reply's kind, and what becomes of the item.
#[derive(Clone, Copy, Debug, PartialEq, Eq)]
pub struct Verdict {
    /// What is answered.
    pub kind: Kind,
    /// What becomes of the item.
    pub change: Change,
}

/// A write or a removal names a cookie, and the item is under no lock.
const NO_LOCK: Kind = Kind::Locked {
    cookie: 0,
    age: 0,
    since: None,
};

fn unchanged(kind: Kind) -> Verdict
    ensures kind { result.kind ≡ kind }
    ensures change { result.change ≡ Change.Nothing }
{
    Verdict {
        kind,
        change: Change::Nothing,
    }
}

fn on_absent(profile: Profile, ask: &Ask, t: u64) -> Verdict
    requires { t ≤ 2 ^ 62 }
    ensures { effect_of result None ask.now ≡ on_absent profile t ask.now }
{
    match ask {
        Ask::Write {
            minutes,
            fresh,
            cookie: None,
            ..
        } => Verdict {
            kind: Kind::Done,
            change: Change::Store {
                body_of_request: true,
                minutes: *minutes,
                fresh: *fresh,
                holder: None,
                touched: t,
                ends: end_of(profile, t),
            },
        },
        _ => unchanged(Kind::Missing),
    }
}

fn stored(
    kind: Kind,
    body_of_request: bool,
    minutes: u64,
    fresh: bool,
    holder: Option<Hold>,
    touched: u64,
    ends: u64,
) -> Verdict
    ensures kind { result.kind ≡ kind }
    ensures change { result.change
        ≡ Change.Store body_of_request minutes fresh holder touched ends }
{
    Verdict {
        kind,
        change: Change::Store {
            body_of_request,
            minutes,
            fresh,
            holder,
            touched,
            ends,
        },
    }
}

fn on_free(item: &Item, ask: &Ask, t: u64, drawn: u64) -> Verdict
    requires { ask.now ≡ Ask.Acquire → 0 < drawn }
    ensures { effect_of result (Some item.now) ask.now ≡ on_free item.now t drawn ask.now }
{
    let touched = item.touched.max(t);
    match ask {
        Ask::Read => stored(
            Kind::Found {
                cookie: 0,
                first: item.fresh,
            },
            false,
            item.minutes,
            false,
            item.holder,
            touched,
            item.ends,
        ),
        Ask::Acquire => stored(
            Kind::Found {
                cookie: drawn,
                first: item.fresh,
            },
            false,
            item.minutes,
            false,
            Some(Hold {
                cookie: drawn,
                since: t,
            }),
            touched,
            item.ends,
        ),
        Ask::Release { .. } => unchanged(Kind::Done),
        Ask::Write {
            fresh: true,
            cookie: None,
            ..
        } => unchanged(Kind::Done),
        Ask::Write {
            minutes,
            fresh: false,
            cookie: None,
            ..
        } => stored(
            Kind::Done,
            true,
            *minutes,
            false,
            item.holder,
            touched,
            item.ends,
        ),
        Ask::Remove { cookie: None } => Verdict {
            kind: Kind::Done,
            change: Change::Cut,
        },
        Ask::Write {
            cookie: Some(_),
            ..
        }
        | Ask::Remove { cookie: Some(_) } => unchanged(NO_LOCK),
        Ask::Reset => stored(
            Kind::Done,
            false,
            item.minutes,
            item.fresh,
            item.holder,
            touched,
            item.ends,
        ),
    }
}

fn on_held(profile: Profile, item: &Item, hold: Hold, ask: &Ask, t: u64) -> Verdict
    ensures { effect_of result (Some item.now) ask.now ≡ on_held profile item.now hold t ask.now }
{
    let touched = item.touched.max(t);
    let in_the_way = unchanged(Kind::Locked {
        cookie: hold.cookie,
        age: age(&hold, t),
        since: told_since(profile, &hold),
    });
    match ask {
        Ask::Release { cookie } => {
            if *cookie == hold.cookie {
                stored(
                    Kind::Done,
                    false,
                    item.minutes,
                    item.fresh,
                    None,
                    touched,
                    item.ends,
                )
            } else {
                in_the_way
            }
        }
        Ask::Write {
            fresh: true,
            cookie: None,
            ..
        } => unchanged(Kind::Done),
        Ask::Write {
            minutes,
            fresh,
            cookie: Some(cookie),
            ..
        } => {
            if *cookie == hold.cookie {
                stored(Kind::Done, true, *minutes, *fresh, None, touched, item.ends)
            } else {
                in_the_way
            }
        }
        Ask::Remove {
            cookie: Some(cookie),
        } => {
            if *cookie == hold.cookie {
                Verdict {
                    kind: Kind::Done,
                    change: Change::Cut,
                }
            } else {
                in_the_way
            }
        }
        Ask::Reset => stored(
            Kind::Done,
            false,
            item.minutes,
            item.fresh,
            item.holder,
            touched,
            item.ends,
        ),
        _ => in_the_way,
    }
}

/// An item that has expired counts as absent, and is removed.
fn on_dead(profile: Profile, ask: &Ask, t: u64) -> Verdict
    requires { t ≤ 2 ^ 62 }
    ensures { (old : Item) → effect_of result (Some old) ask.now ≡ on_absent profile t ask.now }
{
    match ask {
        Ask::Write {
            minutes,
            fresh,
            cookie: None,
            ..
        } => stored(
            Kind::Done,
            true,
            *minutes,
            *fresh,
            None,
            t,
            end_of(profile, t),
        ),
        _ => Verdict {
            kind: Kind::Missing,
            change: Change::Cut,
        },
    }
}

/// What the session machine answers in this profile to a request at the moment `t`, and what
/// becomes of the item. `drawn` is the cookie that was drawn for an acquire, 0 where none was left.
/// It takes no memory.
pub fn decide(
    item: Option<&Item>,
    t: u64,
    request: &Request,
    drawn: u64,
    profile: Profile,
) -> Verdict
    requires item { IfSome (option_copied item) ItemFits }
    requires moment { t ≤ 2 ^ 62 }
    ensures { effect_of result (option_copied item.entry) request.now.ask
        ≡ effect profile (option_copied item.entry) t drawn request.now.ask }
{
    if let Ask::Acquire = request.ask {
        if drawn == 0 {
            return unchanged(Kind::CookiesOut);
        }
    }
    match item {
        None => on_absent(profile, &request.ask, t),
        Some(item) => {
            if !live(item, t) {
                return on_dead(profile, &request.ask, t);
            }
            match item.holder {
                None => on_free(item, &request.ask, t, drawn),
                Some(hold) => on_held(profile, item, hold, &request.ask, t),
            }
        }
    }
}

/// The reply of this kind. `Found` has the content of the item in common with it.
pub fn reply_of(kind: Kind, item: Option<&Item>) -> Result<Reply, NoMemory>
    ensures { IfOk result (λ reply. reply ≡ reply_of kind (option_copied item.entry)) }
{
    match kind {
        Kind::Found { cookie, first } => match item {
            Some(item) => Ok(Reply::Found {
                body: item.body.share()?,
                minutes: item.minutes,
                cookie: named(cookie),
                first,
            }),
            None => Ok(Reply::Bad),
        },
        Kind::Done => Ok(Reply::Done),
        Kind::Locked { cookie, age, since } => Ok(Reply::Locked { cookie, age, since }),
        Kind::Missing => Ok(Reply::Missing),
        Kind::CookiesOut => Ok(Reply::CookiesOut),
    }
}

/// The content that the ask brings: that of a write, and else none.
pub fn body_asked(alloc: Global, ask: Ask) -> Bytes
    ensures { result ≡ body_asked ask }
{
    match ask {
        Ask::Write { body, .. } => body,
        _ => Bytes::adopt(Vec::new(alloc)),
    }
}

/// The content behind a change: what the ask brings, or else what is there.
pub fn body_changed(alloc: Global, of_request: bool, ask: Ask, item: Option<Item>) -> Bytes
    ensures { result ≡ (if of_request then body_asked ask else body_there item) }
{
    if of_request {
        return body_asked(alloc, ask);
    }
    match item {
        Some(item) => item.body,
        None => Bytes::adopt(Vec::new(alloc)),
    }
}
