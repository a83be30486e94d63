//! An item, how long it lives, and the profiles of the rules. A journal names its profile, so that
//! it is judged by the rules under which it was written.
ghost use Rattle.std.specs.Prelude.{◌≡◌, ◌≤◌, ◌^◌, IfOk};
ghost use Rattle.session_machine.specs.Liveness as liveness;
ghost use Rattle.session_machine.specs.Profiles as profiles;

use asp_base::{Bytes, NoMemory};

/// The lock on an item.
#[derive(Clone, Copy, Debug, PartialEq, Eq)]
pub struct Hold {
    /// The cookie that was drawn for it, at least 1.
    pub cookie: u64,
    /// The moment of the acquisition, in milliseconds.
    pub since: u64,
}

/// What the server keeps of one session.
#[derive(Debug, PartialEq, Eq, Drop)]
pub struct Item {
    /// The content, at most 4,194,304 bytes.
    pub body: Bytes,
    /// How long it lives untouched, 1 to 525,600 minutes.
    pub minutes: u64,
    /// Whether it has the uninitialized mark, of which its next reader is told.
    pub fresh: bool,
    /// The lock on it, where there is one.
    pub holder: Option<Hold>,
    /// The last moment at which it was touched, in milliseconds, at most 2^62.
    pub touched: u64,
    /// The moment at which it ends, however often it is touched, in milliseconds, below 2^63.
    pub ends: u64,
}

impl Item {
    /// The item once more, as another owner of its content, which is not copied once it is shared.
    pub fn share(&self) -> Result<Item, NoMemory>
        ensures { IfOk result (λ other. other ≡ self.now) }
    {
        Ok(Item {
            body: self.body.share()?,
            ..*self
        })
    }

    /// The same item, of whose content `share` makes no copy.
    pub fn into_shared(self) -> Result<Item, NoMemory>
        ensures { IfOk result (λ other. other ≡ self) }
    {
        Ok(Item {
            body: self.body.into_shared()?,
            ..self
        })
    }
}

/// The moment from which on the item counts as absent, in milliseconds.
pub fn expiry(item: &Item) -> u64
    requires { liveness.ItemFits item.now }
    ensures { result ≡ liveness.expiry item.now }
{
    (item.touched + item.minutes * 60_000).min(item.ends)
}

/// Whether the item still lives at the moment `t`.
pub fn live(item: &Item, t: u64) -> bool
    requires { liveness.ItemFits item.now }
    ensures { result ≡ liveness.is_live item.now t }
{
    t < expiry(item)
}

/// How long the lock has been held at the moment `t`, in whole seconds; 0 before the acquisition.
pub fn age(hold: &Hold, t: u64) -> u64
    ensures { result ≡ liveness.age hold.now t }
{
    t.saturating_sub(hold.since) / 1000
}

/// A profile of the rules.
#[derive(Clone, Copy, Debug, PartialEq, Eq)]
pub enum Profile {
    /// The first rules: an item lives for as long as it is touched in time.
    One,
    /// An item ends one day after it began, however often it is touched.
    Two,
    /// Besides, a reply that a lock is in the way tells the moment of its acquisition. This is the
    /// newest profile: what is served now goes by it.
    Three,
}

/// The end of no item: the last moment that an item can have as its end.
const NEVER: u64 = (1 << 63) - 1;

/// How long an item lives at most from profile 2 on, in milliseconds: one day.
const WHOLE_LIFE: u64 = 86_400_000;

/// When an item that begins at the moment `t` ends, however often it is touched.
pub fn end_of(profile: Profile, t: u64) -> u64
    requires { t ≤ 2 ^ 62 }
    ensures { result ≡ profiles.end_of profile t }
{
    match profile {
        Profile::One => NEVER,
        Profile::Two | Profile::Three => t + WHOLE_LIFE,
    }
}

/// The moment of the acquisition, where a reply tells it.
pub fn told_since(profile: Profile, hold: &Hold) -> Option<u64>
    ensures { result ≡ profiles.told_since profile hold.now }
{
    match profile {
        Profile::One | Profile::Two => None,
        Profile::Three => Some(hold.since),
    }
}
