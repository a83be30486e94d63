//! The entries of a history.
use asp_base::Bytes;
use asp_messages::{Reply, Request};

/// What was done at one place of a history.
#[derive(Debug, PartialEq, Eq, Drop)]
pub enum Deed {
    /// A request was answered.
    Asked(Request),
    /// The item of this key had expired, and was removed.
    Expired(Bytes),
    /// Somebody looked for an expired item; nothing was changed.
    Looked,
}

/// One place of a history.
#[derive(Debug, PartialEq, Eq, Drop)]
pub struct Entry {
    /// The number of the caller, from 0.
    pub caller: u64,
    /// The moment of the deed, in milliseconds, at most 2^62.
    pub moment: u64,
    /// What was done.
    pub deed: Deed,
    /// The cookie that was drawn for it, 0 where none was.
    pub drawn: u64,
    /// What was answered.
    pub reply: Reply,
    /// How many faults the keeper of the items had counted after it.
    pub faults: u64,
}
