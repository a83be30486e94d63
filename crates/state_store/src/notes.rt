//! The entries that turns left, as they are given to the callers, and who is told of them.
ghost use Rattle.std.specs.Prelude.{◌<◌};
ghost use Rattle.session_machine.specs.History.{IsFormed};
ghost use Rattle.turnstile.specs.TurnRule.{end_of_places};

use session_machine::Entry;
use std::sync::Wait;

/// What a turn came to whose entry is given to the caller.
#[derive(Debug, PartialEq, Eq, Drop)]
pub enum Noted {
    /// No place was left, and nothing was done.
    PlacesOut,
    /// The turn had a place.
    Placed(Placed),
}

/// An entry, and where it stands.
#[derive(Debug, PartialEq, Eq, Drop)]
pub struct Placed {
    /// The shard, from 0.
    pub shard: u64,
    /// The place in the history of the shard, from the store's first place on.
    pub place: u64,
    /// The entry.
    pub entry: Entry,
}

/// Who is told of the entries that callers leave: of each one once, by the caller that left it,
/// behind its turn. So the entries of a shard come in any order.
pub trait Notes {
    /// Whether entries are wanted. Where they aren't, callers make none of their requests.
    fn wants(&self) -> bool;

    /// Takes an entry, which is well formed, and its place.
    fn take<R: Wait>(&self, rt: &R, placed: Placed)
        requires place { placed.place < end_of_places }
        requires entry { IsFormed placed.entry };
}

/// Nobody is told.
#[derive(Clone, Copy, Debug, Drop)]
pub struct NoNotes;

impl Notes for NoNotes {
    fn wants(&self) -> bool {
        false
    }

    fn take<R: Wait>(&self, _rt: &R, _placed: Placed) {}
}
