//! Sessions that threads share, without a lock: shards, each behind a turnstile of its own, and one
//! source of cookies.
#![tactic(auto)]

mod new_shards;
mod noted_turns;
mod notes;
mod store;
mod store_desk;
mod sweep;

pub use notes::{NoNotes, Noted, Notes, Placed};
pub use store::{Answer, FreshStore, Pass, Roll, Store, shard_of};
pub use store_desk::{Note, StoreDesk};
pub use sweep::{SweepCount, SweepEnd};
