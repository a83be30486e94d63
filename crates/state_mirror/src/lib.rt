//! Journals of shards, written in the order of their places and read back.
#![tactic(auto)]

mod mirror;
mod order;
mod spelled_entry;

pub use mirror::{Mirror, MirrorNext};
pub use order::{Handed, Order, Stop};
pub use spelled_entry::SpelledEntry;
