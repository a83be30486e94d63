//! The journals of a store's shards, which are written while its callers come to it.
#![tactic(auto)]

mod shelf;

pub use shelf::Shelf;
