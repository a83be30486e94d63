//! Journals that are written in order, mirrors of them, and the orders of a store's shards. The crate has tests alone.
#![tactic(auto)]

#[cfg(test)]
mod mirrors;
#[cfg(test)]
mod orders;
#[cfg(test)]
mod shelves;
