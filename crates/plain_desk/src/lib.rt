//! A desk on one thread: a shard of the store and the cookies that are left. Each request, and each
//! look for an expired item, is one entry of the history that the desk stands for.
#![tactic(auto)]

mod plain_desk;

pub use plain_desk::{Acted, PlainDesk};
