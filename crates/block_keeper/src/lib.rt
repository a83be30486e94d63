//! Keepers that set cookies aside, so that runs over the same items never draw a cookie twice.
#![tactic(auto)]

mod block_keeper;

pub use block_keeper::BlockKeeper;
