//! The journals of a server's shards in files: a sink that gathers what it takes, and the new files
//! of a folder.
#![tactic(auto)]

mod gathering_sink;
mod shard_files;
#[cfg(test)]
mod tests;

pub use gathering_sink::{GATHERED, GatheringSink};
pub use shard_files::{NotMade, ShardFile, make_shard_files, remove_shard_files};
