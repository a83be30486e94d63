//! Which of several places has a session: a shard of a store, or a server of a farm.
#![tactic(auto)]

mod hash;
mod servers;

pub use hash::byte_hash;
pub use servers::{MOST_SERVERS, identifier_in, server_of};
