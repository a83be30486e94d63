//! A keeper over a database: its rows, a shard over it, and commands over it, from bytes to bytes.
//! The crate has tests alone.
#![tactic(auto)]

#[cfg(test)]
mod cookies;
#[cfg(test)]
mod damaged;
#[cfg(test)]
mod keepers;
#[cfg(test)]
mod moves;
#[cfg(test)]
mod old_file;
#[cfg(test)]
mod runs;
#[cfg(test)]
mod shards;
#[cfg(test)]
mod stops;
#[cfg(test)]
mod walks;
