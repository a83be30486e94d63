//! The store that threads share and what it is made of: keepers, shards, desks, cookies and turns.
//! The crate has tests alone.
#![tactic(auto)]

#[cfg(test)]
mod cookies;
#[cfg(test)]
mod desks;
#[cfg(test)]
mod gates;
#[cfg(test)]
mod given;
#[cfg(test)]
mod histories;
#[cfg(test)]
mod keepers;
#[cfg(test)]
mod noted;
#[cfg(test)]
mod sharding;
#[cfg(test)]
mod shards;
#[cfg(test)]
mod sweeps;
#[cfg(test)]
mod threads;
#[cfg(test)]
mod turns;
