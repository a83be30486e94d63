//! The server whole: streams, doors and workers over one store, in memory and over sockets. The
//! crate has tests alone.
#![tactic(auto)]

#[cfg(test)]
mod clients;
#[cfg(test)]
mod gates;
#[cfg(test)]
mod history;
#[cfg(test)]
mod journals;
#[cfg(test)]
mod memory;
#[cfg(test)]
mod notes;
#[cfg(test)]
mod rude_peers;
#[cfg(test)]
mod serve_runs;
#[cfg(test)]
mod sockets;
#[cfg(test)]
mod streams;
#[cfg(test)]
mod visits;
