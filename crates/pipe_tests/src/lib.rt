//! Whole runs of the commands that need no database, socket or host, from bytes to bytes. The crate
//! has tests alone.
#![tactic(auto)]

#[cfg(test)]
mod edges;
#[cfg(test)]
mod endings;
#[cfg(test)]
mod exchanges;
#[cfg(test)]
mod full_sinks;
#[cfg(test)]
mod heads;
#[cfg(test)]
mod journals;
#[cfg(test)]
mod keeper_failures;
#[cfg(test)]
mod load_counts;
#[cfg(test)]
mod loads;
#[cfg(test)]
mod openings;
#[cfg(test)]
mod pieces;
#[cfg(test)]
mod running;
#[cfg(test)]
mod scripts;
#[cfg(test)]
mod stream_failures;
