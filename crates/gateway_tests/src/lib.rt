//! Whole runs of the gateway, from bytes to bytes. The crate has tests alone.
#![tactic(auto)]

#[cfg(test)]
mod answers;
#[cfg(test)]
mod bad_input;
#[cfg(test)]
mod failures;
#[cfg(test)]
mod host_values;
#[cfg(test)]
mod running;
#[cfg(test)]
mod visits;
