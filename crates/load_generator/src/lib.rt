//! The load generator: requests by the numbers of a seed, answered by one desk, and their replies
//! counted.
#![tactic(auto)]

mod generator;
mod load;
mod load_sweep;
mod status_counts;

pub use load::{Load, run_load};
