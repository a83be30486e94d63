//! Runs a page script over the servers of a farm: its lines come from a source, and the line of
//! each step goes to a sink, with its server's number in front.
#![tactic(auto)]

mod driver;
mod farm_run;
mod farm_words;

pub use farm_run::{FarmRan, farm, run_farm};
pub use farm_words::farm_of;
