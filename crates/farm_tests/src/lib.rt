//! Page scripts over the servers of a farm, line by line and as whole runs. The crate has tests
//! alone.
#![tactic(auto)]

#[cfg(test)]
mod farm_runs;
#[cfg(test)]
mod farms;
#[cfg(test)]
mod scripts;
