//! Runs a page script: its lines come from a source, and the line of each step goes to a sink.
#![tactic(auto)]

mod drive;
mod driver;
mod script_verdict;

pub use drive::{run_drive, run_drive_over};
pub use script_verdict::{ScriptEnd, ScriptVerdict};
