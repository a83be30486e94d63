//! A journal that is read and judged: the commands `replay` and `mirror`.
#![tactic(auto)]

mod replay;
mod replay_verdict;
mod replayer;
mod report;

pub use replay::{run_mirror, run_replay};
pub use replay_verdict::{ReplayEnd, ReplayVerdict};
pub use report::ReplayReport;
