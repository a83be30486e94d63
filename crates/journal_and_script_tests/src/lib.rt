//! Journals and page scripts, which are read line by line. The crate has tests alone.
#![tactic(auto)]

#[cfg(test)]
mod drive_endings;
#[cfg(test)]
mod drive_scripts;
#[cfg(test)]
mod drives;
#[cfg(test)]
mod journal_reading;
#[cfg(test)]
mod journals;
#[cfg(test)]
mod lines;
#[cfg(test)]
mod listings;
#[cfg(test)]
mod replay_changes;
#[cfg(test)]
mod replay_endings;
#[cfg(test)]
mod replay_verdicts;
#[cfg(test)]
mod replays;
#[cfg(test)]
mod scripts;
#[cfg(test)]
mod verdicts;
#[cfg(test)]
mod word_tables;
