//! Visits: by themselves, over a link in memory, and by the words of a command line. The crate has
//! tests alone.
#![tactic(auto)]

#[cfg(test)]
mod links;
#[cfg(test)]
mod pages;
#[cfg(test)]
mod texts;
#[cfg(test)]
mod visit_commands;
