//! Both ends of the wire together: what one writes the other reads, in pieces of any size; and the
//! texts of messages. The crate has tests alone.
#![tactic(auto)]

#[cfg(test)]
mod largest;
#[cfg(test)]
mod look_counts;
#[cfg(test)]
mod replies;
#[cfg(test)]
mod requests;
#[cfg(test)]
mod spellings;
#[cfg(test)]
mod tests;
