//! The rules of one session's item: how long it lives, what each request does to it, and the
//! entries that a history is made of.
#![tactic(auto)]

mod decision;
mod entry;
mod item;

pub use decision::{Change, Kind, Verdict, body_asked, body_changed, decide, reply_of};
pub use entry::{Deed, Entry};
pub use item::{Hold, Item, Profile, age, end_of, expiry, live};
