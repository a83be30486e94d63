//! The sessions that live at a moment, a line each.
#![tactic(auto)]

mod listing;

pub use listing::list_sessions;
