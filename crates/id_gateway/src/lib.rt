//! A gateway before web pages: it finds or makes the session identifier of each page request, runs
//! the page over a visit to one desk, and answers.
#![tactic(auto)]

mod answer;
mod gatekeeper;
mod host_random;
mod list_random;
mod random;
mod serving;
mod top_call;
mod words;

pub use host_random::HostRandom;
pub use list_random::ListRandom;
pub use random::Random;
pub use top_call::{Gated, gateway};
pub use words::is_gate;
