//! One page's visit to the state server, as its web server's session module makes it: what to send
//! next, how long to wait, when the page runs, and how the visit ends. No call takes memory.
#![tactic(auto)]

mod act;
mod laws;
mod outcome;
mod stage;
mod visit;
mod visit_terms;

pub use act::{Act, Ending, Heard};
pub use laws::releases_only_an_old_lock;
pub use outcome::{Outcome, OutcomeText, outcome_text};
pub use visit::Visit;
pub use visit_terms::{Limits, MOST_EXECUTION_SECS, MOST_POLL_MS, MOST_POLLS, Need, limits_fit};
