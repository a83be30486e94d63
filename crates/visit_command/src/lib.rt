//! The command `visit`: one page's visit by the words of a command line.
#![tactic(auto)]

mod hex_word;
mod server_port;
mod visit_outcome;
mod visit_words;

pub use visit_outcome::visit;
pub use visit_words::{PageWords, read_visit, visit_port};
