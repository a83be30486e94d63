//! Requests from the pieces of a stream: exactly the messages that the bytes spell, however they
//! are cut.
#![tactic(auto)]

mod request_head;
mod request_kind;

pub use request_head::parse_head;
pub use request_kind::{Next, RequestReader, Requests};
