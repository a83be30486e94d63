//! Replies from the pieces of a stream: exactly the messages that the bytes spell, however they are
//! cut.
#![tactic(auto)]

mod reply_kind;
mod reply_reader;

pub use reply_reader::{ReplyNext, ReplyReader};
