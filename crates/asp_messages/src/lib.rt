//! Requests and replies of the state server protocol: the values, the texts that spell them, and
//! the stream that a connection's bytes are.
#![tactic(auto)]

mod append;
mod laws;
mod plain_spelling;
mod reply;
mod request;
mod request_text;
mod wire;

pub use append::{or_undo, push, push_hex, push_number, then_number};
pub use laws::{one_stream, waiting_is_short};
pub use plain_spelling::{spell_ask, spell_dated, spell_reply};
pub use reply::{
    MOST_AGE, MOST_SINCE, Reply, ReplyHead, reply_body, reply_fits, reply_head, status_of,
};
pub use request::{
    Ask, MOST_BODY, MOST_COOKIE, MOST_KEY, MOST_MINUTES, Message, Request, named, request_fits,
};
pub use request_text::write_request;
pub use wire::{
    one_reply_stream, reply_round_trip, request_round_trip, spelled_is_in_range,
    waiting_reply_is_short,
};
