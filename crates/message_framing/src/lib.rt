//! What the readers of requests and of replies share: the fields of a head, where a head ends, and
//! a reader of messages of any kind.
#![tactic(auto)]

mod head;
mod message_reader;

pub use head::{
    FieldOccurrence, MOST_HEAD, body_length, find_field, lock_cookie, number_needed, number_or,
};
pub use message_reader::{Begun, Found, MOST_HELD, MessageKind, MessageReader};
