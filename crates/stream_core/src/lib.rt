//! One connection without its source and sink: the requests that its bytes spell, and the heads of
//! their replies.
#![tactic(auto)]

mod stream;

pub use request_reader::Next;
pub use stream::Stream;
