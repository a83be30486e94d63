//! How a visit over a link ends.
use visit_core::Outcome;

/// How a visit over a link ended.
#[derive(Clone, Copy, Debug, PartialEq, Eq)]
pub enum VisitEnd {
    /// The visit came to this outcome; that of a link that failed is `Outcome::LinkFault`.
    Over(Outcome),
    /// The bytes received are no reply and can become none, or they ended before one was whole.
    BadReply,
    /// There was no memory for a request or a reply.
    NoMemory,
}
