//! The head of a request, by its grammar alone: what any kind of request begins with.
ghost use Rattle.std.specs.Prelude.{◌≤◌, ℕ, length, IfSome, IsNone};
ghost use Rattle.asp_messages.specs.Head.{most_head};
ghost use Rattle.request_reader.specs.RequestHeads.{IsRequestAnnounced, IsRequestParsed};

use httparse::Status;
use httparse::spans::{HeaderSpan, RequestSpans, parse_request};
use message_framing::body_length;

/// Where a head that ends with the text has its parts, and the length of the body that it
/// announces, in bytes. `None` where the text is no head, or announces no length.
pub fn parse_head(text: &[u8], headers: &mut [HeaderSpan; 64]) -> Option<(RequestSpans, u64)>
    requires { length text.now ≤ most_head }
    ensures head { IfSome result (λ r. IsRequestParsed text.now headers.new r.0 r.1) }
    ensures none { IsNone result → (len : ℕ) → IsRequestAnnounced text.now len → ⊥ }
{
    let Ok(Status::Complete(spans)) = parse_request(text, headers) else {
        return None;
    };
    if spans.len != text.len() {
        return None;
    }
    let body_len = body_length(text, &headers[..spans.headers])?;
    Some((spans, body_len))
}
