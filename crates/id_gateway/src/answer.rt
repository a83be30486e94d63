//! An answer, and the text of its head.
ghost use Rattle.std.specs.Prelude.{◌≡◌, ◌++◌, length, OnOk, IfOk, take, codes};
ghost use Rattle.std.specs.Str.{bytes_eq};
ghost use Rattle.asp_messages.specs.ReplyText.{ending};
ghost use Rattle.id_gateway.specs.Answers as answers;

use asp_base::{Bytes, NoMemory};
use asp_messages::{push, push_number};
use session_id::Id;
use std::alloc::Global;

/// The status of an answer.
#[derive(Clone, Copy, Debug, PartialEq, Eq)]
pub enum Status {
    /// 200: the page ran.
    Ok,
    /// 302: the browser is sent to a path with an identifier.
    Found,
    /// 404: no page has the path.
    NotFound,
    /// 500: no identifier could be drawn.
    NoIdentifier,
    /// 503: the page's visit came to another outcome than that it was done.
    Unavailable,
}

/// An answer to a page request.
#[derive(Debug, Drop)]
pub struct Answer {
    /// Its status.
    pub status: Status,
    /// Where the browser is sent.
    pub location: Option<Bytes>,
    /// The new identifier that it carries.
    pub new_id: Option<Id>,
    /// Its body.
    pub body: Bytes,
}

/// The bytes of the status line, without its end.
fn status_text(status: Status) -> &'static [u8]
    ensures { result.now ≡ answers.status_text status }
{
    match status {
        Status::Ok => b"HTTP/1.1 200 OK",
        Status::Found => b"HTTP/1.1 302 Found",
        Status::NotFound => b"HTTP/1.1 404 Not Found",
        Status::NoIdentifier => b"HTTP/1.1 500 No Identifier",
        Status::Unavailable => b"HTTP/1.1 503 Session Unavailable",
    }
}

fn push_location(out: &mut Vec<u8>, location: &Option<Bytes>) -> Result<(), NoMemory>
    ensures { OnOk result (out.new.items ≡ out.old.items ++ answers.location_line location.now) }
{
    match location {
        None => Ok(()),
        Some(location) => {
            push(out, b"Location: ")?;
            push(out, location.as_slice())?;
            push(out, b"\r\n")
        }
    }
}

fn push_cookie(out: &mut Vec<u8>, new_id: Option<Id>) -> Result<(), NoMemory>
    ensures { OnOk result (out.new.items ≡ out.old.items ++ answers.set_cookie_line new_id) }
{
    match new_id {
        None => Ok(()),
        Some(id) => {
            push(out, b"Set-Cookie: ASP.NET_SessionId=")?;
            push(out, &id.text())?;
            push(out, b"; path=/; HttpOnly\r\n")
        }
    }
}

fn push_ending(out: &mut Vec<u8>, n: u64) -> Result<(), NoMemory>
    ensures { OnOk result (out.new.items ≡ out.old.items ++ ending n) }
{
    push(out, b"Content-Length: ")?;
    push_number(out, n)?;
    push(out, b"\r\n\r\n")
}

/// Appends the head of an answer. After want of memory the buffer holds what it held and maybe
/// more.
pub fn push_head(out: &mut Vec<u8>, answer: &Answer) -> Result<(), NoMemory>
    ensures { OnOk result (out.new.items ≡ out.old.items ++ answers.head_text answer.now) }
{
    push(out, status_text(answer.status))?;
    push(out, b"\r\n")?;
    push_location(out, &answer.location)?;
    push_cookie(out, answer.new_id)?;
    push_ending(out, answer.body.as_slice().len() as u64)
}

/// Whether the target begins with `/`.
fn is_rooted(target: &[u8]) -> bool
    ensures { result ≡ bytes_eq (take 1 target.now) (codes "/") }
{
    target.starts_with(b"/")
}

/// The target with the identifier in its path. The only error is want of memory.
pub fn location(alloc: Global, id: Id, target: &[u8]) -> Result<Bytes, NoMemory>
    ensures { IfOk result (λ text. text ≡ answers.location_of id target.now) }
{
    let mut out = Vec::new(alloc);
    push(&mut out, b"/(S(")?;
    push(&mut out, &id.text())?;
    push(&mut out, b"))")?;
    if !is_rooted(target) {
        push(&mut out, b"/")?;
    }
    push(&mut out, target)?;
    Ok(Bytes::adopt(out))
}
