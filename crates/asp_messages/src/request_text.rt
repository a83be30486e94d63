//! The canonical text of a request.
ghost use Rattle.std.specs.Prelude.{◌≡◌, ◌++◌, length, codes, OnOk, OnErr};
ghost use Rattle.percent_encoding.specs.Iter.{encoded_text};
ghost use Rattle.asp_messages.specs.Appending.{Extends};
ghost use Rattle.asp_messages.specs.ReplyText.{cookie_line};
ghost use Rattle.asp_messages.specs.RequestText.{target_text, verb_text, start_lines, fresh_line, ask_fields, content_of, request_text};

use crate::append::{or_undo, push, push_line, push_number_line};
use crate::{Ask, Request};
use asp_base::{Bytes, NoMemory};
use percent_encoding::{AsciiSet, NON_ALPHANUMERIC, PercentEncode, ascii_set, percent_encode};

/// The ASCII bytes of a key that are escaped in a target.
const ESCAPED: AsciiSet = ascii_set!(
    NON_ALPHANUMERIC
        .remove(b'-')
        .remove(b'.')
        .remove(b'_')
        .remove(b'~')
        .remove(b'(')
        .remove(b')')
);

fn verb(ask: &Ask) -> &'static [u8]
    ensures { result.now ≡ verb_text ask.now }
{
    match ask {
        Ask::Read | Ask::Acquire | Ask::Release { .. } => b"GET",
        Ask::Write { .. } => b"PUT",
        Ask::Remove { .. } => b"DELETE",
        Ask::Reset => b"HEAD",
    }
}

fn content(ask: &Ask) -> &[u8]
    ensures { result.now ≡ content_of ask.now }
{
    match ask {
        Ask::Write { body, .. } => body.as_slice(),
        _ => &[],
    }
}

fn push_encoded(out: &mut Vec<u8>, text: PercentEncode<'_>) -> Result<(), NoMemory>
    ensures ok { OnOk result (out.new.items ≡ out.old.items ++ encoded_text text.entry) }
    ensures err { OnErr result (Extends out.old.items out.new.items) }
{
    for piece in text {
        push(out, piece.as_bytes())?;
    }
    Ok(())
}

fn push_target(out: &mut Vec<u8>, key: &Bytes) -> Result<(), NoMemory>
    ensures ok { OnOk result (out.new.items ≡ out.old.items ++ target_text key.now) }
    ensures err { OnErr result (Extends out.old.items out.new.items) }
{
    push_encoded(out, percent_encode(key.as_slice(), ESCAPED))
}

fn push_start(out: &mut Vec<u8>, request: &Request) -> Result<(), NoMemory>
    ensures ok { OnOk result (out.new.items ≡ out.old.items
        ++ start_lines (verb_text request.now.ask) (target_text request.now.key)) }
    ensures err { OnErr result (Extends out.old.items out.new.items) }
{
    push(out, verb(&request.ask))?;
    push(out, b" ")?;
    push_target(out, &request.key)?;
    push_line(out, b" HTTP/1.1")?;
    push_line(out, b"Host: state")
}

fn push_cookie(out: &mut Vec<u8>, cookie: Option<u64>) -> Result<(), NoMemory>
    ensures ok { OnOk result (out.new.items ≡ out.old.items ++ cookie_line cookie) }
    ensures err { OnErr result (Extends out.old.items out.new.items) }
{
    match cookie {
        Some(cookie) => push_number_line(out, b"LockCookie", cookie),
        None => Ok(()),
    }
}

fn push_fresh(out: &mut Vec<u8>, fresh: bool) -> Result<(), NoMemory>
    ensures ok { OnOk result (out.new.items ≡ out.old.items ++ fresh_line fresh) }
    ensures err { OnErr result (Extends out.old.items out.new.items) }
{
    if fresh {
        push_line(out, b"ExtraFlags: 1")
    } else {
        Ok(())
    }
}

fn push_fields(out: &mut Vec<u8>, ask: &Ask) -> Result<(), NoMemory>
    ensures ok { OnOk result (out.new.items ≡ out.old.items ++ ask_fields ask.now) }
    ensures err { OnErr result (Extends out.old.items out.new.items) }
{
    match ask {
        Ask::Read | Ask::Reset => Ok(()),
        Ask::Acquire => push_line(out, b"Exclusive: acquire"),
        Ask::Release { cookie } => {
            push_line(out, b"Exclusive: release")?;
            push_number_line(out, b"LockCookie", *cookie)
        }
        Ask::Write {
            body,
            minutes,
            fresh,
            cookie,
        } => {
            push_number_line(out, b"Timeout", *minutes)?;
            push_fresh(out, *fresh)?;
            push_cookie(out, *cookie)?;
            push_number_line(out, b"Content-Length", body.as_slice().len() as u64)
        }
        Ask::Remove { cookie } => push_cookie(out, *cookie),
    }
}

#[tactic(auto, unfolding(crate::specs::RequestText::request_text))]
fn push_request(out: &mut Vec<u8>, request: &Request) -> Result<(), NoMemory>
    ensures ok { OnOk result (out.new.items ≡ out.old.items ++ request_text request.now) }
    ensures err { OnErr result (Extends out.old.items out.new.items) }
{
    push_start(out, request)?;
    push_fields(out, &request.ask)?;
    push_line(out, b"")?;
    push(out, content(&request.ask))
}

/// Appends the canonical text of the request. After `NoMemory` the buffer holds what it held.
pub fn write_request(out: &mut Vec<u8>, request: &Request) -> Result<(), NoMemory>
    ensures ok { OnOk result (out.new.items ≡ out.old.items ++ request_text request.now) }
    ensures err { OnErr result (out.new.items ≡ out.old.items) }
{
    let len = out.len();
    let written = push_request(out, request);
    or_undo(written, out, len)
}
