//! The plain spelling of asks and replies, which journals and scripts use.
ghost use Rattle.std.specs.Prelude.{◌≡◌, ◌++◌, codes, decimal, OnOk, OnErr};
ghost use Rattle.hex.specs.Hex.{encode_lower};
ghost use Rattle.asp_messages.specs.Appending.{Extends};
ghost use Rattle.asp_messages.specs.PlainSpelling.{◌then◌, cookie_word, flag_word, bytes_word, since_word, ask_spelling, reply_spelling, dated_spelling};

use crate::append::{or_undo, push, push_hex, then_number};
use crate::{Ask, Reply};
use asp_base::{Bytes, NoMemory};

fn then_cookie(out: &mut Vec<u8>, cookie: Option<u64>) -> Result<(), NoMemory>
    ensures ok { OnOk result (out.new.items ≡ out.old.items then cookie_word cookie) }
    ensures err { OnErr result (Extends out.old.items out.new.items) }
{
    then_number(out, cookie.unwrap_or(0))
}

fn then_flag(out: &mut Vec<u8>, flag: bool) -> Result<(), NoMemory>
    ensures ok { OnOk result (out.new.items ≡ out.old.items then flag_word flag) }
    ensures err { OnErr result (Extends out.old.items out.new.items) }
{
    push(out, if flag { b" 1" } else { b" 0" })
}

fn then_bytes(out: &mut Vec<u8>, bytes: &Bytes) -> Result<(), NoMemory>
    ensures ok { OnOk result (out.new.items ≡ out.old.items then bytes_word bytes.now) }
    ensures err { OnErr result (Extends out.old.items out.new.items) }
{
    push(out, b" x")?;
    push_hex(out, bytes.as_slice())
}

#[tactic(auto, unfolding(crate::specs::PlainSpelling::ask_spelling))]
fn push_ask(out: &mut Vec<u8>, ask: &Ask) -> Result<(), NoMemory>
    ensures ok { OnOk result (out.new.items ≡ out.old.items ++ ask_spelling ask.now) }
    ensures err { OnErr result (Extends out.old.items out.new.items) }
{
    match ask {
        Ask::Read => push(out, b"read"),
        Ask::Acquire => push(out, b"acquire"),
        Ask::Release { cookie } => {
            push(out, b"release")?;
            then_number(out, *cookie)
        }
        Ask::Write {
            body,
            minutes,
            fresh,
            cookie,
        } => {
            push(out, b"write")?;
            then_cookie(out, *cookie)?;
            then_number(out, *minutes)?;
            then_flag(out, *fresh)?;
            then_bytes(out, body)
        }
        Ask::Remove { cookie } => {
            push(out, b"remove")?;
            then_cookie(out, *cookie)
        }
        Ask::Reset => push(out, b"reset"),
    }
}

/// Appends the plain spelling of the ask. After `NoMemory` the buffer holds what it held.
pub fn spell_ask(out: &mut Vec<u8>, ask: &Ask) -> Result<(), NoMemory>
    ensures ok { OnOk result (out.new.items ≡ out.old.items ++ ask_spelling ask.now) }
    ensures err { OnErr result (out.new.items ≡ out.old.items) }
{
    let len = out.len();
    let written = push_ask(out, ask);
    or_undo(written, out, len)
}

#[tactic(auto, unfolding(crate::specs::PlainSpelling::reply_spelling))]
fn push_reply(out: &mut Vec<u8>, reply: &Reply) -> Result<(), NoMemory>
    ensures ok { OnOk result (out.new.items ≡ out.old.items ++ reply_spelling reply.now) }
    ensures err { OnErr result (Extends out.old.items out.new.items) }
{
    match reply {
        Reply::Found {
            body,
            minutes,
            cookie,
            first,
        } => {
            push(out, b"found")?;
            then_cookie(out, *cookie)?;
            then_number(out, *minutes)?;
            then_flag(out, *first)?;
            then_bytes(out, body)
        }
        Reply::Done => push(out, b"done"),
        Reply::Locked { cookie, age, .. } => {
            push(out, b"locked")?;
            then_number(out, *cookie)?;
            then_number(out, *age)
        }
        Reply::Missing => push(out, b"missing"),
        Reply::Bad => push(out, b"bad"),
        Reply::KeeperFault => push(out, b"keeper-fault"),
        Reply::NoMemory => push(out, b"no-memory"),
        Reply::CookiesOut => push(out, b"cookies-out"),
        Reply::PlacesOut => push(out, b"places-out"),
    }
}

/// Appends the plain spelling of the reply, without the moment of an acquisition. After `NoMemory`
/// the buffer holds what it held.
pub fn spell_reply(out: &mut Vec<u8>, reply: &Reply) -> Result<(), NoMemory>
    ensures ok { OnOk result (out.new.items ≡ out.old.items ++ reply_spelling reply.now) }
    ensures err { OnErr result (out.new.items ≡ out.old.items) }
{
    let len = out.len();
    let written = push_reply(out, reply);
    or_undo(written, out, len)
}

fn then_since(out: &mut Vec<u8>, since: Option<u64>) -> Result<(), NoMemory>
    ensures ok { OnOk result (out.new.items ≡ out.old.items then since_word since) }
    ensures err { OnErr result (Extends out.old.items out.new.items) }
{
    match since {
        None => push(out, b" -"),
        Some(since) => then_number(out, since),
    }
}

#[tactic(auto, unfolding(crate::specs::PlainSpelling::dated_spelling))]
fn push_dated(out: &mut Vec<u8>, reply: &Reply) -> Result<(), NoMemory>
    ensures ok { OnOk result (out.new.items ≡ out.old.items ++ dated_spelling reply.now) }
    ensures err { OnErr result (Extends out.old.items out.new.items) }
{
    match reply {
        Reply::Locked { cookie, age, since } => {
            push(out, b"locked")?;
            then_number(out, *cookie)?;
            then_number(out, *age)?;
            then_since(out, *since)
        }
        _ => push_reply(out, reply),
    }
}

/// Appends the plain spelling of the reply, with the moment of the acquisition behind the age of a
/// lock, `-` where it is not told. After `NoMemory` the buffer holds what it held.
pub fn spell_dated(out: &mut Vec<u8>, reply: &Reply) -> Result<(), NoMemory>
    ensures ok { OnOk result (out.new.items ≡ out.old.items ++ dated_spelling reply.now) }
    ensures err { OnErr result (out.new.items ≡ out.old.items) }
{
    let len = out.len();
    let written = push_dated(out, reply);
    or_undo(written, out, len)
}
