//! Journals written: the first line, and a line for each entry.
ghost use Rattle.std.specs.Prelude.{◌≡◌, ◌++◌, take, OnOk, OnErr, is_ok, codes, decimal, if◌then◌else◌};
ghost use Rattle.hex.specs.Hex.{encode_lower};
ghost use Rattle.asp_messages.specs.Appending.{Extends};
ghost use Rattle.asp_messages.specs.PlainSpelling.{◌then◌, bytes_word};
ghost use Rattle.session_machine.specs.History.{IsFormed};
ghost use Rattle.plain_words.specs.Words.{AreBytes};
ghost use Rattle.journal_text.specs.WritingText.{PlaceFits, EntryFits, DeedHasBytes, AskHasBytes, ReplyHasBytes, TellsOnly, head_start, head_line, entry_line, number_words, key_word, deed_words, reply_words};

use asp_base::{Bytes, NoMemory};
use asp_messages::{
    Ask, Reply, or_undo, push, push_hex, push_number, spell_ask, spell_dated, spell_reply,
    then_number,
};
use session_machine::{Deed, Entry, Profile};

/// The most bytes of a line, without its line feed.
pub const MOST_JOURNAL_LINE: usize = 16_800_000;

fn push_bytes(out: &mut Vec<u8>, bytes: &Bytes) -> Result<(), NoMemory>
    ensures ok { OnOk result (out.new.items ≡ out.old.items ++ bytes_word bytes.now) }
    ensures err { OnErr result (Extends out.old.items out.new.items) }
{
    push(out, b"x")?;
    push_hex(out, bytes.as_slice())
}

fn push_key(out: &mut Vec<u8>, deed: &Deed) -> Result<(), NoMemory>
    ensures ok { OnOk result (out.new.items ≡ out.old.items ++ key_word deed.now) }
    ensures err { OnErr result (Extends out.old.items out.new.items) }
{
    match deed {
        Deed::Asked(request) => push_bytes(out, &request.key),
        Deed::Expired(key) => push_bytes(out, key),
        Deed::Looked => push(out, b"-"),
    }
}

fn push_deed(out: &mut Vec<u8>, deed: &Deed) -> Result<(), NoMemory>
    ensures ok { OnOk result (out.new.items ≡ out.old.items ++ deed_words deed.now) }
    ensures err { OnErr result (Extends out.old.items out.new.items) }
{
    match deed {
        Deed::Asked(request) => spell_ask(out, &request.ask),
        Deed::Expired(_) => push(out, b"expired"),
        Deed::Looked => push(out, b"looked"),
    }
}

/// Appends the key of the deed and what was done, each behind a space.
fn then_deed(out: &mut Vec<u8>, deed: &Deed) -> Result<(), NoMemory>
    ensures ok { OnOk result (out.new.items ≡ out.old.items then key_word deed.now then
        deed_words deed.now) }
    ensures err { OnErr result (Extends out.old.items out.new.items) }
{
    push(out, b" ")?;
    push_key(out, deed)?;
    push(out, b" ")?;
    push_deed(out, deed)
}

/// Appends the spelling of a reply in a journal of the profile. After `NoMemory` the buffer holds
/// what it held.
pub fn spell_in(out: &mut Vec<u8>, profile: Profile, reply: &Reply) -> Result<(), NoMemory>
    ensures ok { OnOk result (out.new.items ≡ out.old.items ++ reply_words profile reply.now) }
    ensures err { OnErr result (out.new.items ≡ out.old.items) }
{
    match profile {
        Profile::One | Profile::Two => spell_reply(out, reply),
        Profile::Three => spell_dated(out, reply),
    }
}

fn push_numbers(out: &mut Vec<u8>, entry: &Entry) -> Result<(), NoMemory>
    ensures ok { OnOk result (out.new.items ≡ out.old.items ++ number_words entry.now) }
    ensures err { OnErr result (Extends out.old.items out.new.items) }
{
    push_number(out, entry.caller)?;
    then_number(out, entry.moment)?;
    then_number(out, entry.faults)?;
    then_number(out, entry.drawn)
}

#[tactic(auto, unfolding(crate::specs::WritingText::entry_words))]
fn push_entry(out: &mut Vec<u8>, profile: Profile, entry: &Entry) -> Result<(), NoMemory>
    ensures ok { OnOk result (out.new.items ≡ out.old.items ++ entry_line profile entry.now) }
    ensures err { OnErr result (Extends out.old.items out.new.items) }
{
    push_numbers(out, entry)?;
    then_deed(out, &entry.deed)?;
    push(out, b" : ")?;
    spell_in(out, profile, &entry.reply)?;
    push(out, b"\n")
}

/// The words of a first line before its place, with the space behind them.
fn start_of(profile: Profile) -> &'static [u8]
    ensures { result.now ≡ head_start profile ++ codes " " }
{
    match profile {
        Profile::One => b"asp-journal 1 ",
        Profile::Two => b"asp-journal 2 ",
        Profile::Three => b"asp-journal 3 ",
    }
}

fn push_head(out: &mut Vec<u8>, profile: Profile, place: u64) -> Result<(), NoMemory>
    ensures ok { OnOk result (out.new.items ≡ out.old.items ++ head_line profile place) }
    ensures err { OnErr result (Extends out.old.items out.new.items) }
{
    push(out, start_of(profile))?;
    push_number(out, place)?;
    push(out, b"\n")
}

/// Bytes are bytes.
fn are_bytes(bytes: &[u8])
    ensures { AreBytes bytes.now }
{
    let _bytes = bytes;
}

fn deed_has_bytes(deed: &Deed)
    ensures { DeedHasBytes deed.now }
{
    match deed {
        Deed::Asked(request) => {
            are_bytes(request.key.as_slice());
            ask_has_bytes(&request.ask);
        }
        Deed::Expired(key) => are_bytes(key.as_slice()),
        Deed::Looked => {}
    }
}

fn ask_has_bytes(ask: &Ask)
    ensures { AskHasBytes ask.now }
{
    if let Ask::Write { body, .. } = ask {
        are_bytes(body.as_slice());
    }
}

fn reply_has_bytes(reply: &Reply)
    ensures { ReplyHasBytes reply.now }
{
    if let Reply::Found { body, .. } = reply {
        are_bytes(body.as_slice());
    }
}

/// An entry in range, whose reply tells what the profile tells, can be written: the types say that
/// its numbers and bytes fit. The function does nothing.
pub fn entry_fits(profile: Profile, entry: &Entry)
    requires formed { IsFormed entry.now }
    requires told { TellsOnly profile entry.now.reply }
    ensures { EntryFits profile entry.now }
{
    let _faults = entry.faults;
    deed_has_bytes(&entry.deed);
    reply_has_bytes(&entry.reply);
}

/// Appends the first line of a journal of the profile whose first entry has this place. After
/// `NoMemory` the buffer holds what it held.
pub fn write_head(out: &mut Vec<u8>, profile: Profile, place: u64) -> Result<(), NoMemory>
    requires { PlaceFits place }
    ensures ok { OnOk result (out.new.items ≡ out.old.items ++ head_line profile place) }
    ensures err { OnErr result (out.new.items ≡ out.old.items) }
{
    let len = out.len();
    let written = push_head(out, profile, place);
    or_undo(written, out, len)
}

/// Appends the line of an entry in a journal of the profile; before profile 3 its reply tells no
/// moment of an acquisition. After `NoMemory` the buffer holds what it held.
pub fn write_entry(out: &mut Vec<u8>, profile: Profile, entry: &Entry) -> Result<(), NoMemory>
    requires formed { IsFormed entry.now }
    requires told { TellsOnly profile entry.now.reply }
    ensures ok { OnOk result (out.new.items ≡ out.old.items ++ entry_line profile entry.now) }
    ensures err { OnErr result (out.new.items ≡ out.old.items) }

    // What the types say of the entry's numbers and bytes, whatever the result.
    ensures fits { EntryFits profile entry.now }
{
    entry_fits(profile, entry);
    let len = out.len();
    let written = push_entry(out, profile, entry);
    or_undo(written, out, len)
}
