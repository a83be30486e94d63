//! The sessions that live at a moment, a line each.
ghost use Rattle.std.specs.Prelude.{◌≡◌, ◌++◌, ℕ, List, Option, codes, decimal, OnOk, OnErr, IfOk};
ghost use Rattle.std.specs.Cmp.Lexicographic.{slice_cmp};
ghost use Rattle.std.specs.List.Sorted.{IsStrictlySortedBy};
ghost use Rattle.std.specs.Map.{keys_of};
ghost use Rattle.std.specs.Ordering.{nat_cmp};
ghost use Rattle.asp_messages.specs.Appending.{Extends};
ghost use Rattle.asp_messages.specs.PlainSpelling.{◌then◌, bytes_word, flag_word};
ghost use Rattle.session_machine.specs.declared.item.Item.{Item as AnItem};
ghost use Rattle.session_machine.specs.Liveness.{ItemFits, is_live};
ghost use Rattle.journal_text.specs.JudgingChecker.{item_among};
ghost use Rattle.journal_text.specs.JudgingDeeds.{ItemsFit};
ghost use Rattle.session_listing.specs.Listing.{ListsSessions, cookie_of, count_line, item_line, line_at, line_behind, line_start, sessions_text, since_of};

use asp_base::{Bytes, NoMemory};
use asp_messages::{or_undo, push, push_hex, push_number, then_number};
use session_machine::{Hold, Item, live};
use std::collections::BTreeMap;

fn push_bytes(out: &mut Vec<u8>, bytes: &Bytes) -> Result<(), NoMemory>
    ensures ok { OnOk result (out.new.items ≡ out.old.items ++ bytes_word bytes.now) }
    ensures err { OnErr result (Extends out.old.items out.new.items) }
{
    push(out, b"x")?;
    push_hex(out, bytes.as_slice())
}

fn then_bytes(out: &mut Vec<u8>, bytes: &Bytes) -> Result<(), NoMemory>
    ensures ok { OnOk result (out.new.items ≡ out.old.items then bytes_word bytes.now) }
    ensures err { OnErr result (Extends out.old.items out.new.items) }
{
    push(out, b" ")?;
    push_bytes(out, bytes)
}

fn then_flag(out: &mut Vec<u8>, flag: bool) -> Result<(), NoMemory>
    ensures ok { OnOk result (out.new.items ≡ out.old.items then flag_word flag) }
    ensures err { OnErr result (Extends out.old.items out.new.items) }
{
    push(out, b" ")?;
    push(out, if flag { b"1" } else { b"0" })
}

/// The cookie and the moment of a lock, 0 where there is none.
fn numbers_of(holder: Option<Hold>) -> (u64, u64)
    ensures cookie { result.0 ≡ cookie_of holder }
    ensures since { result.1 ≡ since_of holder }
{
    match holder {
        Some(hold) => (hold.cookie, hold.since),
        None => (0, 0),
    }
}

/// Appends the cookie and the moment of a lock, each behind a space.
fn then_holder(out: &mut Vec<u8>, holder: Option<Hold>) -> Result<(), NoMemory>
    ensures ok { OnOk result (out.new.items
        ≡ out.old.items then decimal (cookie_of holder) then decimal (since_of holder)) }
    ensures err { OnErr result (Extends out.old.items out.new.items) }
{
    let (cookie, since) = numbers_of(holder);
    then_number(out, cookie)?;
    then_number(out, since)
}

/// Appends the key, and the cookie and the moment of its lock, each of these behind a space.
fn push_start(out: &mut Vec<u8>, key: &Bytes, holder: Option<Hold>) -> Result<(), NoMemory>
    ensures ok { OnOk result (out.new.items ≡ out.old.items ++ line_start key.now holder) }
    ensures err { OnErr result (Extends out.old.items out.new.items) }
{
    push_bytes(out, key)?;
    then_holder(out, holder)
}

/// Appends how long the item lives and whether it has the uninitialized mark, each behind a space.
fn then_life(out: &mut Vec<u8>, item: &Item) -> Result<(), NoMemory>
    ensures ok { OnOk result (out.new.items
        ≡ out.old.items then decimal item.now.minutes then flag_word item.now.fresh) }
    ensures err { OnErr result (Extends out.old.items out.new.items) }
{
    then_number(out, item.minutes)?;
    then_flag(out, item.fresh)
}

/// Appends when it was touched and when it ends, each behind a space.
fn then_moments(out: &mut Vec<u8>, item: &Item) -> Result<(), NoMemory>
    ensures ok { OnOk result (out.new.items
        ≡ out.old.items then decimal item.now.touched then decimal item.now.ends) }
    ensures err { OnErr result (Extends out.old.items out.new.items) }
{
    then_number(out, item.touched)?;
    then_number(out, item.ends)
}

/// Appends the content of the item behind a space, and ends the line.
fn end_line(out: &mut Vec<u8>, body: &Bytes) -> Result<(), NoMemory>
    ensures ok { OnOk result (out.new.items
        ≡ (out.old.items then bytes_word body.now) ++ codes "\n") }
    ensures err { OnErr result (Extends out.old.items out.new.items) }
{
    then_bytes(out, body)?;
    push(out, b"\n")
}

/// Appends all but the start of the item's line.
fn then_item(out: &mut Vec<u8>, item: &Item) -> Result<(), NoMemory>
    ensures ok { OnOk result (out.new.items ≡ line_behind out.old.items item.now) }
    ensures err { OnErr result (Extends out.old.items out.new.items) }
{
    then_life(out, item)?;
    then_moments(out, item)?;
    end_line(out, &item.body)
}

/// Appends the line of an item.
fn push_item(out: &mut Vec<u8>, key: &Bytes, item: &Item) -> Result<(), NoMemory>
    ensures ok { OnOk result (out.new.items ≡ out.old.items ++ item_line key.now item.now) }
    ensures err { OnErr result (Extends out.old.items out.new.items) }
{
    push_start(out, key, item.holder)?;
    then_item(out, item)
}

/// Appends the line of an item that lives at the moment, and answers whether it does.
fn push_live(out: &mut Vec<u8>, key: &Bytes, item: &Item, t: u64) -> Result<bool, NoMemory>
    requires { ItemFits item.now }
    ensures lives { IfOk result (λ lives. lives ≡ is_live item.now t) }
    ensures ok { OnOk result (out.new.items ≡ out.old.items ++ line_at t key.now item.now) }
    ensures err { OnErr result (Extends out.old.items out.new.items) }
{
    if live(item, t) {
        push_item(out, key, item)?;
        Ok(true)
    } else {
        Ok(false)
    }
}

/// Appends how many there are.
#[tactic(auto, unfolding(crate::specs::Listing::count_line))]
fn push_count(out: &mut Vec<u8>, count: u64) -> Result<(), NoMemory>
    ensures ok { OnOk result (out.new.items ≡ out.old.items ++ count_line count) }
    ensures err { OnErr result (Extends out.old.items out.new.items) }
{
    push(out, b"sessions ")?;
    push_number(out, count)?;
    push(out, b"\n")
}

fn push_sessions(out: &mut Vec<u8>, items: &BTreeMap<Bytes, Item>, t: u64) -> Result<(), NoMemory>
    requires { ItemsFit items.now.entries }
    ensures ok { OnOk result (out.new.items ≡ out.old.items ++ sessions_text t items.now.entries) }
    ensures err { OnErr result (Extends out.old.items out.new.items) }
    ensures ordered { IsStrictlySortedBy (slice_cmp nat_cmp) (keys_of items.now.entries) }
{
    let mut count: u64 = 0;
    for (key, item) in items {
        if push_live(out, key, item, t)? {
            count += 1;
        }
    }
    push_count(out, count)
}

/// Appends the line `KEY COOKIE SINCE MINUTES FRESH TOUCHED ENDS BODY` of each item that lives at
/// the moment `t`, in milliseconds, in the order of the keys, and then `sessions` and how many they
/// are. Key and body are `x` and two lower-case hexadecimal digits a byte; a free item has cookie 0
/// and since 0. Moments are in milliseconds. After `NoMemory` the buffer holds what it held.
pub fn list_sessions(
    out: &mut Vec<u8>,
    items: &BTreeMap<Bytes, Item>,
    t: u64,
) -> Result<(), NoMemory>
    requires { ItemsFit items.now.entries }

    ensures ok { OnOk result (out.new.items
        ≡ out.old.items ++ sessions_text t items.now.entries) }

    // That is the listing of what the keys have.
    ensures lists { (at : List ℕ → Option AnItem)
        → ((key : List ℕ) → item_among items.now.entries key ≡ at key)
        → ListsSessions t at (sessions_text t items.now.entries) }
    ensures err { OnErr result (out.new.items ≡ out.old.items) }
{
    let len = out.len();
    let written = push_sessions(out, items, t);
    or_undo(written, out, len)
}
