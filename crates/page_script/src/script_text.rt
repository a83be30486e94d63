//! The texts that are printed, appended to a buffer. A call that runs out of memory leaves what was
//! there, with some of its text behind it, and `or_undo` takes that off again.
ghost use Rattle.std.specs.Prelude.{◌≡◌, ◌++◌, ◌∷◌, [], codes, decimal, take, option_copied, OnOk, OnErr, is_ok, if◌then◌else◌};
ghost use Rattle.hex.specs.Hex.{encode_lower};
ghost use Rattle.asp_messages.specs.Appending.{Extends};
ghost use Rattle.asp_messages.specs.PlainSpelling.{◌then◌, ask_spelling, reply_spelling};
ghost use Rattle.visit_core.specs.OutcomeText.{outcome_spelling};
ghost use Rattle.page_script.specs.World.{run_words};

use asp_base::{Bytes, NoMemory};
use asp_messages::{Ask, Reply, push, push_hex, push_number, spell_ask, spell_reply};
use visit_core::{Outcome, outcome_text};

/// The moment of a step and the page's name, and a space.
pub fn push_start(out: &mut Vec<u8>, t: u64, name: &[u8]) -> Result<(), NoMemory>
    ensures ok { OnOk result (out.new.items ≡ out.old.items
        ++ ((decimal t then name.now) ++ codes " ")) }
    ensures err { OnErr result (Extends out.old.items out.new.items) }
{
    push_number(out, t)?;
    push(out, b" ")?;
    push(out, name)?;
    push(out, b" ")
}

/// A wait until this moment, and a line feed.
pub fn push_wait(out: &mut Vec<u8>, moment: u64) -> Result<(), NoMemory>
    ensures ok { OnOk result (out.new.items ≡ out.old.items
        ++ ((codes "wait" then decimal moment) ++ 10 ∷ [])) }
    ensures err { OnErr result (Extends out.old.items out.new.items) }
{
    push(out, b"wait ")?;
    push_number(out, moment)?;
    push(out, b"\n")
}

/// A page that runs on this content and its first mark, and a line feed.
pub fn push_run(out: &mut Vec<u8>, content: Option<&Bytes>, first: bool) -> Result<(), NoMemory>
    ensures ok { OnOk result (out.new.items ≡ out.old.items
        ++ (run_words (option_copied content.entry) first ++ 10 ∷ [])) }
    ensures err { OnErr result (Extends out.old.items out.new.items) }
{
    match content {
        None => push(out, b"run none\n"),
        Some(content) => {
            push(out, if first { b"run 1 x" } else { b"run 0 x" })?;
            push_hex(out, content.as_slice())?;
            push(out, b"\n")
        }
    }
}

/// The outcome of a visit, and a line feed.
pub fn push_over(out: &mut Vec<u8>, outcome: &Outcome) -> Result<(), NoMemory>
    ensures ok { OnOk result (out.new.items ≡ out.old.items
        ++ ((codes "over" then outcome_spelling outcome.now) ++ 10 ∷ [])) }
    ensures err { OnErr result (Extends out.old.items out.new.items) }
{
    push(out, b"over ")?;
    push(out, outcome_text(outcome).as_slice())?;
    push(out, b"\n")
}

/// An ask, and what separates it from its reply.
pub fn push_ask(out: &mut Vec<u8>, ask: &Ask) -> Result<(), NoMemory>
    ensures ok { OnOk result (out.new.items ≡ out.old.items
        ++ (ask_spelling ask.now ++ codes " : ")) }
    ensures err { OnErr result (Extends out.old.items out.new.items) }
{
    spell_ask(out, ask)?;
    push(out, b" : ")
}

/// A reply, and a line feed.
pub fn push_reply(out: &mut Vec<u8>, reply: &Reply) -> Result<(), NoMemory>
    ensures ok { OnOk result (out.new.items ≡ out.old.items
        ++ (reply_spelling reply.now ++ 10 ∷ [])) }
    ensures err { OnErr result (Extends out.old.items out.new.items) }
{
    spell_reply(out, reply)?;
    push(out, b"\n")
}
