//! The answer to a request, from the pieces that a link gives.
ghost use Rattle.std.specs.Prelude.{◌≡◌, ◌≤◌, ◌<◌, ℕ, List, length, [], false, IsTrue, IfOk, OnOk, OnErr, IfErr};
ghost use Rattle.asp_base.specs.Causes.{Rose};
ghost use Rattle.asp_base.specs.Outside.{IsAtEnd};
ghost use Rattle.message_framing.specs.ReaderState.{fed, most_held};
ghost use Rattle.page_link.specs.Links.{Receives};
ghost use Rattle.page_link.specs.Exchanges.{Hears, HearsNone};

use crate::exchange::Break;
use crate::link::Link;
use asp_base::{Failed, MOST_PIECE, NoMemory};
use reply_reader::{ReplyNext, ReplyReader};
use visit_core::Heard;

/// Receives a piece and feeds it to the reader. At the end of the bytes to be received the answer
/// is bad: it is not whole.
fn receive_piece<R, L: Link>(rt: &R, reader: &mut ReplyReader, link: &mut L) -> Result<(), Break>
    requires may_feed { IsTrue reader.old.bytes.may_feed }
    ensures fed { OnOk result ((piece : List ℕ) × (0 < length piece)
        × Receives (L.told link.old) (L.told link.new) piece
        × (reader.new.bytes ≡ fed reader.old.bytes piece)) }
    ensures bound { OnOk result (length reader.new.bytes.held ≤ most_held) }
    ensures none { OnErr result ((piece : List ℕ)
        × Receives (L.told link.old) (L.told link.new) piece) }
    ensures end { result ≡ Err Break.BadReply → Receives (L.told link.old) (L.told link.new) []
        × IsAtEnd (L.told link.new) }
    ensures lost { result ≡ Err Break.LinkFault → Rose (L.faults link.old) (L.faults link.new) }
    ensures pauses { L.pauses link.new ≡ L.pauses link.old }
    ensures faults { L.faults link.old ≤ L.faults link.new }
{
    let mut buf = [0u8; MOST_PIECE];
    let count = match link.receive(rt, &mut buf) {
        Ok(count) => count,
        Err(Failed) => return Err(Break::LinkFault),
    };
    if count == 0 {
        return Err(Break::BadReply);
    }
    match reader.feed(&buf[..count]) {
        Ok(()) => Ok(()),
        Err(NoMemory) => Err(Break::NoMemory),
    }
}

/// The first answer of the bytes held and those still to be received.
pub fn hear<R, L: Link>(rt: &R, reader: &mut ReplyReader, link: &mut L) -> Result<Heard, Break>
    requires whole { reader.old.bytes.is_broken ≡ false }
    ensures heard { IfOk result (Hears (L.told link.old) (L.told link.new)
        reader.old.bytes.held reader.new.bytes.held) }
    ensures whole { OnOk result (reader.new.bytes.is_broken ≡ false) }
    ensures none { IfErr result (HearsNone (L.told link.old) (L.told link.new)
        reader.old.bytes.held) }
    ensures lost { result ≡ Err Break.LinkFault → Rose (L.faults link.old) (L.faults link.new) }
    ensures pauses { L.pauses link.new ≡ L.pauses link.old }
    ensures faults { L.faults link.old ≤ L.faults link.new }
{
    loop {
        match reader.next() {
            ReplyNext::Reply(reply) => return Ok(Heard::Reply(reply)),
            ReplyNext::Strange { status } => return Ok(Heard::Strange(status)),
            ReplyNext::More => {}
            ReplyNext::Broken => return Err(Break::BadReply),
            ReplyNext::NoMemory => return Err(Break::NoMemory),
        }
        if let Err(broken) = receive_piece(rt, reader, link) {
            return Err(broken);
        }
    }
}
