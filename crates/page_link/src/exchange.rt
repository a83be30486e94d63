//! One request and its answer.
ghost use Rattle.std.specs.Prelude.{◌≡◌, ◌≤◌, false, IfOk, IfErr, OnOk};
ghost use Rattle.asp_base.specs.Causes.{Rose};
ghost use Rattle.asp_messages.specs.RequestText.{request_text};
ghost use Rattle.page_link.specs.Exchanges.{Asks, AsksInVain};

use crate::client::Client;
use crate::hearing::hear;
use crate::link::Link;
use asp_base::{Failed, NoMemory};
use asp_messages::{Request, write_request};
use visit_core::Heard;

/// Why a request has no answer.
#[derive(Clone, Copy, Debug, PartialEq, Eq)]
pub enum Break {
    /// The link failed.
    LinkFault,
    /// What came is no reply.
    BadReply,
    /// There was no memory.
    NoMemory,
}

/// Sends the request, in one piece, and hears its answer.
pub fn ask<R, L: Link>(
    rt: &R,
    client: &mut Client,
    request: &Request,
    link: &mut L,
) -> Result<Heard, Break>
    requires whole { client.old.reader.bytes.is_broken ≡ false }
    ensures heard { IfOk result (Asks (L.told link.old) (L.told link.new)
        (request_text request.now) client.old.reader.bytes.held client.new.reader.bytes.held) }
    ensures whole { OnOk result (client.new.reader.bytes.is_broken ≡ false) }
    ensures none { IfErr result (AsksInVain (L.told link.old) (L.told link.new)
        (request_text request.now) client.old.reader.bytes.held) }
    ensures lost { result ≡ Err Break.LinkFault → Rose (L.faults link.old) (L.faults link.new) }
    ensures pauses { L.pauses link.new ≡ L.pauses link.old }
    ensures faults { L.faults link.old ≤ L.faults link.new }
{
    client.text.clear();
    if let Err(NoMemory) = write_request(&mut client.text, request) {
        return Err(Break::NoMemory);
    }
    match link.send(rt, client.text.as_slice()) {
        Ok(()) => hear(rt, &mut client.reader, link),
        Err(Failed) => Err(Break::LinkFault),
    }
}
