//! A stream of requests, and the heads of the replies to them.
ghost use Rattle.std.specs.Prelude.{◌⊎◌, ◌≡◌, ◌≤◌, ◌↔◌, length, IsTrue, IsNone, IfSome, OnOk, OnErr};
ghost use Rattle.asp_base.specs.Limits.{most_piece};
ghost use Rattle.asp_messages.specs.declared.reply.Reply.TheVariants.{Bad};
ghost use Rattle.asp_messages.specs.Fields.{request_fields};
ghost use Rattle.asp_messages.specs.Head.{IsRequestHead};
ghost use Rattle.asp_messages.specs.Ranges.{ReplyFits};
ghost use Rattle.asp_messages.specs.ReplyText.{head_text};
ghost use Rattle.asp_messages.specs.RequestSpelling.{SpellsRequest};
ghost use Rattle.asp_messages.specs.Stream.{HasNoMessage, IsHopeless, IsWaiting};
ghost use Rattle.message_framing.specs.declared.message_reader.Found.TheVariants as nexts;
ghost use Rattle.message_framing.specs.Framed.{IfFound};
ghost use Rattle.message_framing.specs.ReaderState.{empty_reader, fed, waiting, broken, TakesMessage};
ghost use Rattle.stream_core.specs.Connection.{IsFinished};

use asp_base::NoMemory;
use asp_messages::{Reply, ReplyHead, reply_head};
use request_reader::{Next, RequestReader};
use std::alloc::Global;
use std::marker::Model;

/// A stream of requests: their reader, and the heads of the replies to them.
#[derive(Debug, Drop)]
pub struct Stream {
    reader: RequestReader,
}

impl Model for Stream {
    ghost use Rattle.stream_core.specs.Connection.{Connection};

    ghost Value = { Connection };

    ghost view = { λ s. record { reader = s.reader.bytes } };
}

impl Stream {
    /// A stream that was fed nothing. It takes no memory.
    pub fn new(alloc: Global) -> Stream
        ensures { result ≡ record { reader = empty_reader } }
    {
        Stream {
            reader: RequestReader::new(alloc),
        }
    }

    /// Adds a piece of at most 16,384 bytes; a broken stream keeps nothing. After `NoMemory`
    /// nothing has changed.
    pub fn take(&mut self, piece: &[u8]) -> Result<(), NoMemory>
        requires piece { length piece.now ≤ most_piece }
        requires may_feed { IsTrue self.old.reader.may_feed }
        ensures ok { OnOk result (self.new ≡ record { reader = fed self.old.reader piece.now }) }
        ensures err { OnErr result (self.new ≡ self.old) }
    {
        self.reader.feed(piece)
    }

    /// The first message of the bytes held, which is taken and is now to be answered.
    pub fn next(&mut self) -> Next
        ensures message { IfFound result (TakesMessage SpellsRequest self.old.reader
            self.new.reader) }

        // No message is whole, and there is room for more bytes.
        ensures more { result ≡ nexts.More → self.new.reader ≡ waiting self.old.reader }
        ensures none_whole { result ≡ nexts.More → HasNoMessage SpellsRequest self.old.reader.held }
        ensures waits { result ≡ nexts.More → IsWaiting IsRequestHead request_fields
            self.old.reader.held }

        // No bytes can follow that make a message, and the stream stays broken.
        ensures broken { result ≡ nexts.Broken → self.new.reader ≡ broken }
        ensures hopeless { result ≡ nexts.Broken
            → IsTrue self.old.reader.is_broken ⊎ IsHopeless SpellsRequest self.old.reader.held }
        ensures stays { IsTrue self.old.reader.is_broken → result ≡ nexts.Broken }

        ensures no_memory { result ≡ nexts.NoMemory → self.new.reader ≡ self.old.reader }
    {
        self.reader.next()
    }

    /// The head of the reply to a message that was taken. It takes no memory.
    pub fn answer(&mut self, reply: &Reply) -> ReplyHead
        requires fits { ReplyFits reply.now }
        ensures head { result ≡ head_text reply.now }
        ensures same { self.new ≡ self.old }
    {
        reply_head(reply)
    }

    /// The head of the last `Bad` reply, where the bytes are no whole messages: the stream is
    /// broken, or holds a byte. It takes no memory.
    pub fn finish(&mut self) -> Option<ReplyHead>
        ensures finished { IsNone result ↔ IsFinished self.old }
        ensures head { IfSome result (λ head. head ≡ head_text Bad) }
        ensures same { self.new ≡ self.old }
    {
        if self.reader.end() {
            None
        } else {
            Some(reply_head(&Reply::Bad))
        }
    }
}
