//! A reader of replies.
ghost use Rattle.std.specs.Prelude.{◌⊎◌, ◌≡◌, ◌≤◌, ◌+◌, ◌-◌, ◌↔◌, [], length, IsTrue, IsFalse, OnOk, OnErr};
ghost use Rattle.asp_base.specs.Limits.{most_piece};
ghost use Rattle.asp_messages.specs.Fields.{response_fields};
ghost use Rattle.asp_messages.specs.Head.{IsReplyHead};
ghost use Rattle.asp_messages.specs.ReplySpelling.{SpellsReply};
ghost use Rattle.asp_messages.specs.Stream.{HasNoMessage, IsHopeless, IsWaiting};
ghost use Rattle.message_framing.specs.Framed.{LooksWithin};
ghost use Rattle.message_framing.specs.ReaderState.{empty_reader, fed, waiting, broken, most_held, TakesMessage};
ghost use Rattle.reply_reader.specs.ReplyNext.{IfMessage, UnlessMessage, TakesReplyCounted};

use crate::reply_kind::{Replies, ReplyMessage};
use asp_base::{NoMemory, StepCount};
use asp_messages::Reply;
use message_framing::{Found, MessageReader};
use std::alloc::Global;
use std::marker::Model;
use std::sync::ledger::Ledger;

/// What a reader answers when it is asked for the next reply.
#[derive(Debug, Drop)]
pub enum ReplyNext {
    /// The first message of the bytes held, which were taken.
    Reply(Reply),
    /// The first message of the bytes held is no reply, and was taken.
    Strange {
        /// The status that it has.
        status: u16,
    },
    /// No message is whole; feed more bytes.
    More,
    /// The bytes can never become a message; the reader is broken for good.
    Broken,
    /// There was no memory for the reply; the bytes held are as they were.
    NoMemory,
}

/// A reader of replies from the pieces of a stream. It never holds more than 4,218,880 bytes.
#[derive(Debug, Drop)]
pub struct ReplyReader {
    reader: MessageReader<Replies>,
}

impl Model for ReplyReader {
    ghost use Rattle.message_framing.specs.ReaderState.{CountedReader};

    ghost Value = { CountedReader };

    ghost view = { λ r. r.reader };
}

impl ReplyReader {
    /// A reader that was fed nothing. It takes no memory.
    pub fn new(alloc: Global) -> ReplyReader
        ensures { result ≡ record { bytes = empty_reader; looks = 0 } }
    {
        ReplyReader {
            reader: MessageReader::new(alloc),
        }
    }

    /// Adds a piece of at most 16,384 bytes to those held; a broken reader keeps nothing. The
    /// caller has heard `More` or `Broken` since the last piece. After `NoMemory` nothing has
    /// changed.
    pub fn feed(&mut self, piece: &[u8]) -> Result<(), NoMemory>
        requires piece { length piece.now ≤ most_piece }
        requires may_feed { IsTrue self.old.bytes.may_feed }
        ensures ok { OnOk result (self.new.bytes ≡ fed self.old.bytes piece.now) }
        ensures err { OnErr result (self.new ≡ self.old) }
        ensures looks { self.new.looks ≡ self.old.looks }
        ensures bound { length self.new.bytes.held ≤ most_held }
    {
        self.reader.feed(piece)
    }

    /// How often the reader looked at a byte of the message that it holds: at most twice the bytes
    /// held, and twice 8,192.
    pub fn spent(&self) -> u64
        ensures { result ≡ self.now.looks }
    {
        self.reader.spent()
    }

    /// The first message of the bytes held, which are taken. `steps` counts each look at a byte.
    pub fn next_counted<L: Ledger>(&mut self, steps: &mut StepCount<L>) -> ReplyNext
        ensures message { IfMessage result (TakesReplyCounted self.old self.new
            (steps.new - steps.old)) }
        ensures rises { steps.old ≤ steps.new }
        ensures growth { UnlessMessage result
            (steps.new + self.old.looks ≡ steps.old + self.new.looks) }

        // No message is whole, and there is room for more bytes.
        ensures more { result ≡ ReplyNext.More → self.new.bytes ≡ waiting self.old.bytes }
        ensures none_whole { result ≡ ReplyNext.More
            → HasNoMessage SpellsReply self.old.bytes.held }
        ensures waits { result ≡ ReplyNext.More
            → IsWaiting IsReplyHead response_fields self.old.bytes.held }

        // No bytes can follow that make a message, and the reader stays broken.
        ensures broken { result ≡ ReplyNext.Broken → self.new.bytes ≡ broken }
        ensures hopeless { result ≡ ReplyNext.Broken
            → IsTrue self.old.bytes.is_broken ⊎ IsHopeless SpellsReply self.old.bytes.held }
        ensures stays { IsTrue self.old.bytes.is_broken → result ≡ ReplyNext.Broken }

        ensures no_memory { result ≡ ReplyNext.NoMemory → self.new.bytes ≡ self.old.bytes }
        ensures bound { length self.new.bytes.held ≤ most_held }
        ensures looks { LooksWithin self.old self.new }
    {
        match self.reader.next_counted(steps) {
            Found::Message(ReplyMessage::Reply(reply)) => ReplyNext::Reply(reply),
            Found::Message(ReplyMessage::Strange(status)) => ReplyNext::Strange { status },
            Found::More => ReplyNext::More,
            Found::Broken => ReplyNext::Broken,
            Found::NoMemory => ReplyNext::NoMemory,
        }
    }

    /// The first message of the bytes held, which are taken: `next_counted` with a counter of its
    /// own.
    pub fn next(&mut self) -> ReplyNext
        ensures message { IfMessage result (TakesMessage SpellsReply self.old.bytes
            self.new.bytes) }
        ensures forgotten { IfMessage result (λ _. self.new.looks ≡ 0) }

        // No message is whole, and there is room for more bytes.
        ensures more { result ≡ ReplyNext.More → self.new.bytes ≡ waiting self.old.bytes }
        ensures none_whole { result ≡ ReplyNext.More
            → HasNoMessage SpellsReply self.old.bytes.held }
        ensures waits { result ≡ ReplyNext.More
            → IsWaiting IsReplyHead response_fields self.old.bytes.held }

        // No bytes can follow that make a message, and the reader stays broken.
        ensures broken { result ≡ ReplyNext.Broken → self.new.bytes ≡ broken }
        ensures hopeless { result ≡ ReplyNext.Broken
            → IsTrue self.old.bytes.is_broken ⊎ IsHopeless SpellsReply self.old.bytes.held }
        ensures stays { IsTrue self.old.bytes.is_broken → result ≡ ReplyNext.Broken }

        ensures no_memory { result ≡ ReplyNext.NoMemory → self.new.bytes ≡ self.old.bytes }
        ensures bound { length self.new.bytes.held ≤ most_held }
        ensures looks { LooksWithin self.old self.new }
    {
        match self.reader.next() {
            Found::Message(ReplyMessage::Reply(reply)) => ReplyNext::Reply(reply),
            Found::Message(ReplyMessage::Strange(status)) => ReplyNext::Strange { status },
            Found::More => ReplyNext::More,
            Found::Broken => ReplyNext::Broken,
            Found::NoMemory => ReplyNext::NoMemory,
        }
    }

    /// Whether all bytes fed were whole messages that were taken: the reader is not broken and
    /// holds no byte.
    pub fn end(&self) -> bool
        ensures { IsTrue result ↔ (IsFalse self.now.bytes.is_broken × (self.now.bytes.held ≡ [])) }
    {
        self.reader.end()
    }
}
