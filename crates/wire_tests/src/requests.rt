//! The requests of a text, read in pieces.
ghost use Rattle.std.specs.Prelude.{IfOk, IsTrue, OnOk};
ghost use Rattle.message_framing.specs.ReaderState.{ReaderState, CountedReader};

use asp_base::{MOST_PIECE, NoMemory};
use asp_messages::{Message, spell_ask};
use request_reader::{Next, RequestReader};
use std::alloc::Global;

/// Adds what is told of a message.
fn tell_message(told: &mut Vec<u8>, message: &Message) -> Result<(), NoMemory> {
    match message {
        Message::Fit(request) => {
            told.extend_from_slice(request.key.as_slice())?;
            told.push(b' ')?;
            spell_ask(told, &request.ask)
        }
        Message::Unfit => {
            told.extend_from_slice(b"unfit")?;
            Ok(())
        }
    }
}

/// Adds a line for each request that the reader has, and answers whether it may be fed.
fn tell(reader: &mut RequestReader, told: &mut Vec<u8>, most: usize) -> Result<bool, NoMemory>
    ensures { IfOk result (λ b. IsTrue b → IsTrue reader.new.bytes.may_feed) }
{
    for _ in 0..most {
        match reader.next() {
            Next::Message(message) => tell_message(told, &message)?,
            Next::More => return Ok(true),
            Next::Broken => {
                if !told.as_slice().ends_with(b"broken\n") {
                    told.extend_from_slice(b"broken\n")?;
                }
                return Ok(true);
            }
            Next::NoMemory => return Err(NoMemory),
        }
        told.push(b'\n')?;
    }
    Ok(false)
}

/// A line for each request of the text, and a last one that says whether all of it was read.
pub fn requests_of(alloc: Global, text: &[u8], size: usize) -> Result<Vec<u8>, NoMemory> {
    let mut told = Vec::new(alloc);
    let mut reader = RequestReader::new(alloc);
    for piece in text.chunks(size.max(1)) {
        if piece.len() > MOST_PIECE {
            return Ok(told);
        }
        reader.feed(piece)?;
        if !tell(&mut reader, &mut told, MOST_PIECE)? {
            return Ok(told);
        }
    }
    told.extend_from_slice(if reader.end() { b"end\n" } else { b"cut\n" })?;
    Ok(told)
}
