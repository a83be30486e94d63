//! The replies of a text, read in pieces.
ghost use Rattle.std.specs.Prelude.{IfOk, IsTrue, OnOk};
ghost use Rattle.message_framing.specs.ReaderState.{ReaderState, CountedReader};

use asp_base::{MOST_PIECE, NoMemory};
use asp_messages::spell_dated;
use itoa::Buffer;
use reply_reader::{ReplyNext, ReplyReader};
use std::alloc::Global;

/// Adds a line for each reply that the reader has, and answers whether it may be fed.
fn tell(reader: &mut ReplyReader, told: &mut Vec<u8>, most: usize) -> Result<bool, NoMemory>
    ensures { IfOk result (λ b. IsTrue b → IsTrue reader.new.bytes.may_feed) }
{
    for _ in 0..most {
        match reader.next() {
            ReplyNext::Reply(reply) => spell_dated(told, &reply)?,
            ReplyNext::Strange { status } => {
                let mut buffer = Buffer::new();
                told.extend_from_slice(b"strange ")?;
                told.extend_from_slice(buffer.format(status).as_bytes())?;
            }
            ReplyNext::More => return Ok(true),
            ReplyNext::Broken => {
                if !told.as_slice().ends_with(b"broken\n") {
                    told.extend_from_slice(b"broken\n")?;
                }
                return Ok(true);
            }
            ReplyNext::NoMemory => return Err(NoMemory),
        }
        told.push(b'\n')?;
    }
    Ok(false)
}

/// A line for each reply of the text, and a last one that says whether all of it was read.
pub fn replies_of(alloc: Global, text: &[u8], size: usize) -> Result<Vec<u8>, NoMemory> {
    let mut told = Vec::new(alloc);
    let mut reader = ReplyReader::new(alloc);
    for piece in text.chunks(size.max(1)) {
        if piece.len() > MOST_PIECE {
            return Ok(told);
        }
        reader.feed(piece)?;
        if !tell(&mut reader, &mut told, MOST_PIECE)? {
            return Ok(told);
        }
    }
    told.extend_from_slice(if reader.end() { b"end\n" } else { b"cut\n" })?;
    Ok(told)
}
