//! Whole runs, from bytes to bytes. Expected replies are in the plain spelling, one a line.
ghost use Rattle.std.specs.Prelude.{◌≡◌};
ghost use Rattle.keeper.specs.Items.{IsEmptyTold};
ghost use Rattle.pipe_command.specs.PipeRun.{PipeFits};

use asp_base::{Bytes, MemorySink, MemorySource};
use asp_messages::spell_reply;
use keeper::{Keeper, ListKeeper, MapKeeper};
use pipe_command::{Pipe, command, run_pipe};
use reply_reader::{ReplyNext, ReplyReader};
use std::alloc::Global;
use std::test::Fail;

/// The shipped example: a write and a read, 58 bytes.
pub const WRITE_AND_READ: &[u8] =
    b"PUT /a HTTP/1.1\r\nContent-Length: 1\r\n\r\nxGET /a HTTP/1.1\r\n\r\n";

/// The replies to them, 38 and 52 bytes.
pub const DONE: &[u8] = b"HTTP/1.1 200 OK\r\nContent-Length: 0\r\n\r\n";

pub const FOUND: &[u8] = b"HTTP/1.1 200 OK\r\nTimeout: 20\r\nContent-Length: 1\r\n\r\nx";

pub const BAD: &[u8] = b"HTTP/1.1 400 Bad Request\r\nContent-Length: 0\r\n\r\n";

/// The settings of `pipe 0 1000 1`.
pub const PIPE: Pipe = Pipe {
    start: 0,
    step: 1000,
    first: 1,
    journal: false,
    most: 1 << 40,
};

/// A source of the text, in pieces of at least one byte.
pub fn source(alloc: Global, text: &[u8], piece: u64, fails: &[u64]) -> Result<MemorySource, Fail> {
    let text = Bytes::adopt(Vec::from_slice(alloc, text)?);
    Ok(MemorySource::new(text, piece.max(1), Vec::from_slice(alloc, fails)?))
}

pub fn sink(alloc: Global, fails: &[u64]) -> Result<MemorySink, Fail> {
    match MemorySink::new(alloc, 16_384, 16_384, Vec::from_slice(alloc, fails)?) {
        Ok(sink) => Ok(sink),
        Err(_) => Err("no memory".into()),
    }
}

/// The status of a run. It has no ensures, so that a test of many runs is checked quickly.
pub fn pipe_status<K: Keeper + Drop>(
    alloc: Global,
    pipe: Pipe,
    input: &mut MemorySource,
    output: &mut MemorySink,
    keeper: K,
) -> u8
    requires fits { PipeFits pipe }
    requires no_faults { K.count keeper ≡ 0 }
    requires empty { IsEmptyTold (K.told keeper) }
{
    run_pipe(alloc, pipe, input, output, keeper).status
}

/// The status of a command line. It has no ensures, so that a test of many is checked quickly.
pub fn command_status<K: Keeper + Drop>(
    alloc: Global,
    words: &[String],
    input: &mut MemorySource,
    output: &mut MemorySink,
    keeper: K,
) -> u8
    requires no_faults { K.count keeper ≡ 0 }
    requires empty { IsEmptyTold (K.told keeper) }
{
    command(alloc, words, input, output, keeper).status
}

/// The status of a run over the text in pieces, and the bytes that it wrote, which are the same
/// over both keepers in memory.
pub fn run_text(
    alloc: Global,
    pipe: Pipe,
    text: &[u8],
    piece: u64,
) -> Result<(u8, MemorySink), Fail>
    requires { PipeFits pipe }
{
    let mut input = source(alloc, text, piece, &[])?;
    let mut output = sink(alloc, &[])?;
    let ran = pipe_status(alloc, pipe, &mut input, &mut output, ListKeeper::new(alloc));
    let mut again = source(alloc, text, piece, &[])?;
    let mut mapped = sink(alloc, &[])?;
    let map = pipe_status(alloc, pipe, &mut again, &mut mapped, MapKeeper::new(alloc));
    if map != ran || mapped.taken() != output.taken() {
        return Err("the keepers differ".into());
    }
    Ok((ran, output))
}

/// The replies that the bytes spell, in the plain spelling, one a line.
pub fn spelled(alloc: Global, output: &[u8]) -> Result<Vec<u8>, Fail> {
    let mut lines = Vec::new(alloc);
    if output.len() > 16_384 {
        return Err("too much was written".into());
    }
    let mut reader = ReplyReader::new(alloc);
    if reader.feed(output).is_err() {
        return Err("no memory".into());
    }
    for _ in 0..1000 {
        match reader.next() {
            ReplyNext::Reply(reply) => {
                if spell_reply(&mut lines, &reply).is_err() {
                    return Err("no memory".into());
                }
                lines.push(b'\n')?;
            }
            _ => break,
        }
    }
    if !reader.end() {
        return Err("what was written is no whole replies".into());
    }
    Ok(lines)
}

/// These texts in one.
pub fn joined(alloc: Global, first: &[u8], second: &[u8]) -> Result<Vec<u8>, Fail> {
    let mut text = Vec::from_slice(alloc, first)?;
    text.extend_from_slice(second)?;
    Ok(text)
}
