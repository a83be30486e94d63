//! A run of the gateway over sources, sinks and random values in memory.
ghost use Rattle.keeper.specs.Items.{IsEmptyTold};
ghost use Rattle.std.specs.Prelude.{◌≡◌};

use asp_base::{Bytes, MemorySink, MemorySource};
use id_gateway::{ListRandom, gateway};
use keeper::{Keeper, MapKeeper};
use std::alloc::Global;
use std::test::Fail;

/// The identifier of the value that the tests draw.
pub const ID: &str = "baaaaaaaaaaaaaaaaaaaaaaa";

pub const BAD: &[u8] = b"HTTP/1.1 400 Bad Request\r\nContent-Length: 0\r\n\r\n";

/// The words as the command line gives them.
pub fn words_of(alloc: Global, words: &[&str]) -> Result<Vec<String>, Fail> {
    let mut given = Vec::new(alloc);
    for word in words {
        given.push(String::from_str(alloc, word)?)?;
    }
    Ok(given)
}

/// A source of the text, in pieces of at least one byte, which fails the listed reads.
pub fn source(alloc: Global, text: &[u8], piece: u64, fails: &[u64]) -> Result<MemorySource, Fail> {
    let text = Bytes::adopt(Vec::from_slice(alloc, text)?);
    Ok(MemorySource::new(text, piece.max(1), Vec::from_slice(alloc, fails)?))
}

/// A sink that takes pieces of at least one byte, and fails the listed writes.
pub fn sink(alloc: Global, piece: u64, fails: &[u64]) -> Result<MemorySink, Fail> {
    match MemorySink::new(alloc, 16_384, piece.max(1), Vec::from_slice(alloc, fails)?) {
        Ok(sink) => Ok(sink),
        Err(_) => Err("no memory".into()),
    }
}

/// Values of which the first is 1 and 14 zeros, and each other begins with one more; the listed
/// draws fail.
pub fn values(alloc: Global, fails: &[u64]) -> Result<ListRandom, Fail> {
    let mut values = Vec::new(alloc);
    for first in 1..=3u8 {
        let mut value = [0; 15];
        value[0] = first;
        values.push(value)?;
    }
    Ok(ListRandom::new(values, Vec::from_slice(alloc, fails)?))
}

/// The status of a run. It has no ensures, so that a test of many runs is checked quickly.
pub fn status_over<K: Keeper + Drop>(
    alloc: Global,
    words: &[String],
    input: &mut MemorySource,
    output: &mut MemorySink,
    keeper: K,
    random: ListRandom,
) -> u8
    requires no_faults { K.count keeper ≡ 0 }
    requires empty { IsEmptyTold (K.told keeper) }
{
    gateway(alloc, words, input, output, keeper, random).status
}

/// The status of `gate MODE 0 1000` over the text in pieces, and what it wrote; the listed draws
/// fail.
pub fn run_gate(
    alloc: Global,
    mode: &str,
    text: &[u8],
    piece: u64,
    draws: &[u64],
) -> Result<(u8, MemorySink), Fail> {
    run_words(alloc, &["gate", mode, "0", "1000"], text, piece, draws)
}

/// The status of these words over the text in pieces, and what it wrote; the listed draws fail.
pub fn run_words(
    alloc: Global,
    words: &[&str],
    text: &[u8],
    piece: u64,
    draws: &[u64],
) -> Result<(u8, MemorySink), Fail> {
    let words = words_of(alloc, words)?;
    let mut input = source(alloc, text, piece, &[])?;
    let mut output = sink(alloc, 16_384, &[])?;
    let random = values(alloc, draws)?;
    let status = status_over(
        alloc,
        &words,
        &mut input,
        &mut output,
        MapKeeper::new(alloc),
        random,
    );
    Ok((status, output))
}
