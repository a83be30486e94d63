//! The sessions that journals leave, as they are listed.

use crate::replays::{MOST, sink, source};
use asp_base::MemorySink;
use journal_replay::run_mirror;
use std::alloc::Global;
use std::test::Fail;

/// A write and an acquire of one session, and a fresh write of another.
const THREE: &[u8] = b"asp-journal 3 0\n0 0 0 0 x2f62 write 0 20 0 x78 : done\n\
    0 1000 0 1 x2f62 acquire : found 1 20 0 x78\n0 2000 0 0 x2f61 write 0 10 1 x : done\n";

/// The status of a mirror of the text in pieces, and what it wrote.
fn mirror_text(
    alloc: Global,
    moment: u64,
    text: &[u8],
    piece: u64,
) -> Result<(u8, MemorySink), Fail> {
    let mut input = source(alloc, text, piece, &[])?;
    let mut output = sink(alloc, 256, &[])?;
    let status = run_mirror(alloc, MOST, moment, &mut input, &mut output);
    Ok((status, output))
}

#[test]
fn what_lives_at_the_moment_is_listed(rt: HostRuntime) -> Result<(), Fail> {
    let alloc = rt.alloc();
    for (moment, lines) in [
        (
            0,
            b"x2f61 0 0 10 1 2000 86402000 x\nx2f62 1 1000 20 0 1000 86400000 x78\nsessions 2\n".as_slice(),
        ),
        (
            602_000,
            b"x2f62 1 1000 20 0 1000 86400000 x78\nsessions 1\n".as_slice(),
        ),
        (1_201_000, b"sessions 0\n".as_slice()),
    ] {
        for piece in [1, 7, 16_384] {
            let (status, output) = mirror_text(alloc, moment, THREE, piece)?;
            assert_eq!(rt; status, 0, "pieces of {piece}");
            assert_eq!(rt; output.taken(), lines, "pieces of {piece}");
        }
    }
    Ok(())
}

#[test]
fn what_is_no_legal_journal_is_told_as_a_replay_tells_it(rt: HostRuntime) -> Result<(), Fail> {
    let alloc = rt.alloc();
    for (text, status, line) in [
        (
            b"asp-journal 3 0\n0 0 0 0 x2f61 read : done\n".as_slice(),
            8,
            b"place 0 expected missing found done\n".as_slice(),
        ),
        (
            b"asp-journal 3 0\n0 0".as_slice(),
            3,
            b"not a journal at 16\n".as_slice(),
        ),
        (b"".as_slice(), 3, b"not a journal at 0\n".as_slice()),
    ] {
        let (ended, output) = mirror_text(alloc, 2000, text, 16_384)?;
        assert_eq!(rt; ended, status);
        assert_eq!(rt; output.taken(), line);
    }
    Ok(())
}
