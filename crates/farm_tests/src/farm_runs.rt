//! Whole runs of a page script over a farm of two, from its bytes to what is printed.
ghost use Rattle.std.specs.Prelude.{◌≤◌, ◌^◌};

use crate::farms::{TWO, TWO_PRINTED, farm_of};
use asp_base::{Bytes, MemorySink, MemorySource, Source};
use farm_command::{farm, run_farm};
use std::alloc::Global;
use std::test::Fail;

/// The bytes of the script over two servers up to the line feed of its first step.
const FIRST_STEP: u64 = 135;

/// What its first step prints, and what the first two do.
const ONE_LINE: &str = "1 0 a acquire : missing\n";

const TWO_LINES: &str = "1 0 a acquire : missing\n1 0 a run none\n";

/// A source of the text in pieces, whose listed reads fail.
fn source(alloc: Global, text: &str, piece: u64, reads: &[u64]) -> Result<MemorySource, Fail> {
    let text = Bytes::adopt(Vec::from_slice(alloc, text.as_bytes())?);
    Ok(MemorySource::new(text, piece.max(1), Vec::from_slice(alloc, reads)?))
}

/// A sink with room enough, whose listed writes fail.
fn sink(alloc: Global, writes: &[u64]) -> Result<MemorySink, Fail> {
    let fails = Vec::from_slice(alloc, writes)?;
    match MemorySink::new(alloc, 16_384, 16_384, fails) {
        Ok(sink) => Ok(sink),
        Err(_) => Err("no memory".into()),
    }
}

/// The script over two servers, with the line feed of its last line.
fn script(alloc: Global) -> Result<String, Fail> {
    let mut text = String::from_str(alloc, TWO)?;
    text.push('\n')?;
    Ok(text)
}

/// The status of such a run and what it wrote. It has no ensures, so that a test of many runs is
/// checked quickly.
fn run_text(
    alloc: Global,
    text: &str,
    piece: u64,
    most: u64,
    reads: &[u64],
    writes: &[u64],
) -> Result<(u8, MemorySink), Fail>
    requires { most ≤ 2 ^ 40 }
{
    let mut source = source(alloc, text, piece, reads)?;
    let mut sink = sink(alloc, writes)?;
    let ran = run_farm(alloc, most, &mut source, &mut sink, farm_of(alloc, 2)?);
    Ok((ran.status, sink))
}

/// More bytes than any text here has.
const ALL: u64 = 1 << 20;

#[test]
fn a_script_in_pieces_prints_its_steps_with_their_servers(rt: HostRuntime) -> Result<(), Fail> {
    let alloc = rt.alloc();
    let text = script(alloc)?;
    for piece in [1, 7, 16_384] {
        let (status, output) = run_text(alloc, text.as_str(), piece, ALL, &[], &[])?;
        assert_eq!(rt; status, 0);
        assert!(rt; output.taken() == TWO_PRINTED.as_bytes());
    }
    Ok(())
}

#[test]
fn a_source_that_fails_ends_the_run_with_what_was_printed(rt: HostRuntime) -> Result<(), Fail> {
    let alloc = rt.alloc();
    let text = script(alloc)?;
    for (read, printed) in [(0, ""), (1, ONE_LINE)] {
        let (status, output) = run_text(alloc, text.as_str(), FIRST_STEP, ALL, &[read], &[])?;
        assert_eq!(rt; status, 4);
        assert!(rt; output.taken() == printed.as_bytes());
    }
    Ok(())
}

#[test]
fn a_sink_that_fails_ends_the_run_with_what_it_took(rt: HostRuntime) -> Result<(), Fail> {
    let alloc = rt.alloc();
    let text = script(alloc)?;
    for (write, printed) in [(0, ""), (1, ONE_LINE), (2, TWO_LINES)] {
        let (status, output) = run_text(alloc, text.as_str(), 16_384, ALL, &[], &[write])?;
        assert_eq!(rt; status, 5);
        assert!(rt; output.taken() == printed.as_bytes());
    }
    Ok(())
}

#[test]
fn the_most_bytes_end_a_run_with_their_lines_printed(rt: HostRuntime) -> Result<(), Fail> {
    let alloc = rt.alloc();
    let text = script(alloc)?;
    let (status, output) = run_text(alloc, text.as_str(), 16_384, FIRST_STEP, &[], &[])?;
    assert_eq!(rt; status, 7);
    assert!(rt; output.taken() == ONE_LINE.as_bytes());
    Ok(())
}

#[test]
fn what_is_no_script_ends_the_run_with_what_was_printed(rt: HostRuntime) -> Result<(), Fail> {
    let alloc = rt.alloc();
    let unfinished = "page a x2f73 exclusive keep\nstep 0 a\nstep 0 a";
    let in_use = "page a x2f73 exclusive keep\nstep 0 a\npage a x2f72 exclusive keep\n";
    let no_page = "page a x2f73 exclusive keep\nstep 0 a\nstep 0 b\n";
    for text in [unfinished, in_use, no_page] {
        for piece in [1, 16_384] {
            let (status, output) = run_text(alloc, text, piece, ALL, &[], &[])?;
            assert_eq!(rt; status, 3);
            assert!(rt; output.taken() == ONE_LINE.as_bytes());
        }
    }
    Ok(())
}

/// The status of these words over two servers, what they wrote, and the next four bytes of the
/// source.
fn run_words(alloc: Global, words: &[&str]) -> Result<(u8, MemorySink, [u8; 4]), Fail> {
    let mut given = Vec::new(alloc);
    for word in words {
        given.push(String::from_str(alloc, word)?)?;
    }
    let mut source = source(alloc, script(alloc)?.as_str(), 16_384, &[])?;
    let mut sink = sink(alloc, &[])?;
    let ran = farm(alloc, &given, &mut source, &mut sink, farm_of(alloc, 2)?);
    let mut next = [0; 4];
    let _ = source.read(&mut next);
    Ok((ran.status, sink, next))
}

#[test]
fn words_that_are_none_read_and_write_nothing(rt: HostRuntime) -> Result<(), Fail> {
    let others: [&[&str]; 8] = [
        &[],
        &["farm"],
        &["farm", "0"],
        &["farm", "3"],
        &["farm", "65"],
        &["farm", "2x"],
        &["farm", "2", "x"],
        &["drive", "2"],
    ];
    for words in others {
        let (status, output, next) = run_words(rt.alloc(), words)?;
        assert_eq!(rt; status, 2);
        assert!(rt; output.taken().is_empty());
        assert!(rt; next.as_slice() == b"page".as_slice());
    }
    Ok(())
}

#[test]
fn the_words_of_a_farm_run_its_script(rt: HostRuntime) -> Result<(), Fail> {
    let (status, output, _) = run_words(rt.alloc(), &["farm", "2"])?;
    assert_eq!(rt; status, 0);
    assert!(rt; output.taken() == TWO_PRINTED.as_bytes());
    Ok(())
}
