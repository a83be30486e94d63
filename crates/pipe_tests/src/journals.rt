//! Journals of whole runs.
use crate::edges::words_of;
use crate::loads::TEN;
use crate::running::{
    PIPE, WRITE_AND_READ, command_status, joined, pipe_status, run_text, sink, source,
};
use asp_base::MemorySink;
use keeper::{FaultyKeeper, ListKeeper};
use pipe_command::Pipe;
use std::alloc::Global;
use std::test::Fail;

/// The settings of `trace 0 1000 1`.
const TRACE: Pipe = Pipe {
    journal: true,
    ..PIPE
};

const HEAD: &[u8] = b"asp-journal 3 0\n";

#[test]
fn requests_have_their_lines(rt: HostRuntime) -> Result<(), Fail> {
    let alloc = rt.alloc();
    for (text, status, lines) in [
        (b"".as_slice(), 0, b"".as_slice()),
        (
            WRITE_AND_READ,
            0,
            b"0 0 0 0 x2f61 write 0 20 0 x78 : done\n\
            0 1000 0 0 x2f61 read : found 0 20 0 x78\n"
                .as_slice(),
        ),
        // A read that is refused or finds nothing tells of no acquire and of no removal.
        (
            b"GET /b HTTP/1.1\r\n\r\nPUT /b HTTP/1.1\r\n\r\nGET /b HTTP/1.1\r\n\
            Exclusive: acquire\r\n\r\nGET /b HTTP/1.1\r\n\r\nDELETE /b HTTP/1.1\r\n\r\n"
                .as_slice(),
            0,
            b"0 0 0 0 x2f62 read : missing\n0 1000 0 0 x2f62 write 0 20 0 x : done\n\
            0 2000 0 1 x2f62 acquire : found 1 20 0 x\n\
            0 3000 0 0 x2f62 read : locked 1 1 2000\n\
            0 4000 0 0 x2f62 remove 0 : locked 1 2 2000\n"
                .as_slice(),
        ),
        (
            b"POST /a HTTP/1.1\r\n\r\nGET /a HTTP/1.1\r\nExclusive: acquire\r\n\r\n\
            HEAD /b HTTP/1.1\r\n\r\nGET"
                .as_slice(),
            3,
            b"0 1000 0 1 x2f61 acquire : missing\n0 2000 0 0 x2f62 reset : missing\n".as_slice(),
        ),
    ] {
        for piece in [1, 7, 16_384] {
            let (ended, output) = run_text(alloc, TRACE, text, piece)?;
            assert_eq!(rt; ended, status);
            assert_eq!(rt; output.taken(), joined(alloc, HEAD, lines)?.as_slice());
        }
    }
    Ok(())
}

#[test]
fn a_fault_of_the_keeper_is_counted_in_each_line(rt: HostRuntime) -> Result<(), Fail> {
    let alloc = rt.alloc();
    let mut fails = Vec::new(alloc);
    fails.push(1)?;
    let keeper = FaultyKeeper::new(ListKeeper::new(alloc), fails);
    let mut input = source(alloc, WRITE_AND_READ, 16_384, &[])?;
    let mut output = sink(alloc, &[])?;
    let status = pipe_status(alloc, TRACE, &mut input, &mut output, keeper);
    let lines = b"0 0 1 0 x2f61 write 0 20 0 x78 : keeper-fault\n0 1000 1 0 x2f61 read : missing\n";
    assert_eq!(rt; status, 0);
    assert_eq!(rt; output.taken(), joined(alloc, HEAD, lines)?.as_slice());
    Ok(())
}

#[test]
fn a_sink_that_fails_ends_a_journal(rt: HostRuntime) -> Result<(), Fail> {
    let alloc = rt.alloc();
    for (call, text) in [(0, b"".as_slice()), (1, HEAD)] {
        let mut input = source(alloc, WRITE_AND_READ, 16_384, &[])?;
        let mut output = sink(alloc, &[call])?;
        let status = pipe_status(
            alloc,
            TRACE,
            &mut input,
            &mut output,
            ListKeeper::new(alloc),
        );
        assert_eq!(rt; status, 5);
        assert_eq!(rt; output.taken(), text);
    }
    Ok(())
}

/// The status of `replay`, and what it wrote.
fn replay(alloc: Global, journal: &[u8]) -> Result<(u8, MemorySink), Fail> {
    told_by(alloc, &["replay"], journal)
}

/// The status of a command that reads a journal, and what it wrote.
fn told_by(alloc: Global, words: &[&str], journal: &[u8]) -> Result<(u8, MemorySink), Fail> {
    let given = words_of(alloc, words)?;
    let mut input = source(alloc, journal, 16_384, &[])?;
    let mut output = sink(alloc, &[])?;
    let status = command_status(
        alloc,
        &given,
        &mut input,
        &mut output,
        ListKeeper::new(alloc),
    );
    Ok((status, output))
}

#[test]
fn a_traced_load_is_judged_legal(rt: HostRuntime) -> Result<(), Fail> {
    let alloc = rt.alloc();
    let pipe = Pipe {
        start: 1000,
        ..TRACE
    };
    let (traced, journal) = run_text(alloc, pipe, TEN, 16_384)?;
    let (status, verdict) = replay(alloc, journal.taken())?;
    assert_eq!(rt; traced, 0);
    assert_eq!(rt; status, 0);
    assert_eq!(rt; verdict.taken(), b"legal 10\n".as_slice());
    Ok(())
}

#[test]
fn a_traced_run_leaves_its_sessions(rt: HostRuntime) -> Result<(), Fail> {
    let alloc = rt.alloc();
    let (traced, journal) = run_text(alloc, TRACE, WRITE_AND_READ, 16_384)?;
    assert_eq!(rt; traced, 0);
    for (moment, lines) in [
        (
            "1200999",
            b"x2f61 0 0 20 0 1000 86400000 x78\nsessions 1\n".as_slice(),
        ),
        ("1201000", b"sessions 0\n".as_slice()),
    ] {
        let (status, sessions) = told_by(alloc, &["mirror", moment], journal.taken())?;
        assert_eq!(rt; status, 0);
        assert_eq!(rt; sessions.taken(), lines);
    }
    Ok(())
}

/// A write, an acquire, and a write over the lock, in a journal of either spelling.
const OVER_A_LOCK: &[u8] =
    b"0 0 0 0 x2f61 write 0 20 0 x78 : done\n0 1000 0 1 x2f61 acquire : found 1 20 0 x78\n\
    0 2000 0 0 x2f61 write 0 20 0 x79 : done\n";

#[test]
fn a_write_over_a_lock_is_judged_illegal(rt: HostRuntime) -> Result<(), Fail> {
    let alloc = rt.alloc();
    for (head, line) in [
        (
            b"asp-journal 1 0\n".as_slice(),
            b"place 2 expected locked 1 1 found done\n".as_slice(),
        ),
        (
            HEAD,
            b"place 2 expected locked 1 1 1000 found done\n".as_slice(),
        ),
    ] {
        let (status, verdict) = replay(alloc, joined(alloc, head, OVER_A_LOCK)?.as_slice())?;
        assert_eq!(rt; status, 8);
        assert_eq!(rt; verdict.taken(), line);
    }
    Ok(())
}
