//! How a run ends, and what it has written by then.
use crate::running::{
    BAD, DONE, FOUND, PIPE, WRITE_AND_READ, joined, pipe_status, run_text, sink, source,
};
use keeper::{FaultyKeeper, ListKeeper};
use pipe_command::Pipe;
use std::test::Fail;

#[test]
fn an_input_that_is_cut_after_each_of_its_bytes(rt: HostRuntime) -> Result<(), Fail> {
    let alloc = rt.alloc();
    for len in 0..=WRITE_AND_READ.len() {
        let (wanted_status, wanted) = match len {
            0 => (0, Vec::new(alloc)),
            1..=38 => (3, Vec::from_slice(alloc, BAD)?),
            39 => (0, Vec::from_slice(alloc, DONE)?),
            40..=57 => (3, joined(alloc, DONE, BAD)?),
            _ => (0, joined(alloc, DONE, FOUND)?),
        };
        for piece in [1, 2, 3, 16_384] {
            let (status, output) = run_text(alloc, PIPE, &WRITE_AND_READ[..len], piece)?;
            assert_eq!(rt; status, wanted_status, "cut after {len} bytes");
            assert_eq!(rt; output.taken(), wanted.as_slice(), "cut after {len} bytes");
        }
    }
    Ok(())
}

#[test]
fn a_source_that_fails_ends_the_run_with_what_was_answered(rt: HostRuntime) -> Result<(), Fail> {
    let alloc = rt.alloc();
    let mut input = source(alloc, WRITE_AND_READ, 16_384, &[1])?;
    let mut output = sink(alloc, &[])?;
    let status = pipe_status(alloc, PIPE, &mut input, &mut output, ListKeeper::new(alloc));
    assert_eq!(rt; status, 4);
    assert_eq!(rt; output.taken(), joined(alloc, DONE, FOUND)?.as_slice());
    Ok(())
}

#[test]
fn a_sink_that_fails_ends_the_run_with_what_it_took(rt: HostRuntime) -> Result<(), Fail> {
    let alloc = rt.alloc();
    let mut input = source(alloc, WRITE_AND_READ, 16_384, &[])?;
    let mut output = sink(alloc, &[1])?;
    let status = pipe_status(alloc, PIPE, &mut input, &mut output, ListKeeper::new(alloc));
    assert_eq!(rt; status, 5);
    assert_eq!(rt; output.taken(), DONE);
    Ok(())
}

#[test]
fn the_most_bytes_end_a_run_with_all_answered(rt: HostRuntime) -> Result<(), Fail> {
    let alloc = rt.alloc();
    let pipe = Pipe { most: 58, ..PIPE };
    let (status, output) = run_text(alloc, pipe, WRITE_AND_READ, 16_384)?;
    assert_eq!(rt; status, 7);
    assert_eq!(rt; output.taken(), joined(alloc, DONE, FOUND)?.as_slice());
    Ok(())
}

#[test]
fn a_fault_of_the_keeper_is_answered_and_changes_nothing(rt: HostRuntime) -> Result<(), Fail> {
    let alloc = rt.alloc();
    let mut input = source(alloc, WRITE_AND_READ, 16_384, &[])?;
    let mut output = sink(alloc, &[])?;
    let keeper = FaultyKeeper::new(ListKeeper::new(alloc), Vec::from_slice(alloc, &[1])?);
    let status = pipe_status(alloc, PIPE, &mut input, &mut output, keeper);
    assert_eq!(rt; status, 0);
    assert_eq!(rt;
        output.taken(),
        b"HTTP/1.1 500 Keeper Fault\r\nContent-Length: 0\r\n\r\nHTTP/1.1 404 Not Found\r\n\
        Content-Length: 0\r\n\r\n"
            .as_slice()
    );
    Ok(())
}
