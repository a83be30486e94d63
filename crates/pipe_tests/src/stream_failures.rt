//! Each read and each write of a run fails once.
use crate::pieces::{DONE, FOUND, joined, sink};
use crate::running::{PIPE, WRITE_AND_READ, pipe_status, source};
use keeper::MapKeeper;
use std::test::Fail;

#[test]
fn a_read_that_fails_ends_the_run_with_what_was_answered(rt: HostRuntime) -> Result<(), Fail> {
    let alloc = rt.alloc();
    let whole = joined(alloc, &[DONE, FOUND])?;
    // The k-th read comes when k bytes were taken; the 59th finds the end.
    for call in 0..=58 {
        let wanted = match call {
            0..=38 => 0,
            39..=57 => 38,
            _ => 90,
        };
        let mut input = source(alloc, WRITE_AND_READ, 1, &[call])?;
        let mut output = sink(alloc, 16_384, &[])?;
        let status = pipe_status(alloc, PIPE, &mut input, &mut output, MapKeeper::new(alloc));
        assert_eq!(rt; status, 4, "read {call}");
        assert!(rt; Some(output.taken()) == whole.get(..wanted), "read {call}");
    }
    Ok(())
}

#[test]
fn a_write_that_fails_ends_the_run_with_what_was_taken(rt: HostRuntime) -> Result<(), Fail> {
    let alloc = rt.alloc();
    let whole = joined(alloc, &[DONE, FOUND])?;
    for call in 0..=90 {
        let mut input = source(alloc, WRITE_AND_READ, 16_384, &[])?;
        let mut output = sink(alloc, 1, &[call])?;
        let status = pipe_status(alloc, PIPE, &mut input, &mut output, MapKeeper::new(alloc));
        let wanted = if call < 90 { 5 } else { 0 };
        assert_eq!(rt; status, wanted, "write {call}");
        assert!(rt;
            Some(output.taken()) == whole.get(..call as usize),
            "write {call}"
        );
    }
    Ok(())
}
