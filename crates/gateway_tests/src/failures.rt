//! Each read and each write of a run fails once.
use crate::running::{sink, source, status_over, values, words_of};
use keeper::MapKeeper;
use std::test::Fail;

const TOUCH: &[u8] =
    b"GET /touch HTTP/1.1\r\nCookie: ASP.NET_SessionId=baaaaaaaaaaaaaaaaaaaaaaa\r\n\r\n";

const TOUCHED: &[u8] = b"HTTP/1.1 200 OK\r\nContent-Length: 0\r\n\r\n";

#[test]
fn a_read_that_fails_ends_the_run_with_what_was_answered(rt: HostRuntime) -> Result<(), Fail> {
    let alloc = rt.alloc();
    let words = words_of(alloc, &["gate", "cookie", "0", "0"])?;
    let len = TOUCH.len() as u64;
    for call in 0..=len {
        let mut input = source(alloc, TOUCH, 1, &[call])?;
        let mut output = sink(alloc, 16_384, &[])?;
        let random = values(alloc, &[])?;
        let keeper = MapKeeper::new(alloc);
        let status = status_over(alloc, &words, &mut input, &mut output, keeper, random);
        assert_eq!(rt; status, 4, "read {call}");
        let wanted = if call == len { TOUCHED } else { &[] };
        assert_eq!(rt; output.taken(), wanted, "read {call}");
    }
    Ok(())
}

#[test]
fn a_write_that_fails_ends_the_run_with_what_was_taken(rt: HostRuntime) -> Result<(), Fail> {
    let alloc = rt.alloc();
    let words = words_of(alloc, &["gate", "cookie", "0", "0"])?;
    let len = TOUCHED.len() as u64;
    for call in 0..=len {
        let mut input = source(alloc, TOUCH, 16_384, &[])?;
        let mut output = sink(alloc, 1, &[call])?;
        let random = values(alloc, &[])?;
        let keeper = MapKeeper::new(alloc);
        let status = status_over(alloc, &words, &mut input, &mut output, keeper, random);
        assert_eq!(rt; status, if call < len { 5 } else { 0 }, "write {call}");
        assert!(rt;
            Some(output.taken()) == TOUCHED.get(..call as usize),
            "write {call}"
        );
    }
    Ok(())
}
