//! Commands whose sink fails, or has no room for all that they write.
use crate::edges::words_of;
use crate::running::{WRITE_AND_READ, command_status, source};
use asp_base::MemorySink;
use keeper::ListKeeper;
use std::alloc::Global;
use std::test::Fail;

/// The words of a command, the input, for how many bytes the sink has room, which writes fail, and
/// what was taken then.
type Row = (
    &'static str,
    &'static [u8],
    u64,
    &'static [u64],
    &'static str,
);

const ROWS: [Row; 11] = [
    ("load 10 1", b"", 1_024, &[0], ""),
    ("load 10 1", b"", 9, &[], "requests "),
    ("id 010000000000000000000000000000", b"", 1_024, &[0], ""),
    ("id 010000000000000000000000000000", b"", 3, &[], "baa"),
    (
        "id 010000000000000000000000000000",
        b"",
        24,
        &[],
        "baaaaaaaaaaaaaaaaaaaaaaa",
    ),
    ("pipe 0 1000 1", WRITE_AND_READ, 0, &[], ""),
    (
        "pipe 0 1000 1",
        WRITE_AND_READ,
        53,
        &[],
        "HTTP/1.1 200 OK\r\nContent-Length: 0\r\n\r\nHTTP/1.1 200 OK",
    ),
    (
        "trace 0 1000 1",
        WRITE_AND_READ,
        20,
        &[],
        "asp-journal 3 0\n0 0 ",
    ),
    ("replay", b"asp-journal 3 0\n", 5, &[], "legal"),
    ("replay", b"", 1_024, &[0], ""),
    (
        "drive",
        b"page a x2f off keep\nstep 0 a\n",
        10,
        &[],
        "0 a reset ",
    ),
];

/// The status of the words, and what the sink took.
fn run_row(alloc: Global, row: &Row) -> Result<(u8, MemorySink), Fail> {
    let (line, text, room, fails, _) = *row;
    let mut words = Vec::new(alloc);
    for word in line.split(' ') {
        words.push(word)?;
    }
    let given = words_of(alloc, &words)?;
    let mut input = source(alloc, text, 16_384, &[])?;
    let fails = Vec::from_slice(alloc, fails)?;
    let Ok(mut output) = MemorySink::new(alloc, room, 16_384, fails) else {
        return Err("no memory".into());
    };
    let keeper = ListKeeper::new(alloc);
    let status = command_status(alloc, &given, &mut input, &mut output, keeper);
    Ok((status, output))
}

#[test]
fn a_sink_that_takes_no_more_ends_each_command(rt: HostRuntime) -> Result<(), Fail> {
    for row in &ROWS {
        let (status, output) = run_row(rt.alloc(), row)?;
        let (line, _, _, _, taken) = row;
        assert_eq!(rt; status, 5, "{line}");
        assert!(rt; output.taken() == taken.as_bytes(), "{line}");
    }
    Ok(())
}
