//! Loads by the command line, and their requests on a connection.
ghost use Rattle.std.specs.Prelude.{◌≡◌};
ghost use Rattle.keeper.specs.Items.{IsEmptyTold};

use crate::edges::words_of;
use crate::running::{PIPE, command_status, run_text, sink, source, spelled};
use asp_base::{MemorySink, read_number};
use keeper::{Keeper, ListKeeper, MapKeeper};
use pipe_command::Pipe;
use std::alloc::Global;
use std::test::Fail;

/// The canonical texts of the requests of `load 10 1`.
pub const TEN: &[u8] =
    b"GET %2F2104 HTTP/1.1\r\nHost: state\r\nExclusive: acquire\r\n\r\nGET %2F719 HTTP/1.1\r\n\
    Host: state\r\nExclusive: acquire\r\n\r\nPUT %2F1264 HTTP/1.1\r\nHost: state\r\nTimeout: 20\r\n\
    Content-Length: 1\r\n\r\n3PUT %2F2189 HTTP/1.1\r\nHost: state\r\nTimeout: 20\r\n\
    Content-Length: 1\r\n\r\n4PUT %2F3881 HTTP/1.1\r\nHost: state\r\nTimeout: 20\r\n\
    Content-Length: 1\r\n\r\n5PUT %2F703 HTTP/1.1\r\nHost: state\r\nTimeout: 20\r\n\
    Content-Length: 1\r\n\r\n6GET %2F2876 HTTP/1.1\r\nHost: state\r\n\r\nPUT %2F927 HTTP/1.1\r\n\
    Host: state\r\nTimeout: 20\r\nContent-Length: 1\r\n\r\n8GET %2F2026 HTTP/1.1\r\nHost: state\r\n\
    Exclusive: release\r\nLockCookie: 0\r\n\r\nGET %2F510 HTTP/1.1\r\nHost: state\r\n\
    Exclusive: acquire\r\n\r\n";

const TEN_COUNTED: &[u8] =
    b"requests 10\n200 5\n400 0\n404 5\n423 0\n500 0\n503 0\n507 0\nremoved 5\n";

/// The status of `load` over the keeper, and what it wrote.
fn load<K: Keeper + Drop>(
    alloc: Global,
    requests: &str,
    seed: &str,
    keeper: K,
) -> Result<(u8, MemorySink), Fail>
    requires no_faults { K.count keeper ≡ 0 }
    requires empty { IsEmptyTold (K.told keeper) }
{
    let given = words_of(alloc, &["load", requests, seed])?;
    let mut input = source(alloc, b"", 16_384, &[])?;
    let mut output = sink(alloc, &[])?;
    let status = command_status(alloc, &given, &mut input, &mut output, keeper);
    Ok((status, output))
}

/// How many replies the lines from `200` to `507` count.
fn replies_counted(text: &[u8]) -> u64 {
    let mut count: u64 = 0;
    for line in text.split(|byte| *byte == b'\n').skip(1).take(7) {
        let number = line.split(|byte| *byte == b' ').last().unwrap_or(b"");
        count = count.saturating_add(read_number(number, 1_000_000).unwrap_or(0));
    }
    count
}

#[test]
fn a_load_counts_its_replies(rt: HostRuntime) -> Result<(), Fail> {
    let alloc = rt.alloc();
    let (status, output) = load(alloc, "10", "1", MapKeeper::new(alloc))?;
    assert_eq!(rt; status, 0);
    assert_eq!(rt; output.taken(), TEN_COUNTED);
    Ok(())
}

#[test]
fn a_load_writes_the_same_over_both_keepers(rt: HostRuntime) -> Result<(), Fail> {
    let alloc = rt.alloc();
    let (status, output) = load(alloc, "20000", "7", ListKeeper::new(alloc))?;
    let (again, other) = load(alloc, "20000", "7", MapKeeper::new(alloc))?;
    assert_eq!(rt; status, 0);
    assert_eq!(rt; again, 0);
    assert_eq!(rt; output.taken(), other.taken());
    assert_eq!(rt; replies_counted(output.taken()), 20_000);
    Ok(())
}

#[test]
fn a_load_writes_the_same_each_time(rt: HostRuntime) -> Result<(), Fail> {
    let alloc = rt.alloc();
    let (status, output) = load(alloc, "10000", "1", MapKeeper::new(alloc))?;
    let (again, other) = load(alloc, "10000", "1", MapKeeper::new(alloc))?;
    assert_eq!(rt; status, 0);
    assert_eq!(rt; again, 0);
    assert_eq!(rt; output.taken(), other.taken());
    assert_eq!(rt; replies_counted(output.taken()), 10_000);
    Ok(())
}

#[test]
fn a_load_of_many_requests_is_written(rt: HostRuntime) -> Result<(), Fail> {
    let alloc = rt.alloc();
    let (status, output) = load(alloc, "200000", "1", MapKeeper::new(alloc))?;
    assert_eq!(rt; status, 0);
    assert_eq!(rt; replies_counted(output.taken()), 200_000);
    Ok(())
}

#[test]
fn the_requests_of_a_load_are_answered_so_on_a_connection(rt: HostRuntime) -> Result<(), Fail> {
    let alloc = rt.alloc();
    let pipe = Pipe {
        start: 1000,
        ..PIPE
    };
    let (status, output) = run_text(alloc, pipe, TEN, 16_384)?;
    assert_eq!(rt; status, 0);
    assert_eq!(rt;
        spelled(alloc, output.taken())?.as_slice(),
        b"missing\nmissing\ndone\ndone\ndone\ndone\nmissing\ndone\nmissing\nmissing\n".as_slice()
    );
    Ok(())
}
