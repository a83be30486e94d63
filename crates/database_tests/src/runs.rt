//! Runs over a database, from bytes to bytes.
use crate::keepers::{in_memory, number, run};
use asp_base::{Bytes, MemorySink, MemorySource};
use sqlite::{Alter, Connection, File, FileStore};
use sqlite_keeper::SqliteKeeper;
use std::alloc::Global;
use std::fs;
use std::test::Fail;
use stored_command::command_stored;

/// A write and an acquire, and the replies to them.
const WRITE_AND_ACQUIRE: &[u8] = b"PUT /a HTTP/1.1\r\nContent-Length: 1\r\n\r\nx\
    GET /a HTTP/1.1\r\nExclusive: acquire\r\n\r\n";

const DONE_AND_FOUND: &[u8] = b"HTTP/1.1 200 OK\r\nContent-Length: 0\r\n\r\n\
    HTTP/1.1 200 OK\r\nTimeout: 20\r\nLockCookie: 1\r\nContent-Length: 1\r\n\r\nx";

/// A write under the cookie of that acquire, another acquire, and the replies to them.
const WRITE_UNDER_IT_AND_ACQUIRE: &[u8] =
    b"PUT /a HTTP/1.1\r\nLockCookie: 1\r\nContent-Length: 1\r\n\r\ny\
    GET /a HTTP/1.1\r\nExclusive: acquire\r\n\r\n";

const DONE_AND_FOUND_LATER: &[u8] = b"HTTP/1.1 200 OK\r\nContent-Length: 0\r\n\r\n\
    HTTP/1.1 200 OK\r\nTimeout: 20\r\nLockCookie: 4294967297\r\nContent-Length: 1\r\n\r\ny";

/// The status and what was written, and the database after it.
#[derive(Drop)]
struct Ran<S: Alter> {
    status: u8,
    sink: MemorySink,
    database: Connection<S>,
}

/// Runs these words over the database.
fn run_over<S: Alter + Drop>(
    alloc: Global,
    database: Connection<S>,
    given: &[&str],
    text: &[u8],
) -> Result<Ran<S>, Fail> {
    let mut words = Vec::new(alloc);
    for word in given {
        words.push(String::from_str(alloc, word)?)?;
    }
    let text = Bytes::adopt(Vec::from_slice(alloc, text)?);
    let mut source = MemorySource::new(text, 16, Vec::new(alloc));
    let Ok(mut sink) = MemorySink::new(alloc, 16_384, 16_384, Vec::new(alloc)) else {
        return Err("no memory".into());
    };
    let keeper = SqliteKeeper::over(alloc, database)?;
    let ran = command_stored(alloc, &words, &mut source, &mut sink, keeper);
    Ok(Ran {
        status: ran.status,
        sink,
        database: ran.keeper.into_connection(),
    })
}

#[test]
fn items_and_cookies_go_on_from_run_to_run(rt: HostRuntime) -> Result<(), Fail> {
    let alloc = rt.alloc();
    let database = Connection::open_in_memory(alloc)?;
    let words = ["pipe", "0", "1000", "1", "f"];
    let ran = run_over(alloc, database, &words, WRITE_AND_ACQUIRE)?;
    assert_eq!(rt; ran.status, 0);
    assert_eq!(rt; ran.sink.taken(), DONE_AND_FOUND);
    let words = ["pipe", "5000", "1000", "1", "f"];
    let ran = run_over(alloc, ran.database, &words, WRITE_UNDER_IT_AND_ACQUIRE)?;
    assert_eq!(rt; ran.status, 0);
    assert_eq!(rt; ran.sink.taken(), DONE_AND_FOUND_LATER);
    Ok(())
}

/// A connection to the file of this name, which is made where it is absent.
fn opened(rt: &HostRuntime, name: &str) -> Result<Connection<FileStore<File>>, Fail> {
    Ok(Connection::open(rt, name)?)
}

#[test]
fn they_go_on_in_a_file(rt: HostRuntime) -> Result<(), Fail> {
    let alloc = rt.alloc();
    let name = "goes-on.db";
    let words = ["pipe", "0", "1000", "1", name];
    let ran = run_over(alloc, opened(&rt, name)?, &words, WRITE_AND_ACQUIRE)?;
    assert_eq!(rt; ran.sink.taken(), DONE_AND_FOUND);
    drop(ran.database);
    let words = ["pipe", "5000", "1000", "1", name];
    let ran = run_over(
        alloc,
        opened(&rt, name)?,
        &words,
        WRITE_UNDER_IT_AND_ACQUIRE,
    )?;
    assert_eq!(rt; ran.sink.taken(), DONE_AND_FOUND_LATER);
    drop(ran.database);
    fs::remove_file(&rt, name)?;
    fs::remove_file(&rt, "goes-on.db-wal")?;
    Ok(())
}

/// A page finds what an earlier run left, with a cookie of its own block; a journal begins with what
/// was asked of it, and its cookies at FIRST, where that is above the block before.
#[test]
fn pages_and_journals_go_on_too(rt: HostRuntime) -> Result<(), Fail> {
    let alloc = rt.alloc();
    let database = Connection::open_in_memory(alloc)?;
    let write = b"PUT /a HTTP/1.1\r\nContent-Length: 1\r\n\r\nx";
    let ran = run_over(alloc, database, &["trace", "0", "0", "1", "f"], write)?;
    assert_eq!(rt;
        ran.sink.taken(),
        b"asp-journal 3 0\n0 0 0 0 x2f61 write 0 20 0 x78 : done\n".as_slice()
    );
    let page = b"page p x2f61 exclusive keep\nstep 0 p\nstep 1 p\nstep 2 p\nstep 3 p\n";
    let ran = run_over(alloc, ran.database, &["drive", "f"], page)?;
    assert_eq!(rt;
        ran.sink.taken(),
        b"0 p acquire : found 4294967297 20 0 x78\n1 p run 0 x78\n\
            2 p release 4294967297 : done\n3 p over done\n"
            .as_slice()
    );
    let acquire = b"GET /a HTTP/1.1\r\nExclusive: acquire\r\n\r\n";
    let words = ["trace", "9", "0", "9000000000000000000", "f"];
    let ran = run_over(alloc, ran.database, &words, acquire)?;
    assert_eq!(rt;
        ran.sink.taken(),
        b"asp-journal 3 0\n0 9 0 9000000000000000000 x2f61 acquire : \
            found 9000000000000000000 20 0 x78\n"
            .as_slice()
    );
    Ok(())
}

#[test]
fn run_without_a_block_reads_nothing(rt: HostRuntime) -> Result<(), Fail> {
    let alloc = rt.alloc();
    let mut database = in_memory(alloc)?.into_connection();
    let text = "INSERT INTO items2 VALUES (x'2f61', x'78', 1, 0, 'none', 0, 0, 60000, 60000)";
    run(&mut database, text)?;
    let words = ["pipe", "0", "1000", "1", "f"];
    let mut ran = run_over(alloc, database, &words, WRITE_AND_ACQUIRE)?;
    assert_eq!(rt; ran.status, 16);
    assert_eq!(rt; ran.sink.taken(), b"".as_slice());
    assert_eq!(rt; number(&mut ran.database, "SELECT last FROM cookies")?, 0);
    assert_eq!(rt;
        number(&mut ran.database, "SELECT count(*) FROM items2")?,
        1
    );
    Ok(())
}

#[test]
fn other_words_take_no_block(rt: HostRuntime) -> Result<(), Fail> {
    let alloc = rt.alloc();
    let database = Connection::open_in_memory(alloc)?;
    let words = ["pipe", "0", "1000", "1"];
    let mut ran = run_over(alloc, database, &words, WRITE_AND_ACQUIRE)?;
    assert_eq!(rt; ran.status, 2);
    assert_eq!(rt; number(&mut ran.database, "SELECT last FROM cookies")?, 0);
    Ok(())
}
