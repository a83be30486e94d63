//! A file that the program wrote before items had an end is carried on.
ghost use Rattle.std.specs.Prelude.{IfOk, IsTrue};
ghost use Rattle.sqlite_disk.specs.Memory.{memory_is_usable};

use crate::keepers::{key, number};
use asp_base::{Bytes, NoMemory};
use keeper::Keeper;
use session_machine::{Hold, Item};
use sqlite::{Connection, FileStore, Files, Options};
use sqlite_disk::{Disk, Memory};
use sqlite_keeper::SqliteKeeper;
use std::alloc::Global;
use std::test::Fail;

/// What `pipe 0 1000 7` wrote for a write on `/a` with 525,600 minutes and the content `x`, a write
/// on `/b` with no content, and an acquire of `/b`: each part with its place. The four pages hold
/// zeros between the parts, and what lay in free places is zeros here too.
const PARTS: [(usize, &[u8]); 13] = [
    (
        0,
        b"SQLite format 3\x00\x10\x00\x02\x02\x00@  \x00\x00\x00\x00\x00\x00\x00\x04",
    ),
    (43, b"\x04\x00\x00\x00\x04"),
    (59, b"\x01"),
    (
        97,
        b".v\x88\x0d\x00\x00\x00\x03\x0ev\x00\x0f\x05\x0e\xda\x0ev",
    ),
    (
        3702,
        b"b\x03\x07\x17+\x17\x01\x81\x0findexitems_by_expiryitems\x04\
            CREATE INDEX IF NOT EXISTS items_by_expiry ON items (expiry, key))",
    ),
    (
        3803,
        b"\x02\x06\x17=\x17\x01\x00indexsqlite_autoindex_items_1items\x03",
    ),
    (
        3845,
        b"\x81x\x01\x07\x17\x17\x17\x01\x83Otableitemsitems\x02\
            CREATE TABLE IF NOT EXISTS items (key BLOB PRIMARY KEY, \
            body BLOB NOT NULL, minutes INTEGER NOT NULL, fresh INTEGER NOT NULL, \
            cookie INTEGER NOT NULL, since INTEGER NOT NULL, touched INTEGER NOT NULL, \
            expiry INTEGER NOT NULL)",
    ),
    (4096, b"\x0d\x00\x00\x00\x02\x0f\xd3\x00\x0f\xe9\x0f\xd3"),
    (
        8147,
        b"\x14\x02\x09\x10\x0c\x01\x08\x01\x02\x02\x03/b\x14\x07\x07\xd0\x07\xd0\x12WP\x15\x01\
            \x09\x10\x0e\x03\x08\x08\x08\x08\x05/ax\x08\x05 \x00\x07W\xb1,\x00",
    ),
    (8192, b"\x0a\x00\x00\x00\x02\x0f\xf3\x00\x0f\xfa\x0f\xf3"),
    (12275, b"\x06\x03\x10\x01/b\x02\x05\x03\x10\x09/a"),
    (12288, b"\x0a\x00\x00\x00\x02\x0f\xe8\x00\x0f\xe8\x0f\xf3"),
    (
        16360,
        b"\x0a\x04\x03\x10\x01\x12WP/b\x02\x0c\x04\x05\x10\x09\x00\x07W\xb1,\x00/a",
    ),
];

/// How long the file is.
const LENGTH: usize = 16_384;

/// The file.
fn old_file(alloc: Global) -> Result<Memory, Fail>
    ensures { IfOk result (λ file. IsTrue (memory_is_usable file)) }
{
    let mut bytes: Vec<u8> = Vec::new(alloc);
    for (at, part) in PARTS {
        bytes.resize(at, 0)?;
        bytes.extend_from_slice(part)?;
    }
    bytes.resize(LENGTH, 0)?;
    let mut file = Memory::new(alloc);
    file.write_at(0, &bytes)?;
    Ok(file)
}

/// A connection to the file.
fn opened(alloc: Global) -> Result<Connection<FileStore<Memory>>, Fail> {
    let files = Files {
        log: Memory::new(alloc),
        db: old_file(alloc)?,
    };
    match Connection::open_files(alloc, files, Options::new(1)) {
        Ok(connection) => Ok(connection),
        Err(_) => Err("the file is refused".into()),
    }
}

/// An item that has no end of its own.
fn item(
    alloc: Global,
    content: &[u8],
    minutes: u64,
    touched: u64,
    holder: Option<Hold>,
) -> Result<Item, NoMemory> {
    Ok(Item {
        body: Bytes::copy(alloc, content)?,
        minutes,
        fresh: false,
        holder,
        touched,
        ends: 9_223_372_036_854_775_807,
    })
}

#[test]
fn old_file_is_carried_on(rt: HostRuntime) -> Result<(), Fail> {
    let alloc = rt.alloc();
    let mut keeper = SqliteKeeper::over(alloc, opened(alloc)?)?;
    let found = keeper.get(&key(alloc, b'a')?)?;
    assert_eq!(rt; found, Some(item(alloc, b"x", 525_600, 0, None)?));
    let lock = Hold {
        cookie: 7,
        since: 2000,
    };
    let found = keeper.get(&key(alloc, b'b')?)?;
    assert_eq!(rt; found, Some(item(alloc, b"", 20, 2000, Some(lock))?));
    assert_eq!(rt; keeper.faults(), 0);
    let mut connection = keeper.into_connection();
    assert_eq!(rt; number(&mut connection, "SELECT count(*) FROM items")?, 0);
    assert_eq!(rt; number(&mut connection, "SELECT count(*) FROM items2")?, 2);
    Ok(())
}
