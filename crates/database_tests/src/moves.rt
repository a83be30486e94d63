//! The rows of `items`, which earlier versions wrote, are moved to `items2`.
use crate::keepers::{in_memory, key, number, run};
use asp_base::{Bytes, NoMemory};
use keeper::Keeper;
use session_machine::Item;
use sqlite::{Connection, MemStore};
use sqlite_keeper::SqliteKeeper;
use std::alloc::Global;
use std::test::Fail;

const A_OLD: &str = "INSERT INTO items VALUES (x'2f61', x'78', 1, 0, 0, 0, 0, 60000)";

const A_NEW: &str =
    "INSERT INTO items2 VALUES (x'2f61', x'78', 1, 0, 0, 0, 0, 9223372036854775807, 60000)";

const B_OLD: &str = "INSERT INTO items VALUES (x'2f62', x'79', 2, 1, 0, 0, 3, 120003)";

const B_NEW: &str =
    "INSERT INTO items2 VALUES (x'2f62', x'79', 2, 1, 0, 0, 3, 9223372036854775807, 120003)";

/// What the tables hold before the move and after each of its statements.
const STOPS: [&[&str]; 5] = [
    &[A_OLD, B_OLD],
    &[A_OLD, B_OLD, A_NEW],
    &[B_OLD, A_NEW],
    &[B_OLD, A_NEW, B_NEW],
    &[A_NEW, B_NEW],
];

/// A free item that has no end of its own.
fn item(
    alloc: Global,
    content: u8,
    minutes: u64,
    fresh: bool,
    touched: u64,
) -> Result<Item, NoMemory> {
    Ok(Item {
        body: Bytes::copy(alloc, &[content])?,
        minutes,
        fresh,
        holder: None,
        touched,
        ends: 9_223_372_036_854_775_807,
    })
}

/// Tables that hold what the statements write.
fn holding(alloc: Global, texts: &[&str]) -> Result<Connection<MemStore>, Fail> {
    let mut connection = in_memory(alloc)?.into_connection();
    for text in texts {
        run(&mut connection, text)?;
    }
    Ok(connection)
}

#[test]
fn move_goes_on_wherever_it_was_stopped(rt: HostRuntime) -> Result<(), Fail> {
    let alloc = rt.alloc();
    for texts in STOPS {
        let mut keeper = SqliteKeeper::over(alloc, holding(alloc, texts)?)?;
        let found = keeper.get(&key(alloc, b'a')?)?;
        assert_eq!(rt; found, Some(item(alloc, b'x', 1, false, 0)?));
        let found = keeper.get(&key(alloc, b'b')?)?;
        assert_eq!(rt; found, Some(item(alloc, b'y', 2, true, 3)?));
        assert_eq!(rt; keeper.faults(), 0);
        let mut connection = keeper.into_connection();
        assert_eq!(rt; number(&mut connection, "SELECT count(*) FROM items")?, 0);
        assert_eq!(rt; number(&mut connection, "SELECT count(*) FROM items2")?, 2);
    }
    Ok(())
}

#[test]
fn newer_row_of_a_key_is_kept(rt: HostRuntime) -> Result<(), Fail> {
    let alloc = rt.alloc();
    let newer = "INSERT INTO items2 VALUES (x'2f61', x'7a', 1, 0, 0, 0, 7, 50000, 50000)";
    let mut keeper = SqliteKeeper::over(alloc, holding(alloc, &[A_OLD, newer])?)?;
    let found = keeper.get(&key(alloc, b'a')?)?;
    let mut kept = item(alloc, b'z', 1, false, 7)?;
    kept.ends = 50_000;
    assert_eq!(rt; found, Some(kept));
    let mut connection = keeper.into_connection();
    assert_eq!(rt; number(&mut connection, "SELECT count(*) FROM items")?, 0);
    Ok(())
}
