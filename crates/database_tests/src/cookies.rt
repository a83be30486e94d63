//! Blocks of cookies, over one connection after another, and which databases a keeper knows.
use crate::keepers::{in_memory, number, run};
use keeper::{KeepError, Keeper};
use sqlite::{Connection, MemStore};
use sqlite_keeper::{CookieBlock, SqliteKeeper};
use std::alloc::Global;
use std::test::Fail;

/// The greatest cookie.
const GREATEST: u64 = 9_223_372_036_854_775_807;

/// A row of `/a`, held under this cookie since moment 0.
fn held(alloc: Global, cookie: u64) -> Result<String, Fail> {
    Ok(format!(in alloc;
        "INSERT INTO items2 VALUES (x'2f61', x'78', 1, 0, {cookie}, 0, 0, {GREATEST}, 60000)"
    )?)
}

/// A keeper over tables in memory, in which this statement was run.
fn after(alloc: Global, text: &str) -> Result<SqliteKeeper<MemStore>, Fail> {
    let mut connection = in_memory(alloc)?.into_connection();
    run(&mut connection, text)?;
    Ok(SqliteKeeper::over(alloc, connection)?)
}

/// The block from `first` to `last`.
fn block(first: u64, last: u64) -> Option<CookieBlock> {
    Some(CookieBlock { first, last })
}

#[test]
fn blocks_go_on_where_the_last_one_ended(rt: HostRuntime) -> Result<(), Fail> {
    let alloc = rt.alloc();
    let mut keeper = in_memory(alloc)?;
    assert_eq!(rt; keeper.block(1)?, block(1, 4_294_967_296));
    let mut keeper = SqliteKeeper::over(alloc, keeper.into_connection())?;
    assert_eq!(rt; keeper.block(1)?, block(4_294_967_297, 8_589_934_592));
    assert_eq!(rt; keeper.block(5)?, block(8_589_934_593, 12_884_901_888));
    // A gap before a block is no harm.
    assert_eq!(rt;
        keeper.block(1 << 40)?,
        block(1 << 40, (1 << 40) + 4_294_967_295)
    );
    let mut connection = keeper.into_connection();
    let last = number(&mut connection, "SELECT last FROM cookies WHERE id = 1")?;
    assert_eq!(rt; last, (1 << 40) + 4_294_967_295);
    Ok(())
}

#[test]
fn last_block_ends_at_the_greatest_cookie(rt: HostRuntime) -> Result<(), Fail> {
    let alloc = rt.alloc();
    let mut keeper = in_memory(alloc)?;
    assert_eq!(rt; keeper.block(GREATEST)?, block(GREATEST, GREATEST));
    assert_eq!(rt; keeper.block(1)?, None);
    assert_eq!(rt; keeper.faults(), 0);
    let mut keeper = SqliteKeeper::over(alloc, keeper.into_connection())?;
    assert_eq!(rt; keeper.block(1)?, None);
    Ok(())
}

#[test]
fn block_begins_above_each_cookie_that_is_held(rt: HostRuntime) -> Result<(), Fail> {
    let alloc = rt.alloc();
    let mut keeper = after(alloc, held(alloc, 7)?.as_str())?;
    assert_eq!(rt; keeper.block(1)?, block(8, 4_294_967_303));
    let mut keeper = after(alloc, held(alloc, GREATEST)?.as_str())?;
    assert_eq!(rt; keeper.block(1)?, None);
    assert_eq!(rt; keeper.faults(), 0);
    Ok(())
}

#[test]
fn cookie_that_is_no_number_is_a_counted_fault(rt: HostRuntime) -> Result<(), Fail> {
    let alloc = rt.alloc();
    let text = "INSERT INTO items2 VALUES (x'2f61', x'78', 1, 0, 'none', 0, 0, 60000, 60000)";
    let mut keeper = after(alloc, text)?;
    assert_eq!(rt; keeper.block(1), Err(KeepError::Fault));
    assert_eq!(rt; keeper.faults(), 1);
    // The last cookie is as it was.
    let mut connection = keeper.into_connection();
    assert_eq!(rt; number(&mut connection, "SELECT last FROM cookies")?, 0);
    Ok(())
}

/// Whether a keeper over a database in which these statements were run knows its tables.
fn knows(alloc: Global, texts: &[&str]) -> Result<bool, Fail> {
    let mut connection = Connection::open_in_memory(alloc)?;
    for text in texts {
        run(&mut connection, text)?;
    }
    Ok(SqliteKeeper::over(alloc, connection)?.knows_tables())
}

#[test]
fn tables_are_known_where_they_stand_alone(rt: HostRuntime) -> Result<(), Fail> {
    let alloc = rt.alloc();
    assert!(rt; knows(alloc, &[])?);
    // Opened again, and with rows.
    let keeper = after(alloc, held(alloc, 7)?.as_str())?;
    assert!(rt; keeper.knows_tables());
    // The table that earlier versions made is known.
    let old = "CREATE TABLE items (key BLOB PRIMARY KEY, body BLOB NOT NULL, \
        minutes INTEGER NOT NULL, fresh INTEGER NOT NULL, cookie INTEGER NOT NULL, \
        since INTEGER NOT NULL, touched INTEGER NOT NULL, expiry INTEGER NOT NULL)";
    assert!(rt; knows(alloc, &[old])?);
    // A table of the user's, an index of the user's, and an open transaction.
    assert!(rt; !knows(alloc, &["CREATE TABLE visits (key BLOB)"])?);
    let index = "CREATE INDEX by_touch ON items2 (touched)";
    assert!(rt; !after(alloc, index)?.knows_tables());
    assert!(rt; !knows(alloc, &["BEGIN"])?);
    // A second row of the last cookie.
    assert!(rt; !after(alloc, "INSERT INTO cookies VALUES (2, 5)")?.knows_tables());
    Ok(())
}

#[test]
fn last_cookie_out_of_range_is_refused(rt: HostRuntime) -> Result<(), Fail> {
    let alloc = rt.alloc();
    for text in [
        "UPDATE cookies SET last = -1",
        "UPDATE cookies SET last = 'none'",
        "DROP TABLE cookies",
    ] {
        let mut connection = in_memory(alloc)?.into_connection();
        run(&mut connection, text)?;
        if text.starts_with("DROP") {
            run(
                &mut connection,
                "CREATE TABLE cookies (id INTEGER, last INTEGER)",
            )?;
        }
        let refused = SqliteKeeper::over(alloc, connection);
        assert!(rt; matches!(refused, Err(KeepError::Fault)), "at {text}");
    }
    Ok(())
}
