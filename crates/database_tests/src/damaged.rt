//! Rows that are no key or no item in range, and tables of another form.
use crate::keepers::{in_memory, key};
use keeper::{KeepError, Keeper};
use sqlite::{Connection, MemStore, params};
use sqlite_keeper::SqliteKeeper;
use std::alloc::Global;
use std::test::Fail;

/// A keeper over one row of these values, where `?1` are so many bytes of 0.
fn over_row(alloc: Global, values: &str, zeros: usize) -> Result<SqliteKeeper<MemStore>, Fail> {
    let mut connection = in_memory(alloc)?.into_connection();
    let mut text = String::new(alloc);
    text.push_str("INSERT INTO items2 VALUES (")?;
    text.push_str(values)?;
    text.push_str(")")?;
    let mut bytes: Vec<u8> = Vec::new(alloc);
    bytes.resize(zeros, 0)?;
    if zeros > 0 {
        connection.execute(text.as_str(), params![&bytes])?;
    } else {
        connection.execute(text.as_str(), &[])?;
    }
    Ok(SqliteKeeper::over(alloc, connection)?)
}

/// Whether the item of `/a` is a counted fault.
fn is_no_item(alloc: Global, values: &str, zeros: usize) -> Result<bool, Fail> {
    let mut keeper = over_row(alloc, values, zeros)?;
    let found = keeper.get(&key(alloc, b'a')?);
    Ok(found == Err(KeepError::Fault) && keeper.faults() == 1)
}

/// Whether the key that is due is a counted fault.
fn is_no_key(alloc: Global, values: &str, zeros: usize) -> Result<bool, Fail> {
    let mut keeper = over_row(alloc, values, zeros)?;
    let found = keeper.due(60_000);
    Ok(found == Err(KeepError::Fault) && keeper.faults() == 1)
}

/// The rows have the columns `key`, `body`, `minutes`, `fresh`, `cookie`, `since`, `touched`,
/// `ends` and `expiry`. The end of most is the last of all, 9223372036854775807.
#[test]
fn rows_out_of_range_are_counted_faults(rt: HostRuntime) -> Result<(), Fail> {
    let alloc = rt.alloc();
    for values in [
        // Minutes out of range.
        "x'2f61', x'78', 0, 0, 0, 0, 0, 9223372036854775807, 0",
        "x'2f61', x'78', 525601, 0, 0, 0, 0, 9223372036854775807, 31536060000",
        // A flag that is unknown.
        "x'2f61', x'78', 1, 2, 0, 0, 0, 9223372036854775807, 60000",
        // A lock with no cookie, with one below 0, and with no moment.
        "x'2f61', x'78', 1, 0, 0, 1, 0, 9223372036854775807, 60000",
        "x'2f61', x'78', 1, 0, -1, 0, 0, 9223372036854775807, 60000",
        "x'2f61', x'78', 1, 0, 1, 'none', 0, 9223372036854775807, 60000",
        "x'2f61', x'78', 1, 0, 1, 4611686018427387905, 0, 9223372036854775807, 60000",
        // A wrong expiry: past its minutes, and past its end.
        "x'2f61', x'78', 1, 0, 0, 0, 0, 9223372036854775807, 60001",
        "x'2f61', x'78', 1, 0, 0, 0, 0, 59999, 60000",
        // An end below 0.
        "x'2f61', x'78', 1, 0, 0, 0, 0, -1, 60000",
        // A text for a body.
        "x'2f61', 'x', 1, 0, 0, 0, 0, 9223372036854775807, 60000",
        // A touch past the last moment.
        "x'2f61', x'78', 1, 0, 0, 0, 4611686018427387905, 9223372036854775807, 4611686018427447905",
    ] {
        assert!(rt; is_no_item(alloc, values, 0)?, "at {values}");
    }
    for values in [
        "x'', x'78', 1, 0, 0, 0, 0, 9223372036854775807, 60000",
        "NULL, x'78', 1, 0, 0, 0, 0, 9223372036854775807, 60000",
        "'/a', x'78', 1, 0, 0, 0, 0, 9223372036854775807, 60000",
    ] {
        assert!(rt; is_no_key(alloc, values, 0)?, "at {values}");
    }
    // Content of 4,194,305 bytes, and a key of 1,025.
    let long = "x'2f61', ?1, 1, 0, 0, 0, 0, 9223372036854775807, 60000";
    assert!(rt; is_no_item(alloc, long, 4_194_305)?);
    let long = "?1, x'78', 1, 0, 0, 0, 0, 9223372036854775807, 60000";
    assert!(rt; is_no_key(alloc, long, 1025)?);
    // No bytes are content, a lock may be held since moment 0, and an end may come first.
    let mut keeper = over_row(alloc, "x'2f61', x'', 1, 0, 1, 0, 0, 59999, 59999", 0)?;
    assert!(rt; keeper.get(&key(alloc, b'a')?)?.is_some());
    Ok(())
}

/// Tables of another form: one column, a key that may stand twice, one column more, a view.
const OTHER_FORMS: [&str; 8] = [
    "CREATE TABLE items2 (key BLOB PRIMARY KEY)",
    "CREATE TABLE items2 (key BLOB, body BLOB, minutes INTEGER, fresh INTEGER, \
        cookie INTEGER, since INTEGER, touched INTEGER, ends INTEGER, expiry INTEGER)",
    "CREATE TABLE items2 (key BLOB PRIMARY KEY, body BLOB, minutes INTEGER, fresh INTEGER, \
        cookie INTEGER, since INTEGER, touched INTEGER, ends INTEGER, expiry INTEGER, owner TEXT)",
    "CREATE VIEW items2 AS SELECT 1 AS key, 2 AS expiry",
    "CREATE TABLE items (key BLOB PRIMARY KEY)",
    "CREATE TABLE items (key BLOB, body BLOB, minutes INTEGER, fresh INTEGER, \
        cookie INTEGER, since INTEGER, touched INTEGER, expiry INTEGER)",
    "CREATE TABLE items (key BLOB PRIMARY KEY, body BLOB, minutes INTEGER, fresh INTEGER, \
        cookie INTEGER, since INTEGER, touched INTEGER, expiry INTEGER, owner TEXT)",
    "CREATE VIEW items AS SELECT 1 AS key, 2 AS expiry",
];

#[test]
fn tables_of_another_form_are_refused(rt: HostRuntime) -> Result<(), Fail> {
    for text in OTHER_FORMS {
        let mut connection = Connection::open_in_memory(rt.alloc())?;
        connection.execute(text, &[])?;
        let refused = SqliteKeeper::over(rt.alloc(), connection);
        assert!(rt; matches!(refused, Err(KeepError::Fault)), "at {text}");
    }
    Ok(())
}
