//! A move that is refused on its way, over files: what was moved stays moved, and no row is lost.
use crate::keepers::{number, run};
use keeper::KeepError;
use sqlite::{Connection, File, FileStore};
use sqlite_keeper::SqliteKeeper;
use std::fs;
use std::test::Fail;

/// Three old rows, of `/a`, `/b` and `/c`.
const OLD_ROWS: [&str; 3] = [
    "INSERT INTO items VALUES (x'2f61', x'78', 1, 0, 0, 0, 0, 60000)",
    "INSERT INTO items VALUES (x'2f62', x'79', 2, 0, 0, 0, 0, 120000)",
    "INSERT INTO items VALUES (x'2f63', x'7a', 1, 0, 0, 0, 0, 60000)",
];

const OLD_TABLE: &str = "CREATE TABLE items (key BLOB PRIMARY KEY, body BLOB NOT NULL, \
    minutes INTEGER NOT NULL, fresh INTEGER NOT NULL, cookie INTEGER NOT NULL, \
    since INTEGER NOT NULL, touched INTEGER NOT NULL, expiry INTEGER NOT NULL)";

/// A new table that refuses the row of `/b`.
const TABLE_OF_ONE_MINUTE: &str = "CREATE TABLE items2 (key BLOB PRIMARY KEY, \
    body BLOB NOT NULL, minutes INTEGER NOT NULL CHECK (minutes < 2), \
    fresh INTEGER NOT NULL, cookie INTEGER NOT NULL, since INTEGER NOT NULL, \
    touched INTEGER NOT NULL, ends INTEGER NOT NULL, expiry INTEGER NOT NULL)";

/// A new table in which no two rows have one content.
const TABLE_OF_ONE_CONTENT: &str = "CREATE TABLE items2 (key BLOB PRIMARY KEY, \
    body BLOB NOT NULL UNIQUE, minutes INTEGER NOT NULL, fresh INTEGER NOT NULL, \
    cookie INTEGER NOT NULL, since INTEGER NOT NULL, touched INTEGER NOT NULL, \
    ends INTEGER NOT NULL, expiry INTEGER NOT NULL)";

/// A connection to the file of this name, which is made where it is absent.
fn opened(rt: &HostRuntime, name: &str) -> Result<Connection<FileStore<File>>, Fail> {
    Ok(Connection::open(rt, name)?)
}

/// Writes a new file by these statements.
fn write(rt: &HostRuntime, name: &str, texts: &[&str]) -> Result<(), Fail> {
    let mut connection = opened(rt, name)?;
    for text in texts {
        run(&mut connection, text)?;
    }
    Ok(())
}

/// Whether a keeper over the file is a fault.
fn is_refused(rt: &HostRuntime, name: &str) -> Result<bool, Fail> {
    let kept = SqliteKeeper::over(rt.alloc(), opened(rt, name)?);
    Ok(matches!(kept, Err(KeepError::Fault)))
}

/// How many rows the file has in `items`, and how many in `items2`.
fn rows(rt: &HostRuntime, name: &str) -> Result<(i64, i64), Fail> {
    let mut connection = opened(rt, name)?;
    let old = number(&mut connection, "SELECT count(*) FROM items")?;
    let new = number(&mut connection, "SELECT count(*) FROM items2")?;
    Ok((old, new))
}

/// Removes the file and its log.
fn remove(rt: &HostRuntime, name: &str) -> Result<(), Fail> {
    fs::remove_file(rt, name)?;
    let mut log = String::from_str(rt.alloc(), name)?;
    log.push_str("-wal")?;
    fs::remove_file(rt, log.as_str())?;
    Ok(())
}

#[test]
fn row_that_may_not_be_written_stays(rt: HostRuntime) -> Result<(), Fail> {
    let name = "unwritten.db";
    let [a, b, c] = OLD_ROWS;
    write(&rt, name, &[OLD_TABLE, TABLE_OF_ONE_MINUTE, a, b, c])?;
    assert!(rt; is_refused(&rt, name)?);
    assert_eq!(rt; rows(&rt, name)?, (2, 1));
    // `/b` is still there.
    let mut connection = opened(&rt, name)?;
    let there = "SELECT count(*) FROM items WHERE key = x'2f62'";
    assert_eq!(rt; number(&mut connection, there)?, 1);
    drop(connection);
    remove(&rt, name)
}

#[test]
fn row_whose_content_is_taken_stays(rt: HostRuntime) -> Result<(), Fail> {
    let name = "taken.db";
    let [a, _, c] = OLD_ROWS;
    let same = "INSERT INTO items VALUES (x'2f62', x'78', 2, 0, 0, 0, 0, 120000)";
    write(&rt, name, &[OLD_TABLE, TABLE_OF_ONE_CONTENT, a, same, c])?;
    assert!(rt; is_refused(&rt, name)?);
    assert_eq!(rt; rows(&rt, name)?, (2, 1));
    remove(&rt, name)
}

#[test]
fn row_that_may_not_be_removed_stands_in_both(rt: HostRuntime) -> Result<(), Fail> {
    let name = "kept.db";
    let [a, b, c] = OLD_ROWS;
    let visits = "CREATE TABLE visits (key BLOB REFERENCES items (key))";
    let visit = "INSERT INTO visits VALUES (x'2f62')";
    write(&rt, name, &[OLD_TABLE, a, b, c, visits, visit])?;
    assert!(rt; is_refused(&rt, name)?);
    assert_eq!(rt; rows(&rt, name)?, (2, 2));
    write(&rt, name, &["DELETE FROM visits"])?;
    assert!(rt; !is_refused(&rt, name)?);
    assert_eq!(rt; rows(&rt, name)?, (0, 3));
    remove(&rt, name)
}

/// Whether the file is refused for this old row, which stays with those behind it, where so many of
/// the three others come before it in the order of keys.
fn stays(rt: &HostRuntime, name: &str, text: &str, before: i64) -> Result<bool, Fail> {
    let [a, b, c] = OLD_ROWS;
    write(rt, name, &[OLD_TABLE, text, a, b, c])?;
    let refused = is_refused(rt, name)?;
    let rows = rows(rt, name)?;
    remove(rt, name)?;
    Ok(refused && rows == (4i64.saturating_sub(before), before))
}

#[test]
fn old_row_with_no_key_stays(rt: HostRuntime) -> Result<(), Fail> {
    let text = "INSERT INTO items VALUES (NULL, x'78', 1, 0, 0, 0, 0, 60000)";
    assert!(rt; stays(&rt, "no-key.db", text, 0)?);
    Ok(())
}

#[test]
fn old_row_with_an_unknown_flag_stays(rt: HostRuntime) -> Result<(), Fail> {
    let text = "INSERT INTO items VALUES (x'2f6161', x'78', 1, 2, 0, 0, 0, 60000)";
    assert!(rt; stays(&rt, "flag.db", text, 1)?);
    Ok(())
}

#[test]
fn old_row_with_a_wrong_expiry_stays(rt: HostRuntime) -> Result<(), Fail> {
    let text = "INSERT INTO items VALUES (x'2f6363', x'78', 1, 0, 0, 0, 0, 60001)";
    assert!(rt; stays(&rt, "expiry.db", text, 3)?);
    Ok(())
}

#[test]
fn file_with_a_table_of_another_form_is_left_as_it_is(rt: HostRuntime) -> Result<(), Fail> {
    let name = "other.db";
    let other = "CREATE TABLE items (key BLOB, body BLOB, minutes INTEGER, fresh INTEGER, \
        cookie INTEGER, since INTEGER, touched INTEGER, expiry INTEGER)";
    write(&rt, name, &[other])?;
    assert!(rt; is_refused(&rt, name)?);
    let mut connection = opened(&rt, name)?;
    let made = "SELECT count(*) FROM sqlite_schema";
    assert_eq!(rt; number(&mut connection, made)?, 1);
    drop(connection);
    remove(&rt, name)
}

#[test]
fn no_row_is_moved_to_a_table_of_another_form(rt: HostRuntime) -> Result<(), Fail> {
    let name = "unmoved.db";
    let [a, b, c] = OLD_ROWS;
    let other = "CREATE TABLE items2 (key BLOB PRIMARY KEY)";
    write(&rt, name, &[OLD_TABLE, other, a, b, c])?;
    assert!(rt; is_refused(&rt, name)?);
    assert_eq!(rt; rows(&rt, name)?, (3, 0));
    remove(&rt, name)
}
