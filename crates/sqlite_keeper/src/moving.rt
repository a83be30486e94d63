//! The move of the rows of `items`, which the program made before items had an end, to `items2`.
ghost use Rattle.std.specs.Prelude.{◌≡◌, None, IsTrue, OnOk};
ghost use Rattle.sqlite.specs.Held.{state};
ghost use Rattle.sqlite_keeper.specs.Opening.{KeepsReady};

use crate::failure::Failure;
use crate::rows;
use sqlite::{Alter, Connection, Row};
use sqlite_rows::{drop_row, first_row, move_row};

/// How many rows are moved at most, so that the move ends.
const MOST_MOVES: u64 = 1_099_511_627_776;

/// Moves this old row. It is written to `items2` where no row has its key there, and only then
/// removed from `items`.
fn move_this<S: Alter>(connection: &mut Connection<S>, row: &Row) -> Result<bool, Failure>
    ensures { OnOk result (IsTrue (state S.Store connection.new).is_open
        → IsTrue (state S.Store connection.old).is_open) }
{
    let key = rows::key(row, rows::OLD_KEY)?;
    let item = rows::old_item(row)?;
    move_row(connection, &rows::columns(&key, &item))?;
    drop_row(connection, key.as_slice())?;
    Ok(true)
}

/// Moves this old row, where there is one, and answers whether there was.
fn move_any<S: Alter>(connection: &mut Connection<S>, row: Option<Row>) -> Result<bool, Failure>
    ensures opened { OnOk result (IsTrue (state S.Store connection.new).is_open
        → IsTrue (state S.Store connection.old).is_open) }
    ensures none { row ≡ None → connection.new ≡ connection.old }
{
    match row {
        Some(row) => move_this(connection, &row),
        None => Ok(false),
    }
}

/// Moves the old row whose key comes first, and answers whether there was one.
fn move_first<S: Alter>(connection: &mut Connection<S>) -> Result<bool, Failure>
    ensures { OnOk result (KeepsReady (state S.Store connection.old)
        (state S.Store connection.new)) }
{
    match first_row(connection) {
        Ok(row) => move_any(connection, row),
        Err(error) => Err(Failure::Database(error)),
    }
}

/// A failure where there is a row.
fn is_none(row: Option<Row>) -> Result<(), Failure> {
    match row {
        Some(_) => Err(Failure::TooManyRows),
        None => Ok(()),
    }
}

/// A failure where an old row is left.
fn none_left<S: Alter>(connection: &mut Connection<S>) -> Result<(), Failure>
    ensures { OnOk result (KeepsReady (state S.Store connection.old)
        (state S.Store connection.new)) }
{
    match first_row(connection) {
        Ok(row) => is_none(row),
        Err(error) => Err(Failure::Database(error)),
    }
}

/// Moves the old rows, one by one in the order of their keys. A row that says no key and item in
/// range ends the move and stays where it is, with those behind it.
pub(crate) fn move_rows<S: Alter>(connection: &mut Connection<S>) -> Result<(), Failure>
    ensures { OnOk result (KeepsReady (state S.Store connection.old)
        (state S.Store connection.new)) }
{
    for _ in 0..MOST_MOVES {
        if !move_first(connection)? {
            return Ok(());
        }
    }
    none_left(connection)
}
