//! The items of the rows: each call reads or writes the row of one key, and what it does to the
//! rows it does to the map that they tell.
ghost use Rattle.std.specs.Prelude.{◌≡◌, ◌^◌, ◌-◌, min, pos, Some, None, IfOk, IfSome, IsErr};
ghost use Rattle.std.specs.Prelude.{IsOk, IsTrue, OnErr, OnOk};
ghost use Rattle.asp_messages.specs.Ranges.{KeyFits};
ghost use Rattle.session_machine.specs.Liveness.{ItemFits};
ghost use Rattle.keeper.specs.Due.{TellsDue};
ghost use Rattle.keeper.specs.Items.{TellsItem, TellsSets};
ghost use Rattle.sqlite.specs.Held.{state};
ghost use Rattle.sqlite_rows.specs.Calls.{IsKnown, KeepsDatabase, WritesItems};
ghost use Rattle.sqlite_rows.specs.Numbers.{AreNumbered};
ghost use Rattle.sqlite_rows.specs.Puts.{Puts};
ghost use Rattle.sqlite_keeper.specs.Keeping.{Rests, cookies_in, rows_in};
ghost use Rattle.sqlite_keeper.specs.Rows.{ReadsItem, ReadsKey};
ghost use Rattle.sqlite_keeper.specs.Told.{IsChecked, fields_of, told_rows};

use crate::failure::Failure;
use crate::rows::{NO_END, columns, item_of, key_of};
use asp_base::Bytes;
use session_machine::Item;
use sqlite::types::ValueRef;
use sqlite::{Alter, Connection, Error, Row};
use sqlite_rows::{cut_row, due_row, item_row, learn_keys, put_row};

/// The item that the row says, where there is one.
fn read_item(row: Result<Option<Row>, Error>) -> Result<Option<Item>, Failure>
    ensures shows { IfOk result (λ item. IfOk row (λ r. ReadsItem r item)) }
    ensures ok { OnOk result (IsOk row) }
    ensures fits { IfOk result (λ item. IfSome item ItemFits) }
{
    match row {
        Ok(row) => item_of(row),
        Err(error) => Err(Failure::Database(error)),
    }
}

/// The key that the row says, where there is one.
fn read_key(row: Result<Option<Row>, Error>) -> Result<Option<Bytes>, Failure>
    ensures shows { IfOk result (λ key. IfOk row (λ r. ReadsKey r key)) }
    ensures ok { OnOk result (IsOk row) }
    ensures fits { IfOk result (λ key. IfSome key KeyFits) }
{
    match row {
        Ok(row) => key_of(row),
        Err(error) => Err(Failure::Database(error)),
    }
}

/// Whether the statement was run.
pub(crate) fn written(count: Result<usize, Error>) -> Result<(), Failure>
    ensures ok { OnOk result (IsOk count) }
    ensures err { OnErr result (IsErr count) }
{
    match count {
        Ok(_) => Ok(()),
        Err(error) => Err(Failure::Database(error)),
    }
}

/// The moment as the database takes it. No item expires later than the last value of an `i64`.
fn moment(t: u64) -> i64
    ensures { result ≡ pos (min t (2 ^ 63 - 1)) }
{
    if t > NO_END {
        return i64::MAX;
    }
    t as i64
}

/// The item of the key, where it has one.
pub(crate) fn get_item<S: Alter>(
    connection: &mut Connection<S>,
    key: &Bytes,
) -> Result<Option<Item>, Failure>
    requires { KeyFits key.now }
    ensures item { Rests (state S.Store connection.old)
        → IsTrue (state S.Store connection.new).is_open
        → IfOk result (TellsItem (told_rows (rows_in (state S.Store connection.old))) key.now) }
    ensures checked { Rests (state S.Store connection.old)
        → IsTrue (state S.Store connection.new).is_open
        → OnOk result (IsChecked (rows_in (state S.Store connection.old)) key.now) }
    ensures same { IsKnown (state S.Store connection.old)
        → IsTrue (state S.Store connection.new).is_open
        → KeepsDatabase (state S.Store connection.old) (state S.Store connection.new) }
    ensures opened { IsTrue (state S.Store connection.new).is_open
        → IsTrue (state S.Store connection.old).is_open }
    ensures fits { IfOk result (λ item. IfSome item ItemFits) }
{
    learn_keys(connection);
    let row = item_row(connection, key.as_slice());
    read_item(row)
}

/// Writes the row of the key and the item.
fn write_item<'x, S: Alter>(
    connection: &mut Connection<S>,
    key: &'x Bytes,
    item: &'x Item,
) -> Result<(), Failure>
    requires { ItemFits item.now }
    ensures puts { IsKnown (state S.Store connection.old)
        → IsTrue (state S.Store connection.new).is_open
        → AreNumbered (rows_in (state S.Store connection.old))
        → OnOk result (Puts (rows_in (state S.Store connection.old))
        (rows_in (state S.Store connection.new)) key.now (fields_of item.now)
        × WritesItems (state S.Store connection.old) (state S.Store connection.new)
        × AreNumbered (rows_in (state S.Store connection.new))) }
    ensures same { IsKnown (state S.Store connection.old)
        → IsTrue (state S.Store connection.new).is_open
        → OnErr result (KeepsDatabase (state S.Store connection.old)
        (state S.Store connection.new)) }
    ensures opened { IsTrue (state S.Store connection.new).is_open
        → IsTrue (state S.Store connection.old).is_open }
{
    let columns = columns(key, item);
    let count = put_row(connection, &columns);
    written(count)
}

/// Gives the key this item. The row that it had was read before; one that says no item is a fault,
/// and stays.
pub(crate) fn put_item<S: Alter>(
    connection: &mut Connection<S>,
    key: &Bytes,
    item: &Item,
) -> Result<(), Failure>
    requires key { KeyFits key.now }
    requires item { ItemFits item.now }
    ensures told { Rests (state S.Store connection.old)
        → IsTrue (state S.Store connection.new).is_open
        → OnOk result (TellsSets (told_rows (rows_in (state S.Store connection.old)))
        (told_rows (rows_in (state S.Store connection.new))) key.now (Some item.now)) }
    ensures rests { Rests (state S.Store connection.old)
        → IsTrue (state S.Store connection.new).is_open → Rests (state S.Store connection.new) }
    ensures cookies { Rests (state S.Store connection.old)
        → IsTrue (state S.Store connection.new).is_open
        → cookies_in (state S.Store connection.new)
        ≡ cookies_in (state S.Store connection.old) }
    ensures opened { IsTrue (state S.Store connection.new).is_open
        → IsTrue (state S.Store connection.old).is_open }
    ensures same { IsKnown (state S.Store connection.old)
        → IsTrue (state S.Store connection.new).is_open
        → OnErr result (KeepsDatabase (state S.Store connection.old)
        (state S.Store connection.new)) }
{
    learn_keys(connection);
    match get_item(connection, key) {
        Ok(_) => write_item(connection, key, item),
        Err(failure) => Err(failure),
    }
}

/// Removes the item of the key, where it has one. The row was read before; one that says no item is
/// a fault, and stays.
pub(crate) fn cut_item<S: Alter>(connection: &mut Connection<S>, key: &Bytes) -> Result<(), Failure>
    requires { KeyFits key.now }
    ensures told { Rests (state S.Store connection.old)
        → IsTrue (state S.Store connection.new).is_open
        → OnOk result (TellsSets (told_rows (rows_in (state S.Store connection.old)))
        (told_rows (rows_in (state S.Store connection.new))) key.now None) }
    ensures rests { Rests (state S.Store connection.old)
        → IsTrue (state S.Store connection.new).is_open → Rests (state S.Store connection.new) }
    ensures cookies { Rests (state S.Store connection.old)
        → IsTrue (state S.Store connection.new).is_open
        → cookies_in (state S.Store connection.new)
        ≡ cookies_in (state S.Store connection.old) }
    ensures same { IsKnown (state S.Store connection.old)
        → IsTrue (state S.Store connection.new).is_open
        → OnErr result (KeepsDatabase (state S.Store connection.old)
        (state S.Store connection.new)) }
    ensures opened { IsTrue (state S.Store connection.new).is_open
        → IsTrue (state S.Store connection.old).is_open }
{
    learn_keys(connection);
    match get_item(connection, key) {
        Ok(_) => {
            let count = cut_row(connection, key.as_slice());
            written(count)
        }
        Err(failure) => Err(failure),
    }
}

/// The key of the item that has expired at the moment and expired first, where one has.
pub(crate) fn due_key<S: Alter>(
    connection: &mut Connection<S>,
    t: u64,
) -> Result<Option<Bytes>, Failure>
    ensures due { Rests (state S.Store connection.old)
        → IsTrue (state S.Store connection.new).is_open
        → IfOk result (TellsDue (told_rows (rows_in (state S.Store connection.old))) t) }
    ensures same { IsKnown (state S.Store connection.old)
        → IsTrue (state S.Store connection.new).is_open
        → KeepsDatabase (state S.Store connection.old) (state S.Store connection.new) }
    ensures opened { IsTrue (state S.Store connection.new).is_open
        → IsTrue (state S.Store connection.old).is_open }
    ensures fits { IfOk result (λ key. IfSome key KeyFits) }
{
    learn_keys(connection);
    let row = due_row(connection, &[ValueRef::Int(moment(t))]);
    read_key(row)
}
