//! What makes a database ready for a keeper: its tables, the move of old rows, and whether it has
//! these tables and nothing else.
ghost use Rattle.std.specs.Prelude.{◌≡◌, ◌<◌, ◌^◌, pos, IfOk, IsTrue, Ok, OnOk};
ghost use Rattle.sqlite_trees.specs.View.{IsClean};
ghost use Rattle.sqlite_trees.specs.declared.store.Shape.TheVariants.{Table};
ghost use Rattle.sqlite.specs.Held.{state};
ghost use Rattle.sqlite.specs.Steps.{IsFresh};
ghost use Rattle.sqlite_rows.specs.Calls.{IsKnown, KeepsDatabase, KeepsKnown};
ghost use Rattle.sqlite_rows.specs.Cookies.{IsLast};
ghost use Rattle.sqlite_rows.specs.Numbers.{AreNumbered};
ghost use Rattle.sqlite_rows.specs.Tables.{cookies_tree, items2_tree};
ghost use Rattle.sqlite_keeper.specs.Keeping.{cookies_in, rows_in};
ghost use Rattle.sqlite_keeper.specs.Opening.{HasRowsOf, KeepsReady};
ghost use Rattle.sqlite_keeper.specs.Rows.{IsNumberAt, IsOneLast};

use crate::failure::Failure;
use crate::moving::move_rows;
use crate::rows::number;
use asp_messages::MOST_COOKIE;
use sqlite::{Alter, Connection, Error, ErrorCode, Row};
use sqlite_rows::{
    all_cookies, begin_cookies, index_items, index_items2, is_known, last_row, make_cookies,
    make_items, make_items2, understand,
};
use sqlite_trees::store::{Shape, Store};
use std::alloc::Global;

/// The trees of the tables `items2` and `cookies`, where their database has nothing else.
const ITEMS2_TREE: u32 = 3;

const COOKIES_TREE: u32 = 6;

/// Never run, as the other forms. It is understood only where the table has these columns, and no
/// two rows with one key.
const NAMES: &str = "INSERT INTO items2 \
    (key, body, minutes, fresh, cookie, since, touched, ends, expiry) \
    VALUES (?1, ?2, ?3, ?4, ?5, ?6, ?7, ?8, ?9) ON CONFLICT (key) DO NOTHING";

/// It is understood only where the table has as many columns.
const COUNT: &str = "INSERT INTO items2 VALUES (?1, ?2, ?3, ?4, ?5, ?6, ?7, ?8, ?9)";

const OLD_NAMES: &str = "INSERT INTO items \
    (key, body, minutes, fresh, cookie, since, touched, expiry) \
    VALUES (?1, ?2, ?3, ?4, ?5, ?6, ?7, ?8) ON CONFLICT (key) DO NOTHING";

const OLD_COUNT: &str = "INSERT INTO items VALUES (?1, ?2, ?3, ?4, ?5, ?6, ?7, ?8)";

const COOKIE_NAMES: &str =
    "INSERT INTO cookies (id, last) VALUES (?1, ?2) ON CONFLICT (id) DO NOTHING";

const COOKIE_COUNT: &str = "INSERT INTO cookies VALUES (?1, ?2)";

/// Understands both texts, and runs neither.
fn understand_both<S: Alter>(
    connection: &mut Connection<S>,
    names: &str,
    count: &str,
) -> Result<(), Error>
    ensures { OnOk result (KeepsKnown (state S.Store connection.old)
        (state S.Store connection.new)) }
{
    understand(connection, names)?;
    understand(connection, count)
}

/// Makes the table of earlier versions and its index where they are absent.
fn make_old_table<S: Alter>(connection: &mut Connection<S>) -> Result<(), Error>
    ensures { OnOk result (KeepsKnown (state S.Store connection.old)
        (state S.Store connection.new)) }
{
    make_items(connection)?;
    understand_both(connection, OLD_NAMES, OLD_COUNT)?;
    index_items(connection)?;
    Ok(())
}

/// Makes the table of the items and its index where they are absent.
fn make_table<S: Alter>(connection: &mut Connection<S>) -> Result<(), Error>
    ensures { OnOk result (KeepsKnown (state S.Store connection.old)
        (state S.Store connection.new)) }
{
    make_items2(connection)?;
    understand_both(connection, NAMES, COUNT)?;
    index_items2(connection)?;
    Ok(())
}

/// Makes the table of the last cookie where it is absent.
fn make_last_table<S: Alter>(connection: &mut Connection<S>) -> Result<(), Error>
    ensures { OnOk result (KeepsKnown (state S.Store connection.old)
        (state S.Store connection.new)) }
{
    make_cookies(connection)?;
    understand_both(connection, COOKIE_NAMES, COOKIE_COUNT)
}

/// Makes the tables and their indexes where they are absent, always in one order, and understands
/// the forms of each. So a table of another form is refused here, before anything is made after it.
fn make<S: Alter>(connection: &mut Connection<S>) -> Result<(), Error>
    ensures { OnOk result (KeepsKnown (state S.Store connection.old)
        (state S.Store connection.new)) }
{
    make_old_table(connection)?;
    make_table(connection)?;
    make_last_table(connection)
}

/// Makes the tables, with the row of the last cookie, and moves the old rows.
pub(crate) fn prepare<S: Alter>(connection: &mut Connection<S>) -> Result<(), Failure>
    ensures { OnOk result (KeepsReady (state S.Store connection.old)
        (state S.Store connection.new)) }
{
    make(connection)?;
    begin_cookies(connection)?;
    move_rows(connection)
}

/// Whether the tree of this number is a table.
fn is_table<S: Alter>(store: &S, tree: u32) -> bool
    ensures { IsTrue result → (S.Store.view store.now).shape tree ≡ Table }
{
    store.shape(tree) == Shape::Table
}

/// Whether the trees of `items2` and `cookies` are tables.
fn has_tables<S: Alter>(store: &S) -> bool
    ensures items { IsTrue result → (S.Store.view store.now).shape items2_tree ≡ Table }
    ensures cookies { IsTrue result → (S.Store.view store.now).shape cookies_tree ≡ Table }
{
    is_table(store, ITEMS2_TREE) && is_table(store, COOKIES_TREE)
}

/// A connection over the store, and whether the rows of `items2` and `cookies` have rowids that
/// rise: the store says so of a table, and no connection does.
fn over_store<S: Alter + Drop>(alloc: Global, store: S) -> Result<(Connection<S>, bool), Failure>
    requires { IsClean (S.Store.view store) → IsFresh (S.Store.view store) }
    ensures items { IfOk result (λ r. IsTrue r.1 → IsTrue (state S.Store r.0).is_open
        → AreNumbered (rows_in (state S.Store r.0))) }
    ensures cookies { IfOk result (λ r. IsTrue r.1 → IsTrue (state S.Store r.0).is_open
        → AreNumbered (cookies_in (state S.Store r.0))) }
    ensures kept { IfOk result (λ r. IsTrue (state S.Store r.0).is_open
        → IsClean (S.Store.view store)
        × ((state S.Store r.0).now.trees ≡ (S.Store.view store).trees)) }
{
    let numbered = has_tables(&store);
    match Connection::over(alloc, store) {
        Ok(connection) => Ok((connection, numbered)),
        Err((error, _)) => Err(Failure::Database(error)),
    }
}

/// The connection, over its store anew, and whether the rows of `items2` and `cookies` have rowids
/// that rise. One with an open transaction stays as it is, and nothing is said of its rows.
pub(crate) fn reopen<S: Alter + Drop>(
    alloc: Global,
    connection: Connection<S>,
) -> Result<(Connection<S>, bool), Failure>
    ensures items { IfOk result (λ r. IsTrue r.1 → IsTrue (state S.Store r.0).is_open
        → AreNumbered (rows_in (state S.Store r.0))) }
    ensures cookies { IfOk result (λ r. IsTrue r.1 → IsTrue (state S.Store r.0).is_open
        → AreNumbered (cookies_in (state S.Store r.0))) }
    ensures kept { IfOk result (λ r. HasRowsOf (state S.Store connection) (state S.Store r.0)) }
{
    if !connection.is_autocommit() {
        return Ok((connection, false));
    }
    let store = connection.into_store();
    if store.is_broken() {
        return Err(Failure::Database(Error::SqliteFailure(ErrorCode::Closed)));
    }
    over_store(alloc, store)
}

/// Whether the database has these tables and nothing else, and no transaction is open.
pub(crate) fn stands_alone<S: Alter>(connection: &Connection<S>) -> bool
    ensures { IsTrue result → IsKnown (state S.Store connection.now) }
{
    connection.is_autocommit() && is_known(connection.schema())
}

/// Whether the value at this place of a row is this number.
fn shows(row: &Row, place: usize, n: u64) -> bool
    ensures { IsTrue result → IsNumberAt row.now place n }
{
    match number(row, place) {
        Ok(found) => found == n,
        Err(_) => false,
    }
}

/// Whether this is the one row, with id 1 and this last cookie.
fn is_the_one(rows: &[Row], last: u64) -> bool
    ensures { IsTrue result → IsOneLast rows.now last }
{
    let [row] = rows else {
        return false;
    };
    shows(row, 0, 1) && shows(row, 1, last)
}

/// Whether the table `cookies` has one row, with id 1 and this last cookie.
fn has_one_last<S: Alter>(connection: &mut Connection<S>, last: u64) -> Result<bool, Failure>
    ensures one { IsKnown (state S.Store connection.old)
        → AreNumbered (cookies_in (state S.Store connection.old))
        → IsTrue (state S.Store connection.new).is_open
        → IfOk result (λ one. IsTrue one
        → IsLast (cookies_in (state S.Store connection.old)) (pos last)) }
    ensures same { IsKnown (state S.Store connection.old)
        → IsTrue (state S.Store connection.new).is_open
        → KeepsDatabase (state S.Store connection.old) (state S.Store connection.new) }
    ensures opened { IsTrue (state S.Store connection.new).is_open
        → IsTrue (state S.Store connection.old).is_open }
{
    match all_cookies(connection) {
        Ok(rows) => Ok(is_the_one(rows.as_slice(), last)),
        Err(error) => Err(Failure::Database(error)),
    }
}

/// The last cookie that a row shows.
fn last_in(row: Result<Row, Error>) -> Result<u64, Failure>
    ensures { IfOk result (λ last. last < 2 ^ 63) }
{
    match number(&row?, 0)? {
        last if last > MOST_COOKIE => Err(Failure::BadRow),
        last => Ok(last),
    }
}

/// The last cookie that is stored.
fn read_last<S: Alter>(connection: &mut Connection<S>) -> Result<u64, Failure>
    ensures in_range { IfOk result (λ last. last < 2 ^ 63) }
    ensures same { IsKnown (state S.Store connection.old)
        → IsTrue (state S.Store connection.new).is_open
        → KeepsDatabase (state S.Store connection.old) (state S.Store connection.new) }
    ensures opened { IsTrue (state S.Store connection.new).is_open
        → IsTrue (state S.Store connection.old).is_open }
{
    let row = last_row(connection);
    last_in(row)
}

/// What the table `cookies` holds.
#[derive(Clone, Copy, Debug)]
pub(crate) struct Cookies {
    /// The last cookie.
    pub(crate) last: u64,
    /// Whether there is nothing else.
    pub(crate) is_one: bool,
}

/// The last cookie that is stored, and whether the table `cookies` has nothing else.
pub(crate) fn read_cookies<S: Alter>(connection: &mut Connection<S>) -> Result<Cookies, Failure>
    ensures in_range { IfOk result (λ r. r.last < 2 ^ 63) }
    ensures one { IsKnown (state S.Store connection.old)
        → AreNumbered (cookies_in (state S.Store connection.old))
        → IsTrue (state S.Store connection.new).is_open
        → IfOk result (λ r. IsTrue r.is_one
        → IsLast (cookies_in (state S.Store connection.old)) (pos r.last)) }
    ensures same { IsKnown (state S.Store connection.old)
        → IsTrue (state S.Store connection.new).is_open
        → KeepsDatabase (state S.Store connection.old) (state S.Store connection.new) }
    ensures opened { IsTrue (state S.Store connection.new).is_open
        → IsTrue (state S.Store connection.old).is_open }
{
    match read_last(connection) {
        Ok(last) => {
            let one = has_one_last(connection, last);
            both(last, one)
        }
        Err(failure) => Err(failure),
    }
}

/// The last cookie beside the answer.
fn both(last: u64, one: Result<bool, Failure>) -> Result<Cookies, Failure>
    ensures last { IfOk result (λ r. r.last ≡ last) }
    ensures one { IfOk result (λ r. one ≡ Ok r.is_one) }
{
    Ok(Cookies { last, is_one: one? })
}

/// Whether all three hold.
pub(crate) fn all_hold(numbered: bool, alone: bool, one: bool) -> bool
    ensures { IsTrue result → IsTrue numbered × (IsTrue alone × IsTrue one) }
{
    numbered && alone && one
}
