//! The statements on `items2`, the table of the items.
ghost use Rattle.std.specs.Prelude.{◌≡◌, ℕ, ℤ, List, [], ◌∷◌, IfOk, IsTrue, OnOk, OnErr};
ghost use Rattle.sqlite_value.specs.declared.value.Value.{Value};
ghost use Rattle.sqlite_value.specs.declared.value.Value.TheVariants.{Int};
ghost use Rattle.sqlite.specs.Held.{state};
ghost use Rattle.sqlite.specs.Values.{bound};
ghost use Rattle.sqlite_rows.specs.Calls.{IsKnown, KeepsDatabase, WritesItems};
ghost use Rattle.sqlite_rows.specs.Cuts.{Cuts};
ghost use Rattle.sqlite_rows.specs.Dues.{FindsDue, LacksDue, ShowsFirstDue};
ghost use Rattle.sqlite_rows.specs.Gets.{ShowsKey, LacksKey, Gets};
ghost use Rattle.sqlite_rows.specs.Numbers.{AreNumbered};
ghost use Rattle.sqlite_rows.specs.Puts.{Puts, Fields, columns_with};
ghost use Rattle.sqlite_rows.specs.Tables.{items2_tree};
ghost use Rattle.sqlite_rows.specs.Uniques.{HaveOwnKeys};

use sqlite::types::ValueRef;
use sqlite::{Alter, Connection, Error, Row, params};

fn query_item<S: Alter>(conn: &mut Connection<S>, key: &[u8]) -> Result<Row, Error>
    ensures found { IsKnown (state S.Store conn.old) → IsTrue (state S.Store conn.new).is_open
        → IfOk result (ShowsKey ((state S.Store conn.old).now.trees items2_tree) key.now) }
    ensures none { IsKnown (state S.Store conn.old) → IsTrue (state S.Store conn.new).is_open
        → result ≡ Err Error.QueryReturnedNoRows
        → LacksKey ((state S.Store conn.old).now.trees items2_tree) key.now }
    ensures same { IsKnown (state S.Store conn.old) → IsTrue (state S.Store conn.new).is_open
        → KeepsDatabase (state S.Store conn.old) (state S.Store conn.new) }
    ensures opened { IsTrue (state S.Store conn.new).is_open
        → IsTrue (state S.Store conn.old).is_open }
{
    let _settled = conn.is_autocommit();
    conn.query_row(
        "SELECT body, minutes, fresh, cookie, since, touched, ends, expiry FROM items2 \
        WHERE key = ?1",
        params![key],
    )
}

/// What is shown of the row of the key, where there is one: the columns behind the key.
pub fn item_row<S: Alter>(conn: &mut Connection<S>, key: &[u8]) -> Result<Option<Row>, Error>
    ensures row { IsKnown (state S.Store conn.old) → IsTrue (state S.Store conn.new).is_open
        → IfOk result (Gets ((state S.Store conn.old).now.trees items2_tree) key.now) }
    ensures same { IsKnown (state S.Store conn.old) → IsTrue (state S.Store conn.new).is_open
        → KeepsDatabase (state S.Store conn.old) (state S.Store conn.new) }
    ensures opened { IsTrue (state S.Store conn.new).is_open
        → IsTrue (state S.Store conn.old).is_open }
{
    match query_item(conn, key) {
        Ok(row) => Ok(Some(row)),
        Err(Error::QueryReturnedNoRows) => Ok(None),
        Err(error) => Err(error),
    }
}

// The parameter is the moment, whatever it is.
fn query_due<S: Alter>(conn: &mut Connection<S>, moment: &[ValueRef<'_>]) -> Result<Row, Error>
    ensures found { IsKnown (state S.Store conn.old) → IsTrue (state S.Store conn.new).is_open
        → (t : ℤ) → bound moment.now ≡ Int t ∷ []
        → IfOk result (ShowsFirstDue ((state S.Store conn.old).now.trees items2_tree) t) }
    ensures none { IsKnown (state S.Store conn.old) → IsTrue (state S.Store conn.new).is_open
        → (t : ℤ) → bound moment.now ≡ Int t ∷ [] → result ≡ Err Error.QueryReturnedNoRows
        → LacksDue ((state S.Store conn.old).now.trees items2_tree) t }
    ensures same { IsKnown (state S.Store conn.old) → IsTrue (state S.Store conn.new).is_open
        → KeepsDatabase (state S.Store conn.old) (state S.Store conn.new) }
    ensures opened { IsTrue (state S.Store conn.new).is_open
        → IsTrue (state S.Store conn.old).is_open }
{
    let _settled = conn.is_autocommit();
    conn.query_row(
        "SELECT key FROM items2 WHERE expiry <= ?1 ORDER BY expiry, key LIMIT 1",
        moment,
    )
}

fn first_due(answer: Result<Row, Error>) -> Result<Option<Row>, Error>
    ensures { (rows : List (List Value)) (t : ℤ) → IfOk answer (ShowsFirstDue rows t)
        → (answer ≡ Err Error.QueryReturnedNoRows → LacksDue rows t)
        → IfOk result (FindsDue rows t) }
{
    match answer {
        Ok(row) => Ok(Some(row)),
        Err(Error::QueryReturnedNoRows) => Ok(None),
        Err(error) => Err(error),
    }
}

/// The key of the row that expired first, where one is due at the moment that is the parameter.
pub fn due_row<S: Alter>(
    conn: &mut Connection<S>,
    moment: &[ValueRef<'_>],
) -> Result<Option<Row>, Error>
    ensures row { IsKnown (state S.Store conn.old) → IsTrue (state S.Store conn.new).is_open
        → (t : ℤ) → bound moment.now ≡ Int t ∷ []
        → IfOk result (FindsDue ((state S.Store conn.old).now.trees items2_tree) t) }
    ensures same { IsKnown (state S.Store conn.old) → IsTrue (state S.Store conn.new).is_open
        → KeepsDatabase (state S.Store conn.old) (state S.Store conn.new) }
    ensures opened { IsTrue (state S.Store conn.new).is_open
        → IsTrue (state S.Store conn.old).is_open }
{
    let answer = query_due(conn, moment);
    first_due(answer)
}

/// Writes the row that has these columns, in the place of the one that has its key.
pub fn put_row<S: Alter>(conn: &mut Connection<S>, columns: &[ValueRef<'_>]) -> Result<usize, Error>
    ensures puts { IsKnown (state S.Store conn.old) → IsTrue (state S.Store conn.new).is_open
        → AreNumbered ((state S.Store conn.old).now.trees items2_tree)
        → (key : List ℕ) (it : Fields) → bound columns.now ≡ columns_with key it
        → OnOk result (Puts ((state S.Store conn.old).now.trees items2_tree)
        ((state S.Store conn.new).now.trees items2_tree) key it
        × WritesItems (state S.Store conn.old) (state S.Store conn.new)
        × AreNumbered ((state S.Store conn.new).now.trees items2_tree)) }
    ensures same { IsKnown (state S.Store conn.old) → IsTrue (state S.Store conn.new).is_open
        → OnErr result (KeepsDatabase (state S.Store conn.old) (state S.Store conn.new)) }
    ensures opened { IsTrue (state S.Store conn.new).is_open
        → IsTrue (state S.Store conn.old).is_open }
{
    let _settled = conn.is_autocommit();
    conn.execute(
        "INSERT INTO items2 (key, body, minutes, fresh, cookie, since, touched, ends, expiry) \
        VALUES (?1, ?2, ?3, ?4, ?5, ?6, ?7, ?8, ?9) ON CONFLICT (key) DO UPDATE SET \
        body = excluded.body, minutes = excluded.minutes, fresh = excluded.fresh, \
        cookie = excluded.cookie, since = excluded.since, touched = excluded.touched, \
        ends = excluded.ends, expiry = excluded.expiry",
        columns,
    )
}

/// Removes the row of the key, where there is one.
pub fn cut_row<S: Alter>(conn: &mut Connection<S>, key: &[u8]) -> Result<usize, Error>
    ensures cuts { IsKnown (state S.Store conn.old) → IsTrue (state S.Store conn.new).is_open
        → AreNumbered ((state S.Store conn.old).now.trees items2_tree)
        → OnOk result (Cuts ((state S.Store conn.old).now.trees items2_tree)
        ((state S.Store conn.new).now.trees items2_tree) key.now
        × WritesItems (state S.Store conn.old) (state S.Store conn.new)) }
    ensures same { IsKnown (state S.Store conn.old) → IsTrue (state S.Store conn.new).is_open
        → OnErr result (KeepsDatabase (state S.Store conn.old) (state S.Store conn.new)) }
    ensures opened { IsTrue (state S.Store conn.new).is_open
        → IsTrue (state S.Store conn.old).is_open }
{
    let _settled = conn.is_autocommit();
    conn.execute("DELETE FROM items2 WHERE key = ?1", params![key])
}

/// Does nothing. What it says is a law of every connection: no two rows have one key.
pub fn learn_keys<S: Alter>(conn: &Connection<S>)
    ensures { IsTrue (state S.Store conn.now).is_open → IsKnown (state S.Store conn.now)
        → AreNumbered ((state S.Store conn.now).now.trees items2_tree)
        → HaveOwnKeys ((state S.Store conn.now).now.trees items2_tree) }
{
    let _schema = conn.schema();
}
