//! The statements that move the rows of `items`, which earlier versions wrote, to `items2`.
ghost use Rattle.std.specs.Prelude.{◌≡◌, ℕ, List, IfOk, IsTrue, OnOk, OnErr};
ghost use Rattle.sqlite_value.specs.declared.value.Value.{Value};
ghost use Rattle.sqlite_rules.specs.Lists.{Has};
ghost use Rattle.sqlite.specs.Held.{state};
ghost use Rattle.sqlite.specs.Values.{bound};
ghost use Rattle.sqlite_rows.specs.Calls.{IsKnown, KeepsDatabase, WritesItems};
ghost use Rattle.sqlite_rows.specs.Cuts.{Cuts};
ghost use Rattle.sqlite_rows.specs.Firsts.{FindsFirst, ShowsFirst};
ghost use Rattle.sqlite_rows.specs.Moves.{Moves};
ghost use Rattle.sqlite_rows.specs.Numbers.{AreNumbered};
ghost use Rattle.sqlite_rows.specs.Puts.{Fields, columns_with};
ghost use Rattle.sqlite_rows.specs.Tables.{cookies_tree, items2_tree, items_tree};

use sqlite::types::ValueRef;
use sqlite::{Alter, Connection, Error, Row, params};

fn query_first<S: Alter>(conn: &mut Connection<S>) -> Result<Row, Error>
    ensures found { IsKnown (state S.Store conn.old) → IsTrue (state S.Store conn.new).is_open
        → IfOk result (ShowsFirst ((state S.Store conn.old).now.trees items_tree)) }
    ensures none { IsKnown (state S.Store conn.old) → IsTrue (state S.Store conn.new).is_open
        → result ≡ Err Error.QueryReturnedNoRows
        → (x : List Value) → Has ((state S.Store conn.old).now.trees items_tree) x → ⊥ }
    ensures same { IsKnown (state S.Store conn.old) → IsTrue (state S.Store conn.new).is_open
        → KeepsDatabase (state S.Store conn.old) (state S.Store conn.new) }
    ensures opened { IsTrue (state S.Store conn.new).is_open
        → IsTrue (state S.Store conn.old).is_open }
{
    let _settled = conn.is_autocommit();
    conn.query_row(
        "SELECT body, minutes, fresh, cookie, since, touched, expiry, key FROM items \
        ORDER BY key LIMIT 1",
        &[],
    )
}

/// The old row whose key comes first, where there is one. The key comes last in it, so that an
/// item's columns have the places that they have in a row of `items2`.
pub fn first_row<S: Alter>(conn: &mut Connection<S>) -> Result<Option<Row>, Error>
    ensures row { IsKnown (state S.Store conn.old) → IsTrue (state S.Store conn.new).is_open
        → IfOk result (FindsFirst ((state S.Store conn.old).now.trees items_tree)) }
    ensures same { IsKnown (state S.Store conn.old) → IsTrue (state S.Store conn.new).is_open
        → KeepsDatabase (state S.Store conn.old) (state S.Store conn.new) }
    ensures opened { IsTrue (state S.Store conn.new).is_open
        → IsTrue (state S.Store conn.old).is_open }
{
    match query_first(conn) {
        Ok(row) => Ok(Some(row)),
        Err(Error::QueryReturnedNoRows) => Ok(None),
        Err(error) => Err(error),
    }
}

/// Removes the old row of the key, where there is one.
pub fn drop_row<S: Alter>(conn: &mut Connection<S>, key: &[u8]) -> Result<usize, Error>
    ensures cuts { IsKnown (state S.Store conn.old) → IsTrue (state S.Store conn.new).is_open
        → AreNumbered ((state S.Store conn.old).now.trees items_tree)
        → OnOk result (Cuts ((state S.Store conn.old).now.trees items_tree)
        ((state S.Store conn.new).now.trees items_tree) key.now
        × IsKnown (state S.Store conn.new)
        × ((state S.Store conn.new).now.trees items2_tree
        ≡ (state S.Store conn.old).now.trees items2_tree)
        × ((state S.Store conn.new).now.trees cookies_tree
        ≡ (state S.Store conn.old).now.trees cookies_tree)) }
    ensures same { IsKnown (state S.Store conn.old) → IsTrue (state S.Store conn.new).is_open
        → OnErr result (KeepsDatabase (state S.Store conn.old) (state S.Store conn.new)) }
    ensures opened { IsTrue (state S.Store conn.new).is_open
        → IsTrue (state S.Store conn.old).is_open }
{
    let _settled = conn.is_autocommit();
    conn.execute("DELETE FROM items WHERE key = ?1", params![key])
}

/// Writes the row that has these columns, where no row has its key. One that breaks another rule
/// of the table is refused.
pub fn move_row<S: Alter>(
    conn: &mut Connection<S>,
    columns: &[ValueRef<'_>],
) -> Result<usize, Error>
    ensures moves { IsKnown (state S.Store conn.old) → IsTrue (state S.Store conn.new).is_open
        → AreNumbered ((state S.Store conn.old).now.trees items2_tree)
        → (key : List ℕ) (it : Fields) → bound columns.now ≡ columns_with key it
        → OnOk result (Moves ((state S.Store conn.old).now.trees items2_tree)
        ((state S.Store conn.new).now.trees items2_tree) key it
        × WritesItems (state S.Store conn.old) (state S.Store conn.new)
        × AreNumbered ((state S.Store conn.new).now.trees items2_tree)) }
    ensures same { IsKnown (state S.Store conn.old) → IsTrue (state S.Store conn.new).is_open
        → OnErr result (KeepsDatabase (state S.Store conn.old) (state S.Store conn.new)) }
    ensures opened { IsTrue (state S.Store conn.new).is_open
        → IsTrue (state S.Store conn.old).is_open }
{
    let _settled = conn.is_autocommit();
    conn.execute(
        "INSERT INTO items2 (key, body, minutes, fresh, cookie, since, touched, ends, expiry) \
        VALUES (?1, ?2, ?3, ?4, ?5, ?6, ?7, ?8, ?9) ON CONFLICT (key) DO NOTHING",
        columns,
    )
}
