//! The statements on `cookies`, the table of the last cookie, and on the cookies of the items.
ghost use Rattle.std.specs.Prelude.{◌≡◌, ℤ, [], ◌∷◌, IfOk, IsTrue, OnOk, OnErr};
ghost use Rattle.sqlite_value.specs.declared.value.Value.{Value};
ghost use Rattle.sqlite_value.specs.declared.value.Value.TheVariants.{Int};
ghost use Rattle.std.specs.Prelude.{List};
ghost use Rattle.sqlite_rules.specs.Lists.{Has};
ghost use Rattle.sqlite.specs.Held.{state};
ghost use Rattle.sqlite.specs.Values.{bound};
ghost use Rattle.sqlite_rows.specs.Calls.{IsKnown, KeepsDatabase};
ghost use Rattle.sqlite_rows.specs.Cookies.{FindsGreatest, IsLast, SetsLast, ShowsAll, ShowsGreatest};
ghost use Rattle.sqlite_rows.specs.Cookies.{ShowsLast};
ghost use Rattle.sqlite_rows.specs.Tables.{cookies_tree, items2_tree};

use sqlite::types::ValueRef;
use sqlite::{Alter, Connection, Error, Row};

/// Writes the row of the last cookie, which is 0, where there is none. One that is there stays.
pub fn begin_cookies<S: Alter>(conn: &mut Connection<S>) -> Result<usize, Error>
    ensures stays { (last : ℤ) → IsLast ((state S.Store conn.old).now.trees cookies_tree) last
        → IsKnown (state S.Store conn.old) → IsTrue (state S.Store conn.new).is_open
        → OnOk result (KeepsDatabase (state S.Store conn.old) (state S.Store conn.new)) }
    ensures opened { IsTrue (state S.Store conn.new).is_open
        → IsTrue (state S.Store conn.old).is_open }
{
    conn.execute(
        "INSERT INTO cookies (id, last) VALUES (1, 0) ON CONFLICT (id) DO NOTHING",
        &[],
    )
}

/// The last cookie.
pub fn last_row<S: Alter>(conn: &mut Connection<S>) -> Result<Row, Error>
    ensures found { IsKnown (state S.Store conn.old) → IsTrue (state S.Store conn.new).is_open
        → IfOk result (ShowsLast ((state S.Store conn.old).now.trees cookies_tree)) }
    ensures same { IsKnown (state S.Store conn.old) → IsTrue (state S.Store conn.new).is_open
        → KeepsDatabase (state S.Store conn.old) (state S.Store conn.new) }
    ensures opened { IsTrue (state S.Store conn.new).is_open
        → IsTrue (state S.Store conn.old).is_open }
{
    let _settled = conn.is_autocommit();
    conn.query_row("SELECT last FROM cookies WHERE id = 1", &[])
}

/// Each row of the table: its id and its last cookie.
pub fn all_cookies<S: Alter>(conn: &mut Connection<S>) -> Result<Vec<Row>, Error>
    ensures found { IsKnown (state S.Store conn.old) → IsTrue (state S.Store conn.new).is_open
        → IfOk result (λ out.
        ShowsAll ((state S.Store conn.old).now.trees cookies_tree) out.items) }
    ensures same { IsKnown (state S.Store conn.old) → IsTrue (state S.Store conn.new).is_open
        → KeepsDatabase (state S.Store conn.old) (state S.Store conn.new) }
    ensures opened { IsTrue (state S.Store conn.new).is_open
        → IsTrue (state S.Store conn.old).is_open }
{
    let _settled = conn.is_autocommit();
    conn.query_all("SELECT id, last FROM cookies", &[])
}

fn query_greatest<S: Alter>(conn: &mut Connection<S>) -> Result<Row, Error>
    ensures found { IsKnown (state S.Store conn.old) → IsTrue (state S.Store conn.new).is_open
        → IfOk result (ShowsGreatest ((state S.Store conn.old).now.trees items2_tree)) }
    ensures none { IsKnown (state S.Store conn.old) → IsTrue (state S.Store conn.new).is_open
        → result ≡ Err Error.QueryReturnedNoRows
        → (x : List Value) → Has ((state S.Store conn.old).now.trees items2_tree) x → ⊥ }
    ensures same { IsKnown (state S.Store conn.old) → IsTrue (state S.Store conn.new).is_open
        → KeepsDatabase (state S.Store conn.old) (state S.Store conn.new) }
    ensures opened { IsTrue (state S.Store conn.new).is_open
        → IsTrue (state S.Store conn.old).is_open }
{
    let _settled = conn.is_autocommit();
    conn.query_row(
        "SELECT cookie FROM items2 ORDER BY cookie DESC, key LIMIT 1",
        &[],
    )
}

/// The greatest cookie of the items, where there is an item; 0 where none is locked.
pub fn greatest_row<S: Alter>(conn: &mut Connection<S>) -> Result<Option<Row>, Error>
    ensures row { IsKnown (state S.Store conn.old) → IsTrue (state S.Store conn.new).is_open
        → IfOk result (FindsGreatest ((state S.Store conn.old).now.trees items2_tree)) }
    ensures same { IsKnown (state S.Store conn.old) → IsTrue (state S.Store conn.new).is_open
        → KeepsDatabase (state S.Store conn.old) (state S.Store conn.new) }
    ensures opened { IsTrue (state S.Store conn.new).is_open
        → IsTrue (state S.Store conn.old).is_open }
{
    match query_greatest(conn) {
        Ok(row) => Ok(Some(row)),
        Err(Error::QueryReturnedNoRows) => Ok(None),
        Err(error) => Err(error),
    }
}

/// Sets the last cookie to the parameter.
pub fn set_last<S: Alter>(conn: &mut Connection<S>, last: &[ValueRef<'_>]) -> Result<usize, Error>
    ensures sets { IsKnown (state S.Store conn.old) → IsTrue (state S.Store conn.new).is_open
        → (m : ℤ) → bound last.now ≡ Int m ∷ []
        → OnOk result (SetsLast ((state S.Store conn.old).now.trees cookies_tree)
        ((state S.Store conn.new).now.trees cookies_tree) m
        × IsKnown (state S.Store conn.new)
        × (((state S.Store conn.new).now.trees items2_tree)
        ≡ ((state S.Store conn.old).now.trees items2_tree))) }
    ensures same { IsKnown (state S.Store conn.old) → IsTrue (state S.Store conn.new).is_open
        → OnErr result (KeepsDatabase (state S.Store conn.old) (state S.Store conn.new)) }
    ensures opened { IsTrue (state S.Store conn.new).is_open
        → IsTrue (state S.Store conn.old).is_open }
{
    let _settled = conn.is_autocommit();
    conn.execute("UPDATE cookies SET last = ?1 WHERE id = 1", last)
}
