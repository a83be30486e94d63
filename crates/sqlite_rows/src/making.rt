//! The statements that make the tables and their indexes where they are absent, and those that are
//! understood and never run.
ghost use Rattle.std.specs.Prelude.{IsOk, OnOk};
ghost use Rattle.sqlite.specs.Held.{state};
ghost use Rattle.sqlite_rows.specs.Calls.{KeepsKnown};

use sqlite::{Alter, Connection, Error, Statement};

/// Makes the table of earlier versions, whose items had no end of their own.
pub fn make_items<S: Alter>(conn: &mut Connection<S>) -> Result<usize, Error>
    ensures { OnOk result (KeepsKnown (state S.Store conn.old) (state S.Store conn.new)) }
{
    conn.execute(
        "CREATE TABLE IF NOT EXISTS items (key BLOB PRIMARY KEY, body BLOB NOT NULL, \
        minutes INTEGER NOT NULL, fresh INTEGER NOT NULL, cookie INTEGER NOT NULL, \
        since INTEGER NOT NULL, touched INTEGER NOT NULL, expiry INTEGER NOT NULL)",
        &[],
    )
}

/// Makes its index by expiry.
pub fn index_items<S: Alter>(conn: &mut Connection<S>) -> Result<usize, Error>
    ensures { OnOk result (KeepsKnown (state S.Store conn.old) (state S.Store conn.new)) }
{
    conn.execute(
        "CREATE INDEX IF NOT EXISTS items_by_expiry ON items (expiry, key)",
        &[],
    )
}

/// Makes the table of the items.
pub fn make_items2<S: Alter>(conn: &mut Connection<S>) -> Result<usize, Error>
    ensures { OnOk result (KeepsKnown (state S.Store conn.old) (state S.Store conn.new)) }
{
    conn.execute(
        "CREATE TABLE IF NOT EXISTS items2 (key BLOB PRIMARY KEY, body BLOB NOT NULL, \
        minutes INTEGER NOT NULL, fresh INTEGER NOT NULL, cookie INTEGER NOT NULL, \
        since INTEGER NOT NULL, touched INTEGER NOT NULL, ends INTEGER NOT NULL, \
        expiry INTEGER NOT NULL)",
        &[],
    )
}

/// Makes its index by expiry, with which the look for an item that has expired reads one row,
/// however many there are.
pub fn index_items2<S: Alter>(conn: &mut Connection<S>) -> Result<usize, Error>
    ensures { OnOk result (KeepsKnown (state S.Store conn.old) (state S.Store conn.new)) }
{
    conn.execute(
        "CREATE INDEX IF NOT EXISTS items2_by_expiry ON items2 (expiry, key)",
        &[],
    )
}

/// Makes the table of the last cookie.
pub fn make_cookies<S: Alter>(conn: &mut Connection<S>) -> Result<usize, Error>
    ensures { OnOk result (KeepsKnown (state S.Store conn.old) (state S.Store conn.new)) }
{
    conn.execute(
        "CREATE TABLE IF NOT EXISTS cookies (id INTEGER PRIMARY KEY, last INTEGER NOT NULL)",
        &[],
    )
}

/// Whether the text was understood.
fn is_understood(statement: Result<Statement, Error>) -> Result<(), Error>
    ensures { OnOk result (IsOk statement) }
{
    match statement {
        Ok(_) => Ok(()),
        Err(error) => Err(error),
    }
}

/// Understands the text, and does not run it.
pub fn understand<S: Alter>(conn: &mut Connection<S>, text: &str) -> Result<(), Error>
    ensures { OnOk result (KeepsKnown (state S.Store conn.old) (state S.Store conn.new)) }
{
    let statement = conn.prepare(text);
    is_understood(statement)
}
