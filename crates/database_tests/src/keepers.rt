//! What the tests of a keeper over a database share. They show what no clause says: that the
//! statements are those that are meant, which rows are refused, and that a shard runs over it.
ghost use Rattle.std.specs.Prelude.{IfOk};
ghost use Rattle.asp_messages.specs.Ranges.{KeyFits};

use asp_base::{Bytes, NoMemory};
use sqlite::{Alter, Connection, MemStore};
use sqlite_keeper::SqliteKeeper;
use std::alloc::Global;
use std::test::Fail;

/// The key of a slash and this letter.
pub(crate) fn key(alloc: Global, letter: u8) -> Result<Bytes, NoMemory>
    ensures { IfOk result KeyFits }
{
    Bytes::copy(alloc, &[b'/', letter])
}

/// A keeper over an empty database in memory.
pub(crate) fn in_memory(alloc: Global) -> Result<SqliteKeeper<MemStore>, Fail> {
    Ok(SqliteKeeper::over(alloc, Connection::open_in_memory(alloc)?)?)
}

/// Runs a statement that has no parameters.
pub(crate) fn run<S: Alter>(connection: &mut Connection<S>, text: &str) -> Result<(), Fail> {
    connection.execute(text, &[])?;
    Ok(())
}

/// The one number of a query.
pub(crate) fn number<S: Alter>(connection: &mut Connection<S>, text: &str) -> Result<i64, Fail> {
    Ok(connection.query_row(text, &[])?.get(0)?)
}
