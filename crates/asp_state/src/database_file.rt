//! A command whose items are in a database file.
ghost use Rattle.std.specs.Prelude.{◌≡◌, IfOk};

use asp_base::status::{DATABASE_REFUSED, NO_MEMORY};
use asp_base::{Sink, Source};
use keeper::KeepError;
use sqlite::{Connection, Error, ErrorCode, File, FileStore};
use sqlite_keeper::SqliteKeeper;
use stored_command::command_stored;

/// The keeper of the items in the file at the path, which is made where it is absent. An error is
/// the status.
fn keeper_at(rt: &HostRuntime, path: &str) -> Result<SqliteKeeper<FileStore<File>>, u8>
    ensures { IfOk result (λ keeper. keeper.faults ≡ 0) }
{
    let connection = match Connection::open(rt, path) {
        Ok(connection) => connection,
        Err(Error::SqliteFailure(ErrorCode::OutOfMemory)) => return Err(NO_MEMORY),
        Err(_) => return Err(DATABASE_REFUSED),
    };
    match SqliteKeeper::over(rt.alloc(), connection) {
        Ok(keeper) => Ok(keeper),
        Err(KeepError::NoMemory) => Err(NO_MEMORY),
        Err(KeepError::Fault) => Err(DATABASE_REFUSED),
    }
}

/// Does what the words say over the items in the file at the path, and answers the exit status.
pub fn run_stored<S: Source, T: Sink>(
    rt: &HostRuntime,
    path: &str,
    words: &[String],
    source: &mut S,
    sink: &mut T,
) -> u8 {
    let keeper = match keeper_at(rt, path) {
        Ok(keeper) => keeper,
        Err(status) => return status,
    };
    let ran = command_stored(rt.alloc(), words, source, sink, keeper);
    // Where the file can't be closed, the log beside it keeps what was written.
    let _closed = ran.keeper.into_connection().close();
    ran.status
}
