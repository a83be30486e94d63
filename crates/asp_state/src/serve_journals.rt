//! The command that serves and writes a journal of each shard, in new files of a folder.
use crate::memory_keepers::keepers_of;
use crate::serve_sockets::{SHARDS, listen, workers_of};
use asp_base::status::{DONE, NO_MEMORY};
use asp_base::{Failed, OpenGate};
use journal_files::{NotMade, ShardFile, make_shard_files, remove_shard_files};
use journal_shelf::Shelf;
use serve_command::{ServeWords, serve_noted};
use state_mirror::{Order, Stop};
use std::alloc::Global;
use std::fs::File;
use std::net::{Net, TcpListener, TcpStream};
use std::rt::{Clock as HostTime, Files};
use std::sync::Wait;
use std::thread::Threads;

/// The file of a journal could not be made: one of its name is there, say.
const JOURNAL_REFUSED: u8 = 17;

/// A journal could not be written to its end.
const JOURNAL_STOPPED: u8 = 20;

/// Writes what waits of a journal, and answers what became of it: written whole, stopped by its
/// file, or by want of memory.
fn close_journal<R: HostTime>(order: Order<ShardFile<'_, R>>) -> u8 {
    let stop = order.stopped();
    let mut file = order.into_sink();
    match (stop, file.hand_on()) {
        (Some(Stop::Sink), _) | (_, Err(Failed)) => JOURNAL_STOPPED,
        (Some(Stop::NoMemory), Ok(())) => NO_MEMORY,
        (None, Ok(())) => DONE,
    }
}

/// Closes the journals of a shelf, and answers the first of these that holds: one was stopped by
/// its file, one by want of memory, all are whole.
fn close_journals<R: HostTime>(shelf: Shelf<ShardFile<'_, R>>) -> u8 {
    let mut shelf = shelf;
    let mut status = DONE;
    for _ in 0..SHARDS {
        let Some(order) = shelf.pop() else {
            break;
        };
        status = status.max(close_journal(order));
    }
    status
}

/// A shelf over a new file for each shard. An error is the status; no file is left then.
fn shelf_in<'a, R: Files<File = File> + HostTime>(
    rt: &'a R,
    alloc: Global,
    folder: &str,
) -> Result<Shelf<ShardFile<'a, R>>, u8> {
    let files = match make_shard_files(rt, alloc, folder, SHARDS) {
        Ok(files) => files,
        Err(NotMade::Refused) => return Err(JOURNAL_REFUSED),
        Err(NotMade::NoMemory) => return Err(NO_MEMORY),
    };
    match Shelf::new(alloc, files) {
        Ok(shelf) => Ok(shelf),
        Err(_) => {
            remove_shard_files(rt, alloc, folder, SHARDS);
            Err(NO_MEMORY)
        }
    }
}

/// Serves as `run_serving` does, and writes the journals of the shards into the folder. Where
/// nothing was served no file is left.
pub fn run_serving_noted<R>(
    rt: &R,
    alloc: Global,
    words: &[String],
    said: ServeWords,
    folder: &str,
) -> u8
where
    R: Threads
        + Wait
        + HostTime
        + Files<File = File>
        + Net<Listener = TcpListener, Stream = TcpStream>
        + Sync,
{
    let listener = match listen(rt, said) {
        Ok(listener) => listener,
        Err(status) => return status,
    };
    let Some(keepers) = keepers_of(alloc, SHARDS) else {
        return NO_MEMORY;
    };
    let Some(mut workers) = workers_of(alloc, &listener, said) else {
        return NO_MEMORY;
    };
    let shelf = match shelf_in(rt, alloc, folder) {
        Ok(shelf) => shelf,
        Err(status) => return status,
    };
    let served = serve_noted(rt, alloc, words, keepers, &mut workers, &OpenGate, &shelf);
    if served.store.is_none() {
        remove_shard_files(rt, alloc, folder, SHARDS);
    }
    let closed = close_journals(shelf);
    if served.status == DONE {
        closed
    } else {
        served.status
    }
}
