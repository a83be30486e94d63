//! The files of the journals of a folder, one for each shard.
ghost use Rattle.std.specs.Prelude.{◌≡◌, length, IfOk};

use crate::GatheringSink;
use asp_base::{HostSink, NoMemory};
use std::alloc::Global;
use std::fs::{File, OpenOptions};
use std::os::unix::fs::OpenOptionsExt;
use std::rt::{Clock as HostTime, Files};
use std::{fs, io};

/// The journal of a shard in a file.
pub type ShardFile<'a, R> = GatheringSink<'a, HostSink<File>, R>;

/// Why there are no files.
#[derive(Clone, Copy, Debug, PartialEq, Eq)]
pub enum NotMade {
    /// One could not be made: one of its name is there, the folder isn't, or nothing may be made
    /// there.
    Refused,
    /// There was no memory.
    NoMemory,
}

impl From<NoMemory> for NotMade {
    fn from(_: NoMemory) -> NotMade {
        NotMade::NoMemory
    }
}

/// Only who runs the server may read what its sessions hold.
const MODE: u32 = 0o600;

fn path_of(alloc: Global, folder: &str, shard: u64) -> Result<String, NoMemory> {
    match format!(in alloc; "{folder}/shard-{shard}.journal") {
        Ok(path) => Ok(path),
        Err(_) => Err(NoMemory),
    }
}

/// Makes a file, where none of that name is there.
fn make_file<R: Files<File = File>>(rt: &R, path: &str) -> Result<File, NotMade> {
    let mut options = OpenOptions::new();
    options.write(true).create_new(true).mode(MODE);
    match options.open(rt, path) {
        Ok(file) => Ok(file),
        Err(error) if error.kind() == io::ErrorKind::OutOfMemory => Err(NotMade::NoMemory),
        Err(_) => Err(NotMade::Refused),
    }
}

/// Makes the file of a shard. On `NoMemory` none is left.
fn make_shard_file<'a, R: Files<File = File> + HostTime>(
    rt: &'a R,
    alloc: Global,
    folder: &str,
    shard: u64,
) -> Result<ShardFile<'a, R>, NotMade> {
    let path = path_of(alloc, folder, shard)?;
    let file = make_file(rt, path.as_str())?;
    match GatheringSink::new(alloc, HostSink::new(file), rt) {
        Ok(sink) => Ok(sink),
        Err(NoMemory) => {
            let _ = fs::remove_file(rt, path.as_str());
            Err(NotMade::NoMemory)
        }
    }
}

/// Makes the files `shard-0.journal`, `shard-1.journal` and so on in the folder, one for each
/// shard, in order. A file that is there stays as it is, and those that were made before it was met
/// are removed.
pub fn make_shard_files<'a, R: Files<File = File> + HostTime>(
    rt: &'a R,
    alloc: Global,
    folder: &str,
    shards: u64,
) -> Result<Vec<ShardFile<'a, R>>, NotMade>
    ensures { IfOk result (λ files. length files.items ≡ shards) }
{
    let Ok(mut files) = Vec::with_capacity(alloc, shards as usize) else {
        return Err(NotMade::NoMemory);
    };
    for shard in 0..shards {
        match make_shard_file(rt, alloc, folder, shard) {
            Ok(file) => files.push_reserved(file),
            Err(why) => {
                remove_shard_files(rt, alloc, folder, shard);
                return Err(why);
            }
        }
    }
    Ok(files)
}

/// Removes the files of the first so many shards from the folder, as far as that can be done.
pub fn remove_shard_files<R: Files>(rt: &R, alloc: Global, folder: &str, shards: u64) {
    for shard in 0..shards {
        if let Ok(path) = path_of(alloc, folder, shard) {
            let _ = fs::remove_file(rt, path.as_str());
        }
    }
}
