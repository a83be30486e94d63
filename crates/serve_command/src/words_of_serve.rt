//! The words of `serve`.
ghost use Rattle.std.specs.Prelude.{◌≡◌, ◌≢◌, ◌≤◌, IfSome, IsFalse, IsTrue, Some, map, string_bytes};
ghost use Rattle.serve_command.specs.ServeWords.{ServeWordsFit, serve_of, serve_with_folder, workers_in};

use asp_base::read_number;

/// The greatest number of a port.
const LAST_PORT: u64 = 65_535;

/// The most workers.
const MOST_WORKERS: u64 = 64;

/// The most connections of a worker.
const MOST_CONNECTIONS: u64 = 1_000_000;

/// What the words of `serve` say.
#[derive(Clone, Copy, Debug, PartialEq, Eq)]
pub struct ServeWords {
    /// The port on the loopback address, 1 to 65,535.
    pub port: u64,
    /// How many workers serve, 1 to 64.
    pub workers: u64,
    /// How many connections each worker serves, 1 to 1,000,000.
    pub limit: u64,
}

/// The numbers in the words of `serve PORT WORKERS LIMIT`, in decimal digits, where leading zeros
/// are read; `None` exactly where the words are none of `serve` with each number in its range. They
/// are judged without memory.
#[tactic(auto, unfolding(crate::specs::ServeWords::serve_of))]
pub fn serve_words(words: &[String]) -> Option<ServeWords>
    ensures value { result ≡ serve_of (map string_bytes words.now) }
    ensures fits { IfSome result ServeWordsFit }
{
    let [name, port, workers, limit] = words else {
        return None;
    };
    if name.as_str() != "serve" {
        return None;
    }
    let port = read_number(port.as_bytes(), LAST_PORT)?;
    let workers = read_number(workers.as_bytes(), MOST_WORKERS)?;
    let limit = read_number(limit.as_bytes(), MOST_CONNECTIONS)?;
    if port == 0 || workers == 0 || limit == 0 {
        return None;
    }
    Some(ServeWords {
        port,
        workers,
        limit,
    })
}

/// The numbers in the words of `serve PORT WORKERS LIMIT FOLDER`, where FOLDER is any word that is
/// not empty; `None` exactly where the words are no such, or a number is not in its range. They are
/// judged without memory.
pub fn serve_words_with_folder(words: &[String]) -> Option<ServeWords>
    ensures value { result ≡ serve_with_folder (map string_bytes words.now) }
    ensures fits { IfSome result ServeWordsFit }
{
    let [_, _, _, _, folder] = words else {
        return None;
    };
    if folder.as_bytes().is_empty() {
        return None;
    }
    serve_words(&words[..4])
}

/// Whether this number of workers is said. It takes no memory.
pub(crate) fn says_workers(said: Option<ServeWords>, workers: usize) -> bool
    requires fits { IfSome said ServeWordsFit }
    ensures yes { IsTrue result → workers_in said ≡ Some workers }
    ensures no { IsFalse result → workers_in said ≢ Some workers }
    ensures few { IsTrue result → (1 ≤ workers) × (workers ≤ 64) }
{
    match said {
        Some(said) => said.workers == workers as u64,
        None => false,
    }
}
