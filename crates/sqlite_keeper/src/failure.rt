//! Why a call came to nothing.
ghost use Rattle.std.specs.Prelude.{◌≡◌};
ghost use Rattle.sqlite_keeper.specs.declared.failure.Failure.TheVariants.{Database};

use sqlite::Error;

/// Why a call came to nothing. What the database answered is kept as it was, up to the one place
/// where a keeper answers and counts.
#[derive(Clone, Copy, Debug)]
pub(crate) enum Failure {
    /// The database refused.
    Database(Error),
    /// A row says no key or no item in range.
    BadRow,
    /// The old table still has a row after as many moves as are made.
    TooManyRows,
}

impl From<Error> for Failure {
    ghost from_gives = { λ error failure. failure ≡ Database error };

    fn from(error: Error) -> Self {
        Failure::Database(error)
    }
}
