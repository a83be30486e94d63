//! The keeper.
ghost use Rattle.std.specs.Prelude.{◌≡◌, ◌<◌, ◌-◌, ◌^◌, ℕ, pos, None, Some, IfOk, IfSome};
ghost use Rattle.std.specs.Prelude.{IsTrue, OnErr, OnOk};
ghost use Rattle.asp_messages.specs.Ranges.{KeyFits};
ghost use Rattle.session_machine.specs.Liveness.{ItemFits};
ghost use Rattle.keeper.specs.Due.{TellsDue};
ghost use Rattle.keeper.specs.Items.{StillTells, TellsItem, TellsSets};
ghost use Rattle.keeper.specs.KeeperCauses.{HasKeepCause};
ghost use Rattle.sqlite.specs.Held.{state};
ghost use Rattle.sqlite_rows.specs.Cookies.{IsLast};
ghost use Rattle.sqlite_rows.specs.Numbers.{AreNumbered};
ghost use Rattle.sqlite_keeper.specs.Blocks.{HoldsBelow, IsBlockFrom, IsCookie, TellsBlock};
ghost use Rattle.sqlite_keeper.specs.Blocks.{told_last};
ghost use Rattle.sqlite_keeper.specs.Failures.{keeper_answer};
ghost use Rattle.sqlite_keeper.specs.Keeping.{cookies_in, faults_after, may_tell, rows_in};
ghost use Rattle.sqlite_keeper.specs.Keeping.{told_by};
ghost use Rattle.sqlite_keeper.specs.Keeping.{told_faults};
ghost use Rattle.sqlite_keeper.specs.Opening.{GoesOn, IsReady};
ghost use Rattle.sqlite_keeper.specs.Told.{told_rows};

use crate::blocks::{last_after, next_block};
use crate::cookie_block::CookieBlock;
use crate::failure::Failure;
use crate::items::{cut_item, due_key, get_item, put_item};
use crate::opening::{all_hold, prepare, read_cookies, reopen, stands_alone};
use asp_base::Bytes;
use keeper::{KeepError, Keeper};
use session_machine::Item;
use sqlite::{Alter, Connection, Error, ErrorCode};
use std::alloc::Global;
use std::marker::Model;

/// A keeper over the table `items2` of a database, with the last cookie of its blocks in the table
/// `cookies`. It counts each refusal of the database but want of memory, and each row that it reads
/// and that is no key or no item in range.
///
/// It tells the items of its rows while the connection is open, where it found its tables alone in
/// their database and each row is that of a key and an item. So a keeper stops telling when a disk
/// fails or returns other bytes than were written.
pub struct SqliteKeeper<S: Alter> {
    connection: Connection<S>,
    last: u64,
    faults: u64,
    knows: bool,
}

impl<S: Alter> Model for SqliteKeeper<S> {
    ghost use Rattle.sqlite.specs.Held.{Held, held_code};
    ghost use Rattle.sqlite_keeper.specs.Keeping.{KeepsRows, OverDatabase, over_database_code};

    ghost Value = { OverDatabase (Held S) };

    ghost coded = { over_database_code (held_code S.code) };

    ghost view = { λ k. record {
      connection = k.connection;
      last = k.last;
      faults = k.faults;
      knows = k.knows;
    } };

    ghost invariant = { λ k. KeepsRows S.Store k.knows k.last k.connection };
}

// It is written out, so that a caller does not prove again how each part is dropped.
impl<S: Alter + Drop> Drop for SqliteKeeper<S> {
    fn drop(self) {
        let SqliteKeeper {
            connection: _,
            last: _,
            faults: _,
            knows: _,
        } = self;
    }
}

/// A keeper over a connection whose tables are ready.
fn settle<S: Alter + Drop>(
    connection: Connection<S>,
    numbered: bool,
) -> Result<SqliteKeeper<S>, Failure>
    requires items { IsTrue numbered → IsTrue (state S.Store connection).is_open
        → AreNumbered (rows_in (state S.Store connection)) }
    requires cookies { IsTrue numbered → IsTrue (state S.Store connection).is_open
        → AreNumbered (cookies_in (state S.Store connection)) }
    ensures faults { IfOk result (λ keeper. keeper.faults ≡ 0) }
    ensures goes_on { (last : ℕ) → IsLast (cookies_in (state S.Store connection)) (pos last)
        → IfOk result (GoesOn S.Store (state S.Store connection) last) }
    ensures opened { IfOk result (λ keeper. IsTrue (may_tell S.Store keeper)
        → IsTrue (state S.Store connection).is_open) }
{
    let mut connection = connection;
    let alone = stands_alone(&connection);
    let cookies = read_cookies(&mut connection);
    match cookies {
        Ok(found) => Ok(SqliteKeeper {
            connection,
            last: found.last,
            faults: 0,
            knows: all_hold(numbered, alone, found.is_one),
        }),
        Err(failure) => Err(failure),
    }
}

/// A keeper over the connection, whose tables are made, and whose old rows are moved.
fn open_over<S: Alter + Drop>(
    alloc: Global,
    connection: Connection<S>,
) -> Result<SqliteKeeper<S>, Failure>
    ensures faults { IfOk result (λ keeper. keeper.faults ≡ 0) }
    ensures goes_on { (last : ℕ) → IsReady (state S.Store connection) last
        → IfOk result (GoesOn S.Store (state S.Store connection) last) }
{
    let mut connection = connection;
    prepare(&mut connection)?;
    let (connection, numbered) = reopen(alloc, connection)?;
    settle(connection, numbered)
}

impl<S: Alter + Drop> SqliteKeeper<S> {
    /// A keeper over the connection that has not failed yet. The tables `items`, `items2` and
    /// `cookies` are made where they are absent, and the rows of `items`, which earlier versions
    /// wrote, are moved to `items2`, one by one in the order of their keys: there they have the
    /// last of all ends. A key that has a row in both keeps that of `items2`. The connection is
    /// opened over its store anew, so it has no step limit and no clock then; where a transaction
    /// is open it stays as it is, and the keeper knows no tables.
    ///
    /// `NoMemory` is want of memory; `Fault` is every other refusal of the database, as of a table
    /// of another form, of a file that may not be written and of a full disk, and a row of `items`
    /// that is no key and item in range: it stays where it is, with the rows behind it. Those that
    /// were moved before a refusal stay moved. A last cookie out of range is a `Fault` too.
    pub fn over(alloc: Global, connection: Connection<S>) -> Result<SqliteKeeper<S>, KeepError>
        ensures faults { IfOk result (λ keeper. keeper.faults ≡ 0) }
        ensures tells { (last : ℕ) → IsReady (state S.Store connection) last
            → IfOk result (λ keeper. StillTells
            (told_rows (rows_in (state S.Store connection))) (told_by S.Store keeper)) }
        ensures last { (last : ℕ) → IsReady (state S.Store connection) last
            → IfOk result (λ keeper. IsTrue (may_tell S.Store keeper) → keeper.last ≡ last) }
    {
        let mut faults = 0;
        let opened = open_over(alloc, connection);
        answered(&mut faults, opened)
    }
}

impl<S: Alter> SqliteKeeper<S> {
    /// The connection, with all that was written.
    pub fn into_connection(self) -> Connection<S>
        ensures { result ≡ self.connection }
    {
        let SqliteKeeper {
            connection,
            last: _,
            faults: _,
            knows: _,
        } = self;
        connection
    }

    /// Whether it found its tables alone in their database, as it must to tell their rows.
    pub fn knows_tables(&self) -> bool
        ensures { result ≡ self.now.knows }
    {
        self.knows
    }

    /// The next block of cookies. It begins at `at_least`, which is from 1 to 2^63 - 1, or above
    /// it: above the last cookie of each block before it over the same tables, and above each
    /// cookie that a row holds. Its last cookie is stored before it is answered.
    ///
    /// `None` where the greatest cookie of all was in a block or is held; nothing changes then.
    /// After an error the last cookie and the items are as they were. `Fault` is every refusal of
    /// the database but want of memory, and a greatest cookie that is no number in range.
    pub fn block(&mut self, at_least: u64) -> Result<Option<CookieBlock>, KeepError>
        requires { IsCookie at_least }
        ensures block { IfOk result (λ block. IfSome block (IsBlockFrom at_least)) }
        ensures above { IfOk result (λ block. IfSome block (λ block.
            self.old.last < block.first)) }
        ensures told { IfOk result (TellsBlock (told_by S.Store self.new) self.old.last at_least) }
        ensures held { IfOk result (λ block. IfSome block (λ block.
            HoldsBelow (told_by S.Store self.new) block.first)) }
        ensures last { self.new.last ≡ told_last self.old.last result }
        ensures same { StillTells (told_by S.Store self.old) (told_by S.Store self.new) }
        ensures counted { self.new.faults ≡ faults_after self.old.faults result }
        ensures cause { HasKeepCause (told_faults self.old.faults)
            (told_faults self.new.faults) result }
    {
        let given = next_block(&mut self.connection, self.last, at_least);
        self.last = last_after(self.last, &given);
        answered(&mut self.faults, given)
    }
}

/// The answer to what a call gave: want of memory where the database says so, and every other
/// failure is a fault, which is counted. Each call of the keeper answers by it.
fn answered<T>(faults: &mut u64, given: Result<T, Failure>) -> Result<T, KeepError>
    ensures told { result ≡ keeper_answer given }
    ensures counted { faults.new ≡ faults_after faults.old result }
{
    match given {
        Ok(value) => Ok(value),
        Err(Failure::Database(Error::SqliteFailure(ErrorCode::OutOfMemory))) => {
            Err(KeepError::NoMemory)
        }
        Err(_) => {
            *faults = faults.saturating_add(1);
            Err(KeepError::Fault)
        }
    }
}

impl<S: Alter> Keeper for SqliteKeeper<S> {
    ghost told = { told_by S.Store };

    ghost floor = { λ k. k.last };

    ghost count = { λ k. told_faults k.faults };

    ghost can_count = { λ n. n < 2 ^ 64 };

    ghost use Rattle.std.proofs.Common.{arith};

    ghost counts = { λ k. omega arith };

    fn get(&mut self, key: &Bytes) -> Result<Option<Item>, KeepError>
        requires { KeyFits key.now }
        ensures item { IfOk result (TellsItem (told_by S.Store self.new) key.now) }
        ensures fits { IfOk result (λ item. IfSome item ItemFits) }
        ensures same { StillTells (told_by S.Store self.old) (told_by S.Store self.new) }
        ensures floor { self.new.last ≡ self.old.last }
        ensures counted { self.new.faults ≡ faults_after self.old.faults result }
        ensures cause { HasKeepCause (told_faults self.old.faults)
            (told_faults self.new.faults) result }
    {
        let item = get_item(&mut self.connection, key);
        answered(&mut self.faults, item)
    }

    fn put(&mut self, key: &Bytes, item: Item) -> Result<(), KeepError>
        requires key { KeyFits key.now }
        requires item { ItemFits item }
        ensures ok { OnOk result (TellsSets (told_by S.Store self.old) (told_by S.Store self.new)
            key.now (Some item)) }
        ensures err { OnErr result
            (StillTells (told_by S.Store self.old) (told_by S.Store self.new)) }
        ensures floor { self.new.last ≡ self.old.last }
        ensures counted { self.new.faults ≡ faults_after self.old.faults result }
        ensures cause { HasKeepCause (told_faults self.old.faults)
            (told_faults self.new.faults) result }
    {
        let written = put_item(&mut self.connection, key, &item);
        answered(&mut self.faults, written)
    }

    fn cut(&mut self, key: &Bytes) -> Result<(), KeepError>
        requires { KeyFits key.now }
        ensures ok { OnOk result (TellsSets (told_by S.Store self.old) (told_by S.Store self.new)
            key.now None) }
        ensures err { OnErr result
            (StillTells (told_by S.Store self.old) (told_by S.Store self.new)) }
        ensures floor { self.new.last ≡ self.old.last }
        ensures counted { self.new.faults ≡ faults_after self.old.faults result }
        ensures cause { HasKeepCause (told_faults self.old.faults)
            (told_faults self.new.faults) result }
    {
        let removed = cut_item(&mut self.connection, key);
        answered(&mut self.faults, removed)
    }

    fn due(&mut self, t: u64) -> Result<Option<Bytes>, KeepError>
        ensures due { IfOk result (TellsDue (told_by S.Store self.new) t) }
        ensures fits { IfOk result (λ key. IfSome key KeyFits) }
        ensures same { StillTells (told_by S.Store self.old) (told_by S.Store self.new) }
        ensures floor { self.new.last ≡ self.old.last }
        ensures counted { self.new.faults ≡ faults_after self.old.faults result }
        ensures cause { HasKeepCause (told_faults self.old.faults)
            (told_faults self.new.faults) result }
    {
        let key = due_key(&mut self.connection, t);
        answered(&mut self.faults, key)
    }

    fn faults(&self) -> u64 {
        self.faults
    }
}
