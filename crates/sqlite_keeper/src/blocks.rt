//! The next block of cookies, over the tables `items2` and `cookies`.
ghost use Rattle.std.specs.Prelude.{◌≡◌, ℕ, ◌<◌, ◌^◌, pos, IfOk, IfSome, IsOk, IsTrue};
ghost use Rattle.std.specs.Prelude.{OnErr, OnOk};
ghost use Rattle.sqlite.specs.Held.{state};
ghost use Rattle.sqlite_rows.specs.Calls.{IsKnown, KeepsDatabase};
ghost use Rattle.sqlite_rows.specs.Cookies.{IsLast, SetsLast};
ghost use Rattle.sqlite_keeper.specs.Blocks.{BeginsAbove, IsBlockFrom, IsCookie, ReadsHeld};
ghost use Rattle.sqlite_keeper.specs.Blocks.{TellsBlock, TellsHeld, stored_answer, told_last};
ghost use Rattle.sqlite_keeper.specs.Keeping.{Rests, cookies_in, rows_in};
ghost use Rattle.sqlite_keeper.specs.Told.{told_rows};

use crate::cookie_block::CookieBlock;
use crate::failure::Failure;
use crate::items::written;
use crate::rows::number;
use asp_messages::MOST_COOKIE;
use sqlite::types::ValueRef;
use sqlite::{Alter, Connection, Error, Row};
use sqlite_rows::{greatest_row, learn_keys, set_last};

/// How far a block's last cookie is above its first, where the greatest cookie is as far.
const BLOCK_REACH: u64 = 4_294_967_295;

/// The cookie that a row shows, 0 where there is none.
fn held_in(row: Option<Row>) -> Result<u64, Failure>
    ensures { IfOk result (ReadsHeld row) }
{
    match row {
        Some(row) => number(&row, 0),
        None => Ok(0),
    }
}

/// The cookie that a row shows, 0 where there is none.
fn read_held(row: Result<Option<Row>, Error>) -> Result<u64, Failure>
    ensures shows { IfOk result (λ cookie. IfOk row (λ r. ReadsHeld r cookie)) }
    ensures ok { OnOk result (IsOk row) }
{
    match row {
        Ok(row) => held_in(row),
        Err(error) => Err(Failure::Database(error)),
    }
}

/// The greatest cookie that an item holds, 0 where none holds one.
fn greatest_held<S: Alter>(connection: &mut Connection<S>) -> Result<u64, Failure>
    ensures held { Rests (state S.Store connection.old)
        → IsTrue (state S.Store connection.new).is_open
        → IfOk result (TellsHeld (told_rows (rows_in (state S.Store connection.old)))) }
    ensures same { IsKnown (state S.Store connection.old)
        → IsTrue (state S.Store connection.new).is_open
        → KeepsDatabase (state S.Store connection.old) (state S.Store connection.new) }
    ensures opened { IsTrue (state S.Store connection.new).is_open
        → IsTrue (state S.Store connection.old).is_open }
{
    learn_keys(connection);
    let row = greatest_row(connection);
    read_held(row)
}

/// The block that begins at this cookie or above it, and above the last and the greatest held.
fn block_above(at_least: u64, last: u64, held: u64) -> Option<CookieBlock>
    requires { IsCookie at_least }
    ensures block { IfSome result (IsBlockFrom at_least) }
    ensures above { BeginsAbove at_least last held result }
{
    let used = last.max(held);
    if used >= MOST_COOKIE {
        return None;
    }
    let first = at_least.max(used + 1);
    let last = (first + BLOCK_REACH).min(MOST_COOKIE);
    Some(CookieBlock { first, last })
}

/// Stores the last cookie.
fn store_last<S: Alter>(connection: &mut Connection<S>, last: u64) -> Result<(), Failure>
    requires { last < 2 ^ 63 }
    ensures sets { IsKnown (state S.Store connection.old)
        → IsTrue (state S.Store connection.new).is_open
        → OnOk result (SetsLast (cookies_in (state S.Store connection.old))
        (cookies_in (state S.Store connection.new)) (pos last)
        × IsKnown (state S.Store connection.new)
        × (rows_in (state S.Store connection.new) ≡ rows_in (state S.Store connection.old))) }
    ensures same { IsKnown (state S.Store connection.old)
        → IsTrue (state S.Store connection.new).is_open
        → OnErr result (KeepsDatabase (state S.Store connection.old)
        (state S.Store connection.new)) }
    ensures opened { IsTrue (state S.Store connection.new).is_open
        → IsTrue (state S.Store connection.old).is_open }
{
    let count = set_last(connection, &[ValueRef::Int(last as i64)]);
    written(count)
}

/// The block, where its last cookie was stored.
fn if_stored(done: Result<(), Failure>, block: CookieBlock) -> Result<Option<CookieBlock>, Failure>
    ensures { result ≡ stored_answer done block }
{
    match done {
        Ok(()) => Ok(Some(block)),
        Err(failure) => Err(failure),
    }
}

/// Stores the last cookie of the block, where there is one.
fn store_block<S: Alter>(
    connection: &mut Connection<S>,
    block: Option<CookieBlock>,
) -> Result<Option<CookieBlock>, Failure>
    requires { IfSome block (λ block. block.last < 2 ^ 63) }
    ensures block { IfOk result (λ stored. stored ≡ block) }
    ensures known { IsKnown (state S.Store connection.old)
        → IsTrue (state S.Store connection.new).is_open → IsKnown (state S.Store connection.new) }
    ensures rows { IsKnown (state S.Store connection.old)
        → IsTrue (state S.Store connection.new).is_open
        → rows_in (state S.Store connection.new) ≡ rows_in (state S.Store connection.old) }
    ensures cookies { (last : ℕ) → IsKnown (state S.Store connection.old)
        → IsTrue (state S.Store connection.new).is_open
        → IsLast (cookies_in (state S.Store connection.old)) (pos last)
        → IsLast (cookies_in (state S.Store connection.new)) (pos (told_last last result)) }
    ensures opened { IsTrue (state S.Store connection.new).is_open
        → IsTrue (state S.Store connection.old).is_open }
{
    match block {
        Some(block) => {
            let done = store_last(connection, block.last);
            if_stored(done, block)
        }
        None => Ok(None),
    }
}

/// The next block, whose last cookie is stored. `None` where there is none.
pub(crate) fn next_block<S: Alter>(
    connection: &mut Connection<S>,
    last: u64,
    at_least: u64,
) -> Result<Option<CookieBlock>, Failure>
    requires { IsCookie at_least }
    ensures block { IfOk result (λ block. IfSome block (IsBlockFrom at_least)) }
    ensures above { IfOk result (λ block. IfSome block (λ block. last < block.first)) }
    ensures told { Rests (state S.Store connection.old)
        → IsTrue (state S.Store connection.new).is_open
        → IfOk result (TellsBlock (told_rows (rows_in (state S.Store connection.old)))
        last at_least) }
    ensures known { IsKnown (state S.Store connection.old)
        → IsTrue (state S.Store connection.new).is_open → IsKnown (state S.Store connection.new) }
    ensures rows { IsKnown (state S.Store connection.old)
        → IsTrue (state S.Store connection.new).is_open
        → rows_in (state S.Store connection.new) ≡ rows_in (state S.Store connection.old) }
    ensures cookies { IsKnown (state S.Store connection.old)
        → IsTrue (state S.Store connection.new).is_open
        → IsLast (cookies_in (state S.Store connection.old)) (pos last)
        → IsLast (cookies_in (state S.Store connection.new)) (pos (told_last last result)) }
    ensures opened { IsTrue (state S.Store connection.new).is_open
        → IsTrue (state S.Store connection.old).is_open }
{
    match greatest_held(connection) {
        Ok(held) => {
            let block = block_above(at_least, last, held);
            store_block(connection, block)
        }
        Err(failure) => Err(failure),
    }
}

/// The last cookie after a look for a block.
pub(crate) fn last_after(last: u64, given: &Result<Option<CookieBlock>, Failure>) -> u64
    ensures { result ≡ told_last last given.now }
{
    match given {
        Ok(Some(block)) => block.last,
        _ => last,
    }
}
