//! What the rows of an answer say: an item, or a key; and what a row holds of both.
ghost use Rattle.std.specs.Prelude.{◌≡◌, ◌≢◌, ◌<◌, IfOk, IfSome, OnOk, OnErr};
ghost use Rattle.asp_messages.specs.Ranges.{KeyFits};
ghost use Rattle.session_machine.specs.Liveness as liveness;
ghost use Rattle.sqlite_value.specs.declared.value.Value.TheVariants.{Blob};
ghost use Rattle.sqlite_value.specs.Order.{column};
ghost use Rattle.sqlite.specs.Values.{bound};
ghost use Rattle.sqlite_keeper.specs.Failures.{FailsByRow, FaultMeansNone, NoValueIs};
ghost use Rattle.sqlite_keeper.specs.Rows.{BeginsWith, IsNumberAt, LockCookieFits, LockSinceFits};
ghost use Rattle.sqlite_keeper.specs.Rows.{ReadsItem, ReadsKey, SaysItem, SaysKey, SaysLock, SaysOldItem};
ghost use Rattle.sqlite_keeper.specs.Rows.{columns_of, flag_number};

use crate::failure::Failure;
use asp_base::{Bytes, LAST_MOMENT};
use asp_messages::{MOST_BODY, MOST_COOKIE, MOST_KEY, MOST_MINUTES};
use session_machine::{Hold, Item, expiry};
use sqlite::Row;
use sqlite::types::ValueRef;

/// The end of an item that has none of its own, in milliseconds: no moment comes up to it. It is
/// also the greatest end.
pub(crate) const NO_END: u64 = 0x7fff_ffff_ffff_ffff;

/// The places of an item's columns in a row that was read.
const BODY: usize = 0;

const MINUTES: usize = 1;

const FRESH: usize = 2;

const COOKIE: usize = 3;

const SINCE: usize = 4;

const TOUCHED: usize = 5;

/// Behind those, in a row of `items2`.
const ENDS: usize = 6;

const EXPIRY: usize = 7;

/// Behind those, in a row of `items`.
const OLD_EXPIRY: usize = 6;

pub(crate) const OLD_KEY: usize = 7;

/// The place of the key in a row that has nothing else.
const KEY: usize = 0;

/// The number at this place of a row.
pub(crate) fn number(row: &Row, place: usize) -> Result<u64, Failure>
    ensures ok { IfOk result (IsNumberAt row.now place) }
    ensures fault { FaultMeansNone result (IsNumberAt row.now place) }
{
    Ok(row.get(place)?)
}

/// The bytes at this place of a row.
fn bytes(row: &Row, place: usize) -> Result<Bytes, Failure>
    ensures ok { IfOk result (λ bytes. column row.now place ≡ Blob bytes) }
    ensures fault { FaultMeansNone result (λ bytes. column row.now place ≡ Blob bytes) }
{
    let bytes = row.get(place)?;
    Ok(Bytes::adopt(bytes))
}

/// The flag that a number stands for.
fn flag(number: u64) -> Result<bool, Failure>
    ensures ok { IfOk result (λ flag. flag_number flag ≡ number) }
    ensures none { OnErr result (NoValueIs (λ flag. flag_number flag ≡ number)) }
    ensures bad { FailsByRow result }
{
    match number {
        0 => Ok(false),
        1 => Ok(true),
        _ => Err(Failure::BadRow),
    }
}

/// The lock that the two numbers say, `None` where both are 0.
fn holder(cookie: u64, since: u64) -> Result<Option<Hold>, Failure>
    ensures ok { IfOk result (SaysLock cookie since) }
    ensures none { OnErr result (NoValueIs (SaysLock cookie since)) }
    ensures bad { FailsByRow result }
{
    if cookie == 0 && since == 0 {
        return Ok(None);
    }
    if cookie == 0 || cookie > MOST_COOKIE || since > LAST_MOMENT {
        return Err(Failure::BadRow);
    }
    Ok(Some(Hold { cookie, since }))
}

/// The item, where its content and numbers are in range.
fn in_range(item: Item) -> Result<Item, Failure>
    requires cookie { LockCookieFits item.holder }
    requires since { LockSinceFits item.holder }
    ensures fits { IfOk result liveness.ItemFits }
    ensures same { IfOk result (λ same. same ≡ item) }
    ensures none { OnErr result (liveness.ItemFits item → ⊥) }
    ensures bad { FailsByRow result }
{
    let body = item.body.as_slice().len() as u64;
    if body > MOST_BODY
        || item.minutes == 0
        || item.minutes > MOST_MINUTES
        || item.touched > LAST_MOMENT
        || item.ends > NO_END
    {
        return Err(Failure::BadRow);
    }
    Ok(item)
}

/// The item with which the row begins, where it ends at this moment.
fn item_until(row: &Row, ends: u64) -> Result<Item, Failure>
    ensures item { IfOk result (BeginsWith row.now) }
    ensures ends { IfOk result (λ item. item.ends ≡ ends) }
    ensures fault { FaultMeansNone result (λ item. BeginsWith row.now item × (item.ends ≡ ends)) }
{
    in_range(Item {
        body: bytes(row, BODY)?,
        minutes: number(row, MINUTES)?,
        fresh: flag(number(row, FRESH)?)?,
        holder: holder(number(row, COOKIE)?, number(row, SINCE)?)?,
        touched: number(row, TOUCHED)?,
        ends,
    })
}

/// The item, where this moment is its expiry.
fn expiring(item: Item, moment: u64) -> Result<Item, Failure>
    requires { liveness.ItemFits item }
    ensures same { IfOk result (λ same. same ≡ item) }
    ensures ok { OnOk result (moment ≡ liveness.expiry item) }
    ensures none { OnErr result (moment ≢ liveness.expiry item) }
    ensures bad { FailsByRow result }
{
    if moment != expiry(&item) {
        return Err(Failure::BadRow);
    }
    Ok(item)
}

/// The item of a row with the columns `body`, `minutes`, `fresh`, `cookie`, `since`, `touched`,
/// `ends` and `expiry`.
fn item(row: &Row) -> Result<Item, Failure>
    ensures item { IfOk result (SaysItem row.now) }
    ensures fault { FaultMeansNone result (SaysItem row.now) }
{
    let ends = number(row, ENDS)?;
    let item = item_until(row, ends)?;
    expiring(item, number(row, EXPIRY)?)
}

/// The item of a row with the columns `body`, `minutes`, `fresh`, `cookie`, `since`, `touched` and
/// `expiry`. It has no end of its own.
pub(crate) fn old_item(row: &Row) -> Result<Item, Failure>
    ensures item { IfOk result (SaysOldItem row.now) }
    ensures fault { FaultMeansNone result (SaysOldItem row.now) }
{
    let item = item_until(row, NO_END)?;
    expiring(item, number(row, OLD_EXPIRY)?)
}

/// The key at this place of a row.
pub(crate) fn key(row: &Row, place: usize) -> Result<Bytes, Failure>
    ensures key { IfOk result (SaysKey row.now place) }
    ensures fault { FaultMeansNone result (SaysKey row.now place) }
{
    let key = bytes(row, place)?;
    let length = key.as_slice().len();
    if length == 0 || length > MOST_KEY {
        return Err(Failure::BadRow);
    }
    Ok(key)
}

/// The item that a row says, where there is one.
pub(crate) fn item_of(row: Option<Row>) -> Result<Option<Item>, Failure>
    ensures shows { IfOk result (ReadsItem row) }
    ensures fits { IfOk result (λ item. IfSome item liveness.ItemFits) }
{
    match row {
        Some(row) => Ok(Some(item(&row)?)),
        None => Ok(None),
    }
}

/// The key that a row of one column says, where there is one.
pub(crate) fn key_of(row: Option<Row>) -> Result<Option<Bytes>, Failure>
    ensures shows { IfOk result (ReadsKey row) }
    ensures fits { IfOk result (λ key. IfSome key KeyFits) }
{
    match row {
        Some(row) => Ok(Some(key(&row, KEY)?)),
        None => Ok(None),
    }
}

/// What a row holds of a key and its item: the columns `key`, `body`, `minutes`, `fresh`, `cookie`,
/// `since`, `touched`, `ends` and `expiry`.
pub(crate) fn columns<'x>(key: &'x Bytes, item: &'x Item) -> [ValueRef<'x>; 9]
    requires { liveness.ItemFits item.now }
    ensures { bound result ≡ columns_of key.now item.now }
{
    let (cookie, since) = match &item.holder {
        Some(hold) => (hold.cookie, hold.since),
        None => (0, 0),
    };
    [
        ValueRef::Blob(key.as_slice()),
        ValueRef::Blob(item.body.as_slice()),
        ValueRef::Int(item.minutes as i64),
        ValueRef::Int(i64::from(item.fresh)),
        ValueRef::Int(cookie as i64),
        ValueRef::Int(since as i64),
        ValueRef::Int(item.touched as i64),
        ValueRef::Int(item.ends as i64),
        ValueRef::Int(expiry(item) as i64),
    ]
}
