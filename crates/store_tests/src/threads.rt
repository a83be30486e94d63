//! Eight threads on one key: no addition to a counter is lost.
ghost use Rattle.std.specs.Prelude.{◌≡◌, ◌<◌, ◌^◌, All, IfOk, IfSome};
ghost use Rattle.asp_messages.specs.Ranges.{CookieFits, ReplyFits};
ghost use Rattle.state_store.specs.Passes.{IsPassOf, IsRollOf, passes_of};

use crate::given::{answer, first_pass, keepers, on_key, open};
use asp_base::{Bytes, NoMemory};
use asp_messages::{Ask, Reply};
use keeper::{FaultyKeeper, Keeper, ListKeeper};
use state_store::{FreshStore, Pass, Roll, Store};
use std::alloc::{AllocError, Global};
use std::process::Abort;
use std::sync::Wait;
use std::test::Fail;
use std::thread::{Threads, map_vec, yield_now};

const THREADS: u64 = 8;

const ADDITIONS_EACH: u64 = 200;

/// A thread that asks so often in vain gives up.
const ATTEMPTS: u64 = 10_000_000;

/// The number that the bytes spell, the least first.
fn number_in(body: &Bytes) -> u64 {
    let mut number: u64 = 0;
    for byte in body.as_slice().iter().rev() {
        number = number.wrapping_mul(256).wrapping_add(u64::from(*byte));
    }
    number
}

/// The cookie and the number, where the reply grants the counter's lock.
fn grant_in(reply: Reply) -> Option<(u64, u64)>
    requires { ReplyFits reply }
    ensures { IfSome result (λ r. (0 < r.0) × (r.0 < 2 ^ 63)) }
{
    let Reply::Found { body, cookie, .. } = reply else {
        return None;
    };
    let cookie = cookie?;
    Some((cookie, number_in(&body)))
}

/// Gets the counter's lock, and answers its cookie and the number.
fn acquire<K: Keeper + Drop, R: Wait>(
    rt: &R,
    alloc: Global,
    store: &Store<K>,
    pass: &mut Pass<K>,
) -> Option<(u64, u64)>
    requires { IsPassOf store.now pass.old }
    ensures pass { IsPassOf store.now pass.new }
    ensures cookie { IfSome result (λ r. (0 < r.0) × (r.0 < 2 ^ 63)) }
{
    for _ in 0..ATTEMPTS {
        let request = on_key(alloc, b'a', Ask::Acquire).ok()?;
        let answer = answer(rt, store, pass, request);
        if let Some(grant) = grant_in(answer.reply) {
            return Some(grant);
        }
        yield_now();
    }
    None
}

/// Writes the number, under the lock of the cookie where one is named. After a fault it asks again.
fn set<K: Keeper + Drop, R: Wait>(
    rt: &R,
    alloc: Global,
    store: &Store<K>,
    pass: &mut Pass<K>,
    number: u64,
    cookie: Option<u64>,
) -> Option<()>
    requires pass { IsPassOf store.now pass.old }
    requires cookie { CookieFits cookie }
    ensures { IsPassOf store.now pass.new }
{
    for _ in 0..ATTEMPTS {
        let body = Bytes::copy(alloc, &number.to_le_bytes()).ok()?;
        let ask = Ask::Write {
            body,
            minutes: 20,
            fresh: false,
            cookie,
        };
        let request = on_key(alloc, b'a', ask).ok()?;
        match answer(rt, store, pass, request).reply {
            Reply::Done => return Some(()),
            Reply::KeeperFault => {}
            _ => return None,
        }
    }
    None
}

/// Adds one so many times, each time under the lock; each named write was answered `Done` once.
fn add_often<K: Keeper + Drop, R: Wait>(
    rt: &R,
    alloc: Global,
    store: &Store<K>,
    mut pass: Pass<K>,
) -> Option<Pass<K>>
    requires { IsPassOf store.now pass }
    ensures { IfSome result (IsPassOf store.now) }
{
    for _ in 0..ADDITIONS_EACH {
        let (cookie, number) = acquire(rt, alloc, store, &mut pass)?;
        set(
            rt,
            alloc,
            store,
            &mut pass,
            number.wrapping_add(1),
            Some(cookie),
        )?;
    }
    Some(pass)
}

/// Each pass adds, in a thread of its own.
fn all_add<K: Keeper + Drop + Send, R: Threads + Wait + Sync>(
    rt: &R,
    alloc: Global,
    store: &Store<K>,
    passes: Vec<Pass<K>>,
) -> Result<Vec<Option<Pass<K>>>, AllocError>
    requires { All (IsPassOf store.now) passes.items }
    ensures { IfOk result (λ v. All (λ r. IfSome r (IsPassOf store.now)) v.items) }
{
    map_vec(rt, passes, &|pass| add_often(rt, alloc, store, pass))
}

/// A pass for each thread, beside the one that was made already.
fn make_passes<K: Keeper + Drop, R>(
    rt: &R,
    alloc: Global,
    store: &Store<K>,
    roll: &mut Roll<K>,
) -> Result<Vec<Pass<K>>, NoMemory>
    requires roll { IsRollOf store.now roll.old }
    requires one { passes_of roll.old ≡ 1 }
    ensures roll { IfOk result (λ _. IsRollOf store.now roll.new) }
    ensures passes { IfOk result (λ v. All (IsPassOf store.now) v.items) }
{
    let mut passes = Vec::new(alloc);
    for _ in 0..THREADS {
        passes.push(store.pass(rt, alloc, roll)?)?;
    }
    Ok(passes)
}

/// Eight threads add to a counter that begins at 0, in a new store; all of them add as often as
/// they were to, and the counter is then the number of all additions.
fn count<K: Keeper + Drop + Send, R: Abort + Threads + Wait + Sync>(
    rt: &R,
    alloc: Global,
    opened: FreshStore<K>,
) -> Result<(), Fail>
    requires roll { IsRollOf opened.store opened.roll }
    requires no_pass { passes_of opened.roll ≡ 0 }
{
    let FreshStore { store, mut roll } = opened;
    let mut own = first_pass(rt, alloc, &store, &mut roll)?;
    set(rt, alloc, &store, &mut own, 0, None).ok_or("no counter")?;
    let passes = make_passes(rt, alloc, &store, &mut roll)?;
    let passes = all_add(rt, alloc, &store, passes)?;
    assert!(rt; passes.iter().all(|pass| pass.is_some()));
    let (_, number) = acquire(rt, alloc, &store, &mut own).ok_or("no counter")?;
    assert_eq!(rt; number, THREADS * ADDITIONS_EACH);
    Ok(())
}

#[test]
fn no_addition_is_lost(rt: HostRuntime) -> Result<(), Fail> {
    let alloc = rt.alloc();
    let opened = open(&rt, alloc, keepers(alloc, 8)?, 0)?;
    count(&rt, alloc, opened)
}

#[test]
fn no_addition_is_lost_where_calls_fail(rt: HostRuntime) -> Result<(), Fail> {
    let alloc = rt.alloc();
    let mut fails = Vec::new(alloc);
    for call in 1u64..1000 {
        fails.push(call * 7)?;
    }
    let keeper = FaultyKeeper::new(ListKeeper::new(alloc), fails);
    let opened = open(&rt, alloc, vec![in alloc; keeper]?, 0)?;
    count(&rt, alloc, opened)
}
