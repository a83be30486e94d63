//! What passes know of the histories of their shards.
ghost use Rattle.std.specs.Prelude.{◌≡◌, ◌≤◌, ℕ, [], Some, length, IfOk};
ghost use Rattle.asp_messages.specs.Ranges.{RequestFits};
ghost use Rattle.state_store.specs.Passes.{IsPassOf, first_place, view_for, view_in};

use crate::given::{LAST_COOKIE, answer, first_pass, keepers, on_key, open, sweep, write};
use asp_base::{Bytes, NoMemory, OpenGate};
use asp_messages::{Ask, Reply, Request};
use keeper::ListKeeper;
use state_store::{Answer, FreshStore, Pass, Store, SweepCount, SweepEnd};
use std::alloc::Global;
use std::process::Abort;
use std::sync::Wait;
use std::test::Fail;

fn done(place: u64) -> Answer {
    Answer {
        reply: Reply::Done,
        place: Some(place),
    }
}

/// What finds the item of `write` that lives for 20 minutes, at this place.
fn found(alloc: Global, cookie: Option<u64>, place: u64) -> Result<Answer, NoMemory> {
    let reply = Reply::Found {
        body: Bytes::copy(alloc, b"x")?,
        minutes: 20,
        cookie,
        first: false,
    };
    Ok(Answer {
        reply,
        place: Some(place),
    })
}

/// Each of two new passes asks once on one key, and they meet. Where the places are 0 and 1, both
/// know of both entries, and each of its own call.
fn ask_and_meet<R: Wait>(
    rt: &R,
    store: &Store<ListKeeper>,
    a: &mut Pass<ListKeeper>,
    b: &mut Pass<ListKeeper>,
    first: Request,
    second: Request,
) -> (Answer, Answer)
    requires passes { IsPassOf store.now a.old × IsPassOf store.now b.old }
    requires a_new { (shard : ℕ)
        → ((view_in a.old shard).front ≡ []) × ((view_in a.old shard).own ≡ []) }
    requires b_new { (shard : ℕ)
        → ((view_in b.old shard).front ≡ []) × ((view_in b.old shard).own ≡ []) }
    requires place { first_place store.now ≡ 0 }
    requires requests { RequestFits first × RequestFits second × (second.key ≡ first.key) }
    ensures passes { IsPassOf store.now a.new × IsPassOf store.now b.new }
    ensures fronts { result.0.place ≡ Some 0 → result.1.place ≡ Some 1
        → (length (view_for store.now a.new first.key).front ≡ 2)
        × (length (view_for store.now b.new first.key).front ≡ 2) }
    ensures own { result.0.place ≡ Some 0 → result.1.place ≡ Some 1
        → (length (view_for store.now a.new first.key).own ≡ 1)
        × (length (view_for store.now b.new first.key).own ≡ 1) }
{
    let written = store.ask(rt, a, first, 0, &OpenGate);
    let read = store.ask(rt, b, second, 0, &OpenGate);
    store.meet(rt, a, b);
    (written, read)
}

/// A read of the key of the request.
fn read_of(alloc: Global, request: &Request) -> Result<Request, NoMemory>
    requires { RequestFits request.now }
    ensures { IfOk result (λ read. RequestFits read × (read.key ≡ request.now.key)) }
{
    let key = Bytes::copy(alloc, request.key.as_slice())?;
    let ask = Ask::Read;
    Ok(Request { key, ask })
}

/// One pass writes and another reads what was written, in a new store of so many shards.
fn two_share<R: Abort + Wait>(rt: &R, alloc: Global, shards: u64) -> Result<(), Fail>
    requires { (1 ≤ shards) × (shards ≤ 64) }
{
    let opened = open(rt, alloc, keepers(alloc, shards)?, 0)?;
    let FreshStore { store, mut roll } = opened;
    let mut a = store.pass(rt, alloc, &mut roll)?;
    let mut b = store.pass(rt, alloc, &mut roll)?;
    assert_eq!(rt; (a.caller(), b.caller()), (0, 1));
    let first = write(alloc, b'a', 20)?;
    let second = read_of(alloc, &first)?;
    let (written, read) = ask_and_meet(rt, &store, &mut a, &mut b, first, second);
    assert_eq!(rt; written, done(0));
    assert_eq!(rt; read, found(alloc, None, 1)?);
    store.seal(rt, roll, &mut a);
    Ok(())
}

#[test]
fn two_passes_share_a_history(rt: HostRuntime) -> Result<(), Fail> {
    two_share(&rt, rt.alloc(), 1)?;
    two_share(&rt, rt.alloc(), 8)
}

#[test]
fn the_last_place_is_given_once(rt: HostRuntime) -> Result<(), Fail> {
    let alloc = rt.alloc();
    let last_place = 9_223_372_036_854_775_806;
    let opened = open(&rt, alloc, keepers(alloc, 1)?, last_place)?;
    let FreshStore { store, mut roll } = opened;
    let store = &store;
    let mut pass = first_pass(&rt, alloc, store, &mut roll)?;
    let out = Answer {
        reply: Reply::PlacesOut,
        place: None,
    };
    let first = write(alloc, b'a', 20)?;
    assert_eq!(rt; answer(&rt, store, &mut pass, first), done(last_place));
    let second = write(alloc, b'a', 20)?;
    assert_eq!(rt; answer(&rt, store, &mut pass, second), out);
    let swept = SweepCount {
        removed: 0,
        end: SweepEnd::PlacesOut,
    };
    assert_eq!(rt; sweep(&rt, store, &mut pass, 1_200_000), swept);
    Ok(())
}

#[test]
fn shards_draw_from_one_source(rt: HostRuntime) -> Result<(), Fail> {
    let alloc = rt.alloc();
    let opened = open(&rt, alloc, keepers(alloc, 8)?, 0)?;
    let FreshStore { store, mut roll } = opened;
    let store = &store;
    let mut pass = first_pass(&rt, alloc, store, &mut roll)?;
    let first = write(alloc, b'b', 20)?;
    assert_eq!(rt; answer(&rt, store, &mut pass, first), done(0));
    let second = write(alloc, b'd', 20)?;
    assert_eq!(rt; answer(&rt, store, &mut pass, second), done(0));
    let third = on_key(alloc, b'b', Ask::Acquire)?;
    let one = found(alloc, Some(1), 1)?;
    assert_eq!(rt; answer(&rt, store, &mut pass, third), one);
    let fourth = on_key(alloc, b'd', Ask::Acquire)?;
    let two = found(alloc, Some(2), 1)?;
    assert_eq!(rt; answer(&rt, store, &mut pass, fourth), two);
    Ok(())
}

#[test]
fn the_last_cookie_of_a_store_is_granted_once(rt: HostRuntime) -> Result<(), Fail> {
    let alloc = rt.alloc();
    let opened = Store::new(&rt, alloc, keepers(alloc, 8)?, LAST_COOKIE, LAST_COOKIE, 0)?;
    let FreshStore { store, mut roll } = opened;
    let store = &store;
    let mut pass = first_pass(&rt, alloc, store, &mut roll)?;
    answer(&rt, store, &mut pass, write(alloc, b'b', 20)?);
    answer(&rt, store, &mut pass, write(alloc, b'd', 20)?);
    let third = on_key(alloc, b'b', Ask::Acquire)?;
    let last = found(alloc, Some(LAST_COOKIE), 1)?;
    assert_eq!(rt; answer(&rt, store, &mut pass, third), last);
    let none_left = Answer {
        reply: Reply::CookiesOut,
        place: Some(1),
    };
    let fourth = on_key(alloc, b'd', Ask::Acquire)?;
    assert_eq!(rt; answer(&rt, store, &mut pass, fourth), none_left);
    let fifth = on_key(alloc, b'd', Ask::Read)?;
    let free = found(alloc, None, 2)?;
    assert_eq!(rt; answer(&rt, store, &mut pass, fifth), free);
    Ok(())
}
