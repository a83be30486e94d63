//! What the tests ask and of which stores. Each call of a store that several tests make stands here
//! once, under as much of its contract as they need.
ghost use Rattle.std.specs.Prelude.{◌≡◌, ◌≤◌, ◌^◌, [], All, length, IfOk};
ghost use Rattle.asp_messages.specs.Ranges.{AskFits, ReplyFits, RequestFits};
ghost use Rattle.turnstile.specs.TurnRule.{end_of_places};
ghost use Rattle.state_store.specs.NewShards.{IsNewKeeper};
ghost use Rattle.state_store.specs.Passes.{first_place as store_first_place, passes_of, shards_of, IsPassOf, IsRollOf};

use asp_base::{Bytes, NoMemory, OpenGate};
use asp_messages::{Ask, Request};
use keeper::{Keeper, ListKeeper};
use state_store::{Answer, FreshStore, Pass, Roll, Store, SweepCount};
use std::alloc::Global;
use std::sync::Wait;

/// The last cookie of the protocol.
pub(crate) const LAST_COOKIE: u64 = 9_223_372_036_854_775_807;

/// A request on the key of this letter.
pub(crate) fn on_key(alloc: Global, letter: u8, ask: Ask) -> Result<Request, NoMemory>
    requires { AskFits ask }
    ensures { IfOk result RequestFits }
{
    let key = Bytes::copy(alloc, &[b'/', letter])?;
    Ok(Request { key, ask })
}

/// A write of `x` that lives for so many minutes.
pub(crate) fn write(alloc: Global, letter: u8, minutes: u64) -> Result<Request, NoMemory>
    requires { (1 ≤ minutes) × (minutes ≤ 525_600) }
    ensures { IfOk result RequestFits }
{
    let ask = Ask::Write {
        body: Bytes::copy(alloc, b"x")?,
        minutes,
        fresh: false,
        cookie: None,
    };
    on_key(alloc, letter, ask)
}

/// Keepers for so many shards.
pub(crate) fn keepers(alloc: Global, shards: u64) -> Result<Vec<ListKeeper>, NoMemory>
    ensures { IfOk result (λ v. (length v.items ≡ shards) × All (λ pairs. pairs ≡ []) v.items) }
{
    let mut keepers = Vec::new(alloc);
    for _ in 0..shards {
        keepers.push(ListKeeper::new(alloc))?;
    }
    Ok(keepers)
}

/// A new store over the keepers, which draws cookies from 1 on, with its roll.
pub(crate) fn open<K: Keeper + Drop, R>(
    rt: &R,
    alloc: Global,
    keepers: Vec<K>,
    first_place: u64,
) -> Result<FreshStore<K>, NoMemory>
    requires shards { (1 ≤ length keepers.items) × (length keepers.items ≤ 64) }
    requires keepers { All (IsNewKeeper K.told K.count) keepers.items }
    requires place { first_place ≤ end_of_places }
    ensures shards { IfOk result (λ f. shards_of f.store ≡ length keepers.items) }
    ensures place { IfOk result (λ f. store_first_place f.store ≡ first_place) }
    ensures roll { IfOk result (λ f. IsRollOf f.store f.roll) }
    ensures no_pass { IfOk result (λ f. passes_of f.roll ≡ 0) }
{
    Store::new(rt, alloc, keepers, 1, LAST_COOKIE, first_place)
}

/// The first pass of a store.
pub(crate) fn first_pass<K: Keeper + Drop, R>(
    rt: &R,
    alloc: Global,
    store: &Store<K>,
    roll: &mut Roll<K>,
) -> Result<Pass<K>, NoMemory>
    requires roll { IsRollOf store.now roll.old }
    requires no_pass { passes_of roll.old ≡ 0 }
    ensures roll { IsRollOf store.now roll.new }
    ensures made { IfOk result (λ _. passes_of roll.new ≡ 1) }
    ensures pass { IfOk result (IsPassOf store.now) }
{
    store.pass(rt, alloc, roll)
}

/// What the store answers at the moment 0.
pub(crate) fn answer<K: Keeper + Drop, R: Wait>(
    rt: &R,
    store: &Store<K>,
    pass: &mut Pass<K>,
    request: Request,
) -> Answer
    requires pass { IsPassOf store.now pass.old }
    requires request { RequestFits request }
    ensures pass { IsPassOf store.now pass.new }
    ensures fits { ReplyFits result.reply }
{
    store.ask(rt, pass, request, 0, &OpenGate)
}

/// What a sweep at the moment `t` removes, and how it ends.
pub(crate) fn sweep<K: Keeper + Drop, R: Wait>(
    rt: &R,
    store: &Store<K>,
    pass: &mut Pass<K>,
    t: u64,
) -> SweepCount
    requires pass { IsPassOf store.now pass.old }
    requires moment { t ≤ 2 ^ 62 }
    ensures { IsPassOf store.now pass.new }
{
    store.sweep(rt, pass, t, &OpenGate)
}
