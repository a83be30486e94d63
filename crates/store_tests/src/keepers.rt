//! Each call at its worked values, through the trait at each keeper.
ghost use Rattle.std.specs.Prelude.{◌≡◌, IfOk};
ghost use Rattle.asp_messages.specs.Ranges.{KeyFits};
ghost use Rattle.session_machine.specs.Liveness.{ItemFits};
ghost use Rattle.keeper.specs.Faulty.{all_faults};
ghost use Rattle.keeper.specs.Items.{IsEmptyTold};

use asp_base::{Bytes, NoMemory};
use keeper::{FaultyKeeper, KeepError, Keeper, ListKeeper, MapKeeper};
use session_machine::Item;
use std::alloc::{AllocError, Global};
use std::process::Abort;
use std::test::Fail;

/// A call, with the letter of its key, one byte of content and the moment of the touch. `NONE`
/// stands for no key or no item.
#[derive(Clone, Copy)]
enum Step {
    Put(u8, u8, u32),
    Cut(u8),
    Has(u8, u8),
    Due(u64, u8),
    Faults(u64),
}

const NONE: u8 = b'-';

fn key(alloc: Global, letter: u8) -> Result<Bytes, NoMemory>
    ensures { IfOk result KeyFits }
{
    Bytes::copy(alloc, &[b'/', letter])
}

/// An item of one minute.
fn item(alloc: Global, content: u8, touched: u32) -> Result<Item, NoMemory>
    ensures { IfOk result ItemFits }
{
    Ok(Item {
        body: Bytes::copy(alloc, &[content])?,
        minutes: 1,
        fresh: false,
        holder: None,
        touched: u64::from(touched),
        ends: (1 << 63) - 1,
    })
}

fn put<K: Keeper>(
    alloc: Global,
    keeper: &mut K,
    letter: u8,
    content: u8,
    touched: u32,
) -> Result<bool, KeepError> {
    let key = key(alloc, letter)?;
    let item = item(alloc, content, touched)?;
    keeper.put(&key, item)?;
    Ok(true)
}

fn cut<K: Keeper>(alloc: Global, keeper: &mut K, letter: u8) -> Result<bool, KeepError> {
    keeper.cut(&key(alloc, letter)?)?;
    Ok(true)
}

fn has<K: Keeper>(
    alloc: Global,
    keeper: &mut K,
    letter: u8,
    content: u8,
) -> Result<bool, KeepError> {
    match keeper.get(&key(alloc, letter)?)? {
        Some(item) => Ok(item.body.as_slice() == [content].as_slice()),
        None => Ok(content == NONE),
    }
}

fn is_due<K: Keeper>(keeper: &mut K, t: u64, letter: u8) -> Result<bool, KeepError> {
    match keeper.due(t)? {
        Some(found) => Ok(found.as_slice() == [b'/', letter].as_slice()),
        None => Ok(letter == NONE),
    }
}

/// Whether the call answers so.
fn does<K: Keeper>(alloc: Global, keeper: &mut K, step: Step) -> Result<bool, KeepError> {
    match step {
        Step::Put(letter, content, touched) => put(alloc, keeper, letter, content, touched),
        Step::Cut(letter) => cut(alloc, keeper, letter),
        Step::Has(letter, content) => has(alloc, keeper, letter, content),
        Step::Due(t, letter) => is_due(keeper, t, letter),
        Step::Faults(count) => Ok(keeper.faults() == count),
    }
}

// The conditions are those under which a run takes a keeper.
fn walk<K: Keeper + Drop>(
    rt: &impl Abort,
    alloc: Global,
    mut keeper: K,
    steps: &[(Step, Result<bool, KeepError>)],
)
    requires count { K.count keeper ≡ 0 }
    requires empty { IsEmptyTold (K.told keeper) }
{
    for (step, want) in steps {
        let answer = does(alloc, &mut keeper, *step);
        assert!(rt; answer == *want);
    }
}

const IN_ORDER: [(Step, Result<bool, KeepError>); 14] = [
    (Step::Due(60_000, NONE), Ok(true)),
    (Step::Put(b'b', b'x', 0), Ok(true)),
    (Step::Put(b'a', b'z', 0), Ok(true)),
    (Step::Put(b'a', b'y', 0), Ok(true)),
    (Step::Has(b'a', b'y'), Ok(true)),
    (Step::Has(b'b', b'x'), Ok(true)),
    (Step::Due(59_999, NONE), Ok(true)),
    (Step::Due(60_000, b'a'), Ok(true)),
    (Step::Cut(b'a'), Ok(true)),
    (Step::Has(b'a', NONE), Ok(true)),
    (Step::Due(60_000, b'b'), Ok(true)),
    (Step::Cut(b'b'), Ok(true)),
    (Step::Due(60_000, NONE), Ok(true)),
    (Step::Faults(0), Ok(true)),
];

// A touch moves an item behind those that were touched before it: a set ordered by the keys first,
// or whose greatest is taken, has `a` at its end where `b` is due.
const TOUCHED: [(Step, Result<bool, KeepError>); 13] = [
    (Step::Put(b'a', b'x', 0), Ok(true)),
    (Step::Put(b'c', b'z', 1), Ok(true)),
    (Step::Put(b'b', b'y', 1), Ok(true)),
    (Step::Due(60_000, b'a'), Ok(true)),
    (Step::Put(b'a', b'x', 5), Ok(true)),
    (Step::Due(60_000, NONE), Ok(true)),
    (Step::Due(60_001, b'b'), Ok(true)),
    (Step::Cut(b'b'), Ok(true)),
    (Step::Due(60_005, b'c'), Ok(true)),
    (Step::Put(b'c', b'w', 9), Ok(true)),
    (Step::Has(b'c', b'w'), Ok(true)),
    (Step::Due(60_009, b'a'), Ok(true)),
    (Step::Has(b'a', b'x'), Ok(true)),
];

#[test]
fn items_expire_in_order(rt: HostRuntime) {
    let alloc = rt.alloc();
    for steps in [IN_ORDER.as_slice(), TOUCHED.as_slice()] {
        walk(&rt, alloc, ListKeeper::new(alloc), steps);
        walk(&rt, alloc, MapKeeper::new(alloc), steps);
        let keeper = FaultyKeeper::new(MapKeeper::new(alloc), Vec::new(alloc));
        walk(&rt, alloc, keeper, steps);
    }
}

// Calls 1, 2 and 7 are listed, and call 4 of those that reach the inner keeper.
const FAILING: [(Step, Result<bool, KeepError>); 11] = [
    (Step::Put(b'a', b'x', 0), Ok(true)),
    (Step::Put(b'a', b'y', 0), Err(KeepError::Fault)),
    (Step::Cut(b'a'), Err(KeepError::Fault)),
    (Step::Has(b'a', b'x'), Ok(true)),
    (Step::Faults(2), Ok(true)),
    (Step::Due(60_000, b'a'), Ok(true)),
    (Step::Cut(b'a'), Ok(true)),
    (Step::Due(60_000, NONE), Err(KeepError::Fault)),
    (Step::Has(b'a', NONE), Err(KeepError::Fault)),
    (Step::Faults(4), Ok(true)),
    (Step::Has(b'a', NONE), Ok(true)),
];

type Twice<K> = FaultyKeeper<FaultyKeeper<K>>;

/// A keeper that fails calls 1, 2 and 7, over one that fails call 4 of those that reach it.
fn failing<K: Keeper + Drop>(alloc: Global, keeper: K) -> Result<Twice<K>, AllocError>
    requires count { K.count keeper ≡ 0 }
    requires empty { IsEmptyTold (K.told keeper) }
    ensures count { IfOk result (λ k.
        all_faults k.faults (all_faults k.inner.faults (K.count k.inner.inner)) ≡ 0) }
    ensures empty { IfOk result (λ k. IsEmptyTold (K.told k.inner.inner)) }
{
    let inner = FaultyKeeper::new(keeper, vec![in alloc; 4]?);
    Ok(FaultyKeeper::new(inner, vec![in alloc; 1, 2, 7]?))
}

#[test]
fn listed_calls_fail_and_change_nothing(rt: HostRuntime) -> Result<(), Fail> {
    let alloc = rt.alloc();
    walk(
        &rt,
        alloc,
        failing(alloc, ListKeeper::new(alloc))?,
        &FAILING,
    );
    walk(&rt, alloc, failing(alloc, MapKeeper::new(alloc))?, &FAILING);
    Ok(())
}

fn crosses<T: Send + Sync + Drop>(_value: T) {}

#[test]
fn the_set_of_expiries_is_that_of_the_items(rt: HostRuntime) -> Result<(), Fail> {
    let alloc = rt.alloc();
    let mut keeper = MapKeeper::new(alloc);
    for (letter, touched) in [(b'a', 0), (b'b', 1), (b'a', 2)] {
        put(alloc, &mut keeper, letter, b'x', touched)?;
    }
    assert_eq!(rt; keeper.dues().len(), 2);
    cut(alloc, &mut keeper, b'b')?;
    assert_eq!(rt; keeper.dues().len(), 1);
    let first = keeper.dues().first();
    assert!(rt; first.is_some_and(|due| due.expiry == 60_002));
    crosses(keeper);
    Ok(())
}
