//! Rows are written, replaced, found in order, and removed.
ghost use Rattle.std.specs.Prelude.{IfOk};
ghost use Rattle.session_machine.specs.Liveness.{ItemFits};

use crate::keepers::{in_memory, key};
use asp_base::{Bytes, NoMemory};
use keeper::{KeepError, Keeper};
use session_machine::{Hold, Item};
use sqlite::MemStore;
use sqlite_keeper::SqliteKeeper;
use std::alloc::Global;
use std::test::Fail;

/// A call, named by the letter of its key, and what it is to give.
#[derive(Clone, Copy, Debug)]
enum Step {
    /// This content is put, to live so many minutes.
    Put(u8, u8, u64),
    /// The key's item is removed.
    Cut(u8),
    /// The key has this content and these minutes.
    Has(u8, u8, u64),
    /// The key has no item.
    Lacks(u8),
    /// This key is due at the moment.
    Due(u64, u8),
    /// No key is due at the moment.
    NoneDue(u64),
}

/// An item that is held since the last moment under the greatest cookie, and was touched at 0.
fn item(alloc: Global, content: u8, minutes: u64) -> Result<Item, NoMemory>
    ensures { IfOk result ItemFits }
{
    Ok(Item {
        body: Bytes::copy(alloc, &[content, 0, 255])?,
        minutes: minutes.clamp(1, 525_600),
        fresh: true,
        holder: Some(Hold {
            cookie: 9_223_372_036_854_775_807,
            since: 1 << 62,
        }),
        touched: 0,
        ends: (1 << 63) - 1,
    })
}

fn does(alloc: Global, keeper: &mut SqliteKeeper<MemStore>, step: Step) -> Result<bool, KeepError> {
    match step {
        Step::Put(letter, content, minutes) => {
            let item = item(alloc, content, minutes)?;
            keeper.put(&key(alloc, letter)?, item)?;
            Ok(true)
        }
        Step::Cut(letter) => {
            keeper.cut(&key(alloc, letter)?)?;
            Ok(true)
        }
        Step::Has(letter, content, minutes) => {
            let found = keeper.get(&key(alloc, letter)?)?;
            Ok(found == Some(item(alloc, content, minutes)?))
        }
        Step::Lacks(letter) => Ok(keeper.get(&key(alloc, letter)?)?.is_none()),
        Step::Due(t, letter) => Ok(keeper.due(t)? == Some(key(alloc, letter)?)),
        Step::NoneDue(t) => Ok(keeper.due(t)?.is_none()),
    }
}

const STEPS: [Step; 20] = [
    Step::Lacks(b'a'),
    Step::NoneDue(u64::MAX),
    Step::Put(b'b', b'x', 1),
    Step::Put(b'a', b'z', 1),
    Step::Has(b'a', b'z', 1),
    Step::Has(b'b', b'x', 1),
    Step::NoneDue(59_999),
    Step::Due(60_000, b'a'),
    Step::Due(u64::MAX, b'a'),
    // A put in the place of a row moves its expiry.
    Step::Put(b'a', b'y', 2),
    Step::Has(b'a', b'y', 2),
    Step::Due(60_000, b'b'),
    Step::Cut(b'b'),
    Step::Lacks(b'b'),
    Step::NoneDue(119_999),
    Step::Due(120_000, b'a'),
    Step::Cut(b'b'),
    Step::Cut(b'a'),
    Step::Lacks(b'a'),
    Step::NoneDue(u64::MAX),
];

#[test]
fn rows_are_replaced_and_found_in_order(rt: HostRuntime) -> Result<(), Fail> {
    let alloc = rt.alloc();
    let mut keeper = in_memory(alloc)?;
    for step in STEPS {
        assert!(rt; does(alloc, &mut keeper, step)?, "at {step:?}");
    }
    assert_eq!(rt; keeper.faults(), 0);
    Ok(())
}
