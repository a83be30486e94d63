//! A keeper over a map in the order of its keys, with the set of the moments at which items expire.
ghost use Rattle.std.specs.Prelude.{◌≡◌, ℕ, [], Some, None, true, IfOk, IfSome, IsOk, OnOk, OnErr};
ghost use Rattle.std.specs.BTreeSet.{contains};
ghost use Rattle.asp_messages.specs.Ranges.{KeyFits};
ghost use Rattle.session_machine.specs.Liveness as liveness;
ghost use Rattle.keeper.specs.KeeperCauses.{HasKeepCause};
ghost use Rattle.keeper.specs.Due.{TellsDue};
ghost use Rattle.keeper.specs.Items.{Sets};
ghost use Rattle.keeper.specs.Ordered.{HoldsDues, IsKept, MovesDue, due_cmp, item_of};

use crate::{KeepError, Keeper};
use asp_base::{Bytes, NoMemory};
use session_machine::{Item, expiry};
use std::alloc::Global;
use std::collections::{BTreeMap, BTreeSet};
use std::marker::Model;

/// When the item of a key expires. Ordered by the moment, and then by the key.
#[derive(Debug, PartialEq, Eq, PartialOrd, Ord, Drop)]
pub struct Due {
    /// The moment from which on the item counts as absent, in milliseconds.
    pub expiry: u64,
    /// The key.
    pub key: Bytes,
}

/// A keeper in memory whose calls take a time that grows with the logarithm of the count of keys.
/// It counts no fault, but may want memory. Contracts see its pairs of key and item, in the order
/// of the keys.
#[derive(Debug, Drop)]
pub struct MapKeeper {
    items: BTreeMap<Bytes, Item>,
    dues: BTreeSet<Due>,
}

impl Model for MapKeeper {
    ghost use Rattle.std.specs.Prelude.{List, ℕ};
    ghost use Rattle.session_machine.specs.declared.item.Item.{Item};
    ghost use Rattle.keeper.specs.Ordered.{IsKept};

    ghost Value = { List (List ℕ × Item) };

    ghost view = { λ k. k.items.entries };

    ghost invariant = { λ k. IsKept k.items.entries k.dues };
}

impl MapKeeper {
    /// An empty keeper. It takes no memory.
    pub fn new(alloc: Global) -> MapKeeper
        ensures { result ≡ [] }
    {
        MapKeeper {
            items: BTreeMap::new(alloc),
            dues: BTreeSet::new(alloc),
        }
    }

    /// The moment and the key of each item, and nothing else.
    pub fn dues(&self) -> &BTreeSet<Due>
        ensures { HoldsDues (item_of self.now) result.now }
    {
        &self.dues
    }
}

impl Keeper for MapKeeper {
    ghost told = { λ entries. Some (item_of entries) };

    ghost floor = { λ _. 0 };

    ghost count = { λ _. 0 };

    ghost can_count = { λ n. n ≡ 0 };

    ghost use Rattle.std.specs.Prelude.{refl};

    ghost counts = { λ _. refl };

    // It takes no memory where the key has no item.
    fn get(&mut self, key: &Bytes) -> Result<Option<Item>, KeepError>
        requires { KeyFits key.now }
        ensures item { IfOk result (λ item. item ≡ item_of self.old key.now) }
        ensures fits { IfOk result (λ item. IfSome item liveness.ItemFits) }
        ensures absent { item_of self.old key.now ≡ None → IsOk result }
        ensures same { self.new ≡ self.old }
        ensures cause { HasKeepCause 0 0 result }
    {
        match self.items.get(key) {
            Some(item) => Ok(Some(item.share()?)),
            None => Ok(None),
        }
    }

    // Where the key has an item, one search finds it, and it is replaced in its place.
    fn put(&mut self, key: &Bytes, item: Item) -> Result<(), KeepError>
        requires key { KeyFits key.now }
        requires item { liveness.ItemFits item }
        ensures ok { OnOk result (Sets (item_of self.old) (item_of self.new) key.now (Some item)) }
        ensures err { OnErr result (self.new ≡ self.old) }
        ensures cause { HasKeepCause 0 0 result }
    {
        let item = item.into_shared()?;
        match self.items.get_mut(key) {
            Some(there) => {
                reschedule(&mut self.dues, key, expiry(there), expiry(&item))?;
                *there = item;
            }
            None => add(&mut self.items, &mut self.dues, key, item)?,
        }
        Ok(())
    }

    // It takes no memory, and copies nothing.
    fn cut(&mut self, key: &Bytes) -> Result<(), KeepError>
        requires { KeyFits key.now }
        ensures ok { IsOk result }
        ensures cut { Sets (item_of self.old) (item_of self.new) key.now None }
        ensures cause { HasKeepCause 0 0 result }
    {
        let Some((own, item)) = self.items.remove_entry(key) else {
            return Ok(());
        };
        let due = Due {
            expiry: expiry(&item),
            key: own,
        };
        self.dues.remove(&due);
        Ok(())
    }

    // Only the least of the set is looked at. It takes no memory where no item has expired.
    fn due(&mut self, t: u64) -> Result<Option<Bytes>, KeepError>
        ensures due { IfOk result (TellsDue (Some (item_of self.old)) t) }
        ensures fits { IfOk result (λ key. IfSome key KeyFits) }
        ensures none { TellsDue (Some (item_of self.old)) t None → IsOk result }
        ensures same { self.new ≡ self.old }
        ensures cause { HasKeepCause 0 0 result }
    {
        let Some(least) = self.dues.first() else {
            return Ok(None);
        };
        if least.expiry > t {
            return Ok(None);
        }
        Ok(Some(least.key.share()?))
    }

    fn faults(&self) -> u64 {
        0
    }
}

/// Gives a key that has no item this one. What the map has taken is taken back where the set has no
/// memory.
fn add(
    items: &mut BTreeMap<Bytes, Item>,
    dues: &mut BTreeSet<Due>,
    key: &Bytes,
    item: Item,
) -> Result<(), NoMemory>
    requires key { KeyFits key.now }
    requires item { liveness.ItemFits item }
    requires kept { IsKept items.old.entries dues.old }
    requires absent { item_of items.old.entries key.now ≡ None }
    ensures ok { OnOk result
        (Sets (item_of items.old.entries) (item_of items.new.entries) key.now (Some item)) }
    ensures err { OnErr result (items.new.entries ≡ items.old.entries) }
    ensures kept { IsKept items.new.entries dues.new }
{
    let own = key.share()?;
    let due = Due {
        expiry: expiry(&item),
        key: own.share()?,
    };
    items.insert(own, item)?;
    if let Err(_) = dues.insert(due) {
        items.remove(key);
        return Err(NoMemory);
    }
    Ok(())
}

/// Moves the pair of the key from one moment to another. The new pair goes in before the old one is
/// taken out: where there is no memory for it nothing has changed.
fn reschedule(dues: &mut BTreeSet<Due>, key: &Bytes, from: u64, to: u64) -> Result<(), NoMemory>
    requires { contains due_cmp dues.old (record { expiry = from; key = key.now }) ≡ true }
    ensures ok { OnOk result (MovesDue dues.old dues.new key.now from to) }
    ensures err { OnErr result (dues.new.keys ≡ dues.old.keys) }
{
    if from == to {
        return Ok(());
    }
    let own = key.share()?;
    let old = Due {
        expiry: from,
        key: own.share()?,
    };
    let new = Due {
        expiry: to,
        key: own,
    };
    dues.insert(new)?;
    dues.remove(&old);
    Ok(())
}
