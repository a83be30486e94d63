//! A keeper over a list of pairs: the plain body that others are compared with.
ghost use Rattle.std.specs.Prelude.{◌≡◌, ℕ, [], Some, None, IfOk, IfSome, IsOk, IsSome, OnOk, OnErr};
ghost use Rattle.asp_messages.specs.Ranges.{KeyFits};
ghost use Rattle.session_machine.specs.Liveness.{ItemFits};
ghost use Rattle.keeper.specs.KeeperCauses.{HasKeepCause};
ghost use Rattle.keeper.specs.Due.{TellsDue};
ghost use Rattle.keeper.specs.Items.{Sets};
ghost use Rattle.keeper.specs.Pairs.{item_at};

use crate::pairs::{cut, get, put};
use crate::pairs_due::due;
use crate::{KeepError, Keeper};
use asp_base::Bytes;
use session_machine::Item;
use std::alloc::Global;
use std::marker::Model;

/// A keeper in memory, over a list of pairs of key and item. It counts no fault, but may want
/// memory.
/// Contracts see the list.
#[derive(Debug, Drop)]
pub struct ListKeeper {
    alloc: Global,
    pairs: Vec<(Bytes, Item)>,
}

impl Model for ListKeeper {
    ghost use Rattle.std.specs.Prelude.{List, ℕ};
    ghost use Rattle.session_machine.specs.declared.item.Item.{Item};
    ghost use Rattle.keeper.specs.Pairs.{IsMap};

    ghost Value = { List (List ℕ × Item) };

    ghost view = { λ k. k.pairs.items };

    ghost invariant = { λ k. IsMap k.pairs.items };
}

impl ListKeeper {
    /// An empty keeper. It takes no memory.
    pub fn new(alloc: Global) -> ListKeeper
        ensures { result ≡ [] }
    {
        ListKeeper {
            alloc,
            pairs: Vec::new(alloc),
        }
    }
}

impl Keeper for ListKeeper {
    ghost told = { λ pairs. Some (item_at pairs) };

    ghost floor = { λ _. 0 };

    ghost count = { λ _. 0 };

    ghost can_count = { λ n. n ≡ 0 };

    ghost use Rattle.std.specs.Prelude.{refl};

    ghost counts = { λ _. refl };

    // It takes no memory where the key has no item.
    fn get(&mut self, key: &Bytes) -> Result<Option<Item>, KeepError>
        requires { KeyFits key.now }
        ensures item { IfOk result (λ item. item ≡ item_at self.old key.now) }
        ensures fits { IfOk result (λ item. IfSome item ItemFits) }
        ensures absent { item_at self.old key.now ≡ None → IsOk result }
        ensures same { self.new ≡ self.old }
        ensures cause { HasKeepCause 0 0 result }
    {
        Ok(get(&self.pairs, key)?)
    }

    // It takes no memory where the key has an item.
    fn put(&mut self, key: &Bytes, item: Item) -> Result<(), KeepError>
        requires key { KeyFits key.now }
        requires item { ItemFits item }
        ensures ok { OnOk result (Sets (item_at self.old) (item_at self.new) key.now (Some item)) }
        ensures err { OnErr result (self.new ≡ self.old) }
        ensures there { IsSome (item_at self.old key.now) → IsOk result }
        ensures cause { HasKeepCause 0 0 result }
    {
        put(self.alloc, &mut self.pairs, key, item)?;
        Ok(())
    }

    // It takes no memory.
    fn cut(&mut self, key: &Bytes) -> Result<(), KeepError>
        requires { KeyFits key.now }
        ensures ok { IsOk result }
        ensures cut { Sets (item_at self.old) (item_at self.new) key.now None }
        ensures cause { HasKeepCause 0 0 result }
    {
        cut(&mut self.pairs, key);
        Ok(())
    }

    // It takes no memory where no item has expired.
    fn due(&mut self, t: u64) -> Result<Option<Bytes>, KeepError>
        ensures due { IfOk result (TellsDue (Some (item_at self.old)) t) }
        ensures fits { IfOk result (λ key. IfSome key KeyFits) }
        ensures none { TellsDue (Some (item_at self.old)) t None → IsOk result }
        ensures same { self.new ≡ self.old }
        ensures cause { HasKeepCause 0 0 result }
    {
        Ok(due(self.alloc, &self.pairs, t)?)
    }

    fn faults(&self) -> u64 {
        0
    }
}
