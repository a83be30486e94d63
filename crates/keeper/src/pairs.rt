//! A list of pairs of key and item, as a map.
ghost use Rattle.std.specs.Prelude.{◌≡◌, Some, None, IfOk, IfSome, IsOk, IsSome, OnOk, OnErr, MatchOption, option_copied};
ghost use Rattle.keeper.specs.Items.{Sets};
ghost use Rattle.keeper.specs.Pairs.{IsMap, IsPlaceOf, item_at};
ghost use Rattle.asp_messages.specs.Ranges.{KeyFits};
ghost use Rattle.session_machine.specs.Liveness.{ItemFits};

use asp_base::{Bytes, NoMemory};
use session_machine::Item;
use std::alloc::Global;

/// The item of the key.
fn find<'a>(pairs: &'a [(Bytes, Item)], key: &Bytes) -> Option<&'a Item>
    ensures { option_copied result ≡ item_at pairs.now key.now }
{
    for (other, item) in pairs {
        if *key == *other {
            return Some(item);
        }
    }
    None
}

/// The item of the key, which stays where it is.
pub fn get(pairs: &[(Bytes, Item)], key: &Bytes) -> Result<Option<Item>, NoMemory>
    requires { IsMap pairs.now }
    ensures item { IfOk result (λ item. item ≡ item_at pairs.now key.now) }
    ensures fits { IfOk result (λ item. IfSome item ItemFits) }
    ensures absent { item_at pairs.now key.now ≡ None → IsOk result }
{
    match find(pairs, key) {
        Some(item) => Ok(Some(item.share()?)),
        None => Ok(None),
    }
}

/// The place of the first pair of the key.
fn place(pairs: &[(Bytes, Item)], key: &Bytes) -> Option<usize>
    ensures { MatchOption result (item_at pairs.now key.now ≡ None) (IsPlaceOf pairs.now key.now) }
{
    for (i, (other, _)) in pairs.iter().enumerate() {
        if *key == *other {
            return Some(i);
        }
    }
    None
}

/// Gives the key this item: in the place of the old one, or with a copy of the key at the end.
pub fn put(
    alloc: Global,
    pairs: &mut Vec<(Bytes, Item)>,
    key: &Bytes,
    item: Item,
) -> Result<(), NoMemory>
    requires map { IsMap pairs.old.items }
    requires key { KeyFits key.now }
    requires item { ItemFits item }
    ensures ok { OnOk result
        (Sets (item_at pairs.old.items) (item_at pairs.new.items) key.now (Some item)) }
    ensures err { OnErr result (pairs.new.items ≡ pairs.old.items) }
    ensures there { IsSome (item_at pairs.old.items key.now) → IsOk result }
    ensures map { IsMap pairs.new.items }
{
    match place(pairs, key) {
        Some(i) => {
            pairs[i].1 = item;
            Ok(())
        }
        None => {
            let key = Bytes::copy(alloc, key.as_slice())?;
            pairs.push((key, item))?;
            Ok(())
        }
    }
}

/// Removes the pair of the key, where there is one.
pub fn cut(pairs: &mut Vec<(Bytes, Item)>, key: &Bytes)
    requires { IsMap pairs.old.items }
    ensures cut { Sets (item_at pairs.old.items) (item_at pairs.new.items) key.now None }
    ensures map { IsMap pairs.new.items }
{
    pairs.retain(|pair| pair.0 != *key);
}
