//! Which pair of a list is to be removed next.
ghost use Rattle.std.specs.Prelude.{◌≡◌, ◌↔◌, ◌++◌, [], ◌∷◌, ℕ, List, IfOk, IfSome, IsOk, IsTrue, Some, None, option_copied};
ghost use Rattle.asp_messages.specs.Ranges.{KeyFits};
ghost use Rattle.session_machine.specs.declared.item.Item.{Item};
ghost use Rattle.session_machine.specs.Liveness as liveness;
ghost use Rattle.keeper.specs.Due.{ComesBefore, TellsDue};
ghost use Rattle.keeper.specs.Pairs.{IsFirstOf, IsMap, item_at};

use asp_base::{Bytes, NoMemory};
use session_machine::{Item, expiry, live};
use std::alloc::Global;

/// Whether the one expires before the other, or at the same moment with no greater key.
fn comes_before(pair: &(Bytes, Item), other: &(Bytes, Item)) -> bool
    requires item { liveness.ItemFits pair.now.1 }
    requires other { liveness.ItemFits other.now.1 }
    ensures { IsTrue result ↔ ComesBefore (liveness.expiry pair.now.1) pair.now.0
        (liveness.expiry other.now.1) other.now.0 }
{
    let expires = expiry(&pair.1);
    let later = expiry(&other.1);
    expires < later || (expires == later && pair.0.cmp(&other.0).is_le())
}

/// The one of both that is to be removed next at the moment `t`, where one has expired; `soonest`
/// has expired already.
fn sooner<'a>(
    soonest: Option<&'a (Bytes, Item)>,
    pair: &'a (Bytes, Item),
    t: u64,
) -> Option<&'a (Bytes, Item)>
    requires pair { liveness.ItemFits pair.now.1 }
    requires soonest { IfSome (option_copied soonest) (λ best. liveness.ItemFits best.1) }
    ensures { (before : List (List ℕ × Item)) → IsFirstOf before t (option_copied soonest.entry)
        → IsFirstOf (before ++ pair.now ∷ []) t (option_copied result) }
{
    if live(&pair.1, t) {
        return soonest;
    }
    match soonest {
        Some(best) if comes_before(best, pair) => soonest,
        _ => Some(pair),
    }
}

/// The pair whose item has expired at the moment `t` and expired first, the least key among those
/// of one moment.
fn first_due(pairs: &[(Bytes, Item)], t: u64) -> Option<&(Bytes, Item)>
    requires { IsMap pairs.now }
    ensures { IsFirstOf pairs.now t (option_copied result) }
{
    let mut soonest = None;
    for pair in pairs {
        soonest = sooner(soonest, pair, t);
    }
    soonest
}

/// A copy of the key of the item that has expired at the moment `t` and expired first, the least
/// key among those of one moment.
pub fn due(alloc: Global, pairs: &[(Bytes, Item)], t: u64) -> Result<Option<Bytes>, NoMemory>
    requires { IsMap pairs.now }
    ensures due { IfOk result (TellsDue (Some (item_at pairs.now)) t) }
    ensures fits { IfOk result (λ key. IfSome key KeyFits) }
    ensures none { TellsDue (Some (item_at pairs.now)) t None → IsOk result }
{
    match first_due(pairs, t) {
        Some((key, _)) => Ok(Some(Bytes::copy(alloc, key.as_slice())?)),
        None => Ok(None),
    }
}
