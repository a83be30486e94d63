//! A keeper that sets cookies aside.
ghost use Rattle.std.specs.Prelude.{◌≡◌, ◌≤◌, ◌<◌, ◌^◌, IfOk, IfSome};
ghost use Rattle.keeper.specs.Items.{StillTells};
ghost use Rattle.keeper.specs.KeeperCauses.{HasKeepCause};
ghost use Rattle.plain_desk.specs.Openings.{HasFreshCookies, cookies_of, opening_over};
ghost use Rattle.block_keeper.specs.Blocks.{IsBlock, KeepsFloor, TellsLeast};

use cookie_source::PlainCookies;
use keeper::{KeepError, Keeper};

/// A keeper that remembers, beside its items, the greatest cookie that was set aside: its floor. So
/// runs that come one after the other over the same items never draw a cookie twice.
pub trait BlockKeeper: Keeper {
    /// Sets the next cookies aside, 2^32 of them or fewer before the last there is, and answers
    /// them: none is below `at_least`, at most the floor, or at most the cookie of an item's lock.
    /// `None` where no such cookie is left. After `None` and after an error nothing has changed.
    fn set_aside(&mut self, at_least: u64) -> Result<Option<PlainCookies>, KeepError>
        requires some { 0 < at_least }
        requires in_range { at_least < 2 ^ 63 }
        ensures block { IfOk result (λ block. IfSome block (IsBlock at_least)) }
        ensures above { IfOk result (λ block. IfSome block (λ b. Self.floor self.old < b.next)) }
        ensures fresh { IfOk result (λ block.
            HasFreshCookies (opening_over ⟦<Self as Keeper>⟧ self.new (cookies_of block))) }
        ensures least { IfOk result
            (TellsLeast at_least (Self.floor self.old) (Self.told self.new)) }
        ensures floor { KeepsFloor (Self.floor self.old) (Self.floor self.new) result }
        ensures counted { IfOk result (λ block. Self.count self.new ≡ Self.count self.old) }
        ensures same { StillTells (Self.told self.old) (Self.told self.new) }
        ensures cause { HasKeepCause (Self.count self.old) (Self.count self.new) result };
}
