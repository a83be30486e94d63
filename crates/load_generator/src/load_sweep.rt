//! The sweep at the end of a load.
ghost use Rattle.std.specs.Prelude.{◌≡◌, ◌<◌, ◌^◌, ℕ, List};
ghost use Rattle.plain_desk.specs.DeskStands.{HasHistory};
ghost use Rattle.session_machine.specs.declared.entry.Entry.{Entry};
ghost use Rattle.session_machine.specs.History.{nothing};
ghost use Rattle.load_generator.specs.LoadSteps.{DeskSweeps};

use asp_base::LAST_MOMENT;
use keeper::Keeper;
use plain_desk::PlainDesk;
use shard_core::Swept;

/// Removes the items that have expired at the latest moment by at most `most` looks, and answers
/// how many were removed.
pub fn sweep<K: Keeper>(desk: &mut PlainDesk<K>, most: u64) -> u64
    requires { 0 < desk.old.cookies.next }
    ensures sweeps { (first_cookie : ℕ) (list : List Entry)
        → HasHistory ⟦<K as Keeper>⟧ first_cookie nothing 0 list desk.old
        → DeskSweeps ⟦<K as Keeper>⟧ first_cookie most list desk.new result }
    ensures floor { K.floor desk.new.keeper ≡ K.floor desk.old.keeper }
{
    let mut removed = 0;
    while removed < most {
        let Swept::Removed { .. } = desk.sweep_one(LAST_MOMENT) else {
            return removed;
        };
        removed += 1;
    }
    removed
}
