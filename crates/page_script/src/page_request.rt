//! A request of a page, answered by the desk that all pages share.
ghost use Rattle.std.specs.Prelude.{◌≡◌, ◌≤◌, ◌^◌, ℕ, List, [], ◌∷◌, ◌++◌};
ghost use Rattle.asp_messages.specs.Ranges.{RequestFits, ReplyFits};
ghost use Rattle.page_script.specs.World.{WorldTurn};
ghost use Rattle.plain_desk.specs.Openings.{NeverBegins, Opening};
ghost use Rattle.page_script.specs.ScriptStands.{HasTurns, turn_at};

use asp_messages::{Reply, Request};
use keeper::Keeper;
use plain_desk::PlainDesk;

/// Answers a request at the moment `t`, in milliseconds: behind the turns that the desk stands for,
/// that of this request makes turns that it stands for.
pub fn answer<K: Keeper>(desk: &mut PlainDesk<K>, request: Request, t: u64) -> Reply
    requires moment { t ≤ 2 ^ 62 }
    requires request { RequestFits request }
    ensures answers { (number : ℕ) (opening : Opening) (turns : List WorldTurn)
        → HasTurns ⟦<K as Keeper>⟧ desk.old opening turns
        → HasTurns ⟦<K as Keeper>⟧ desk.new opening
        (turns ++ turn_at number t opening turns (record {
          request = request;
          reply = result;
          faults = K.count desk.new.keeper;
        }) ∷ []) }
    ensures fits { ReplyFits result }
    ensures floor { K.floor desk.new.keeper ≡ K.floor desk.old.keeper }
    ensures tells { NeverBegins (K.told desk.old.keeper) (K.told desk.new.keeper) }
{
    desk.act(request, t).reply
}
