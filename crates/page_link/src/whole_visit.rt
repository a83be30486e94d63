//! A visit over a link, whole.
ghost use Rattle.std.specs.Prelude.{◌≡◌, ◌+◌, ◌≤◌, IsTrue};
ghost use Rattle.asp_base.specs.Causes.{Rose};
ghost use Rattle.visit_core.specs.declared.outcome.Outcome.TheVariants.{LinkFault};
ghost use Rattle.visit_core.specs.Terms.{EndingFits, most_requests};
ghost use Rattle.page_link.specs.declared.visit_end.VisitEnd.TheVariants.{Over};
ghost use Rattle.page_link.specs.Visits.{IsNew, IsVisit, EndsWell, TellsReplies, scene};

use crate::client::Client;
use crate::link::Link;
use crate::visit_end::VisitEnd;
use crate::visit_turn::take_turn;
use asp_base::Clock;
use std::alloc::Global;
use std::rt::Clock as HostTime;
use std::sync::Wait;
use visit_core::{Ending, Visit};

/// Makes a visit over a link, from its first ask to its end; the page ends with `ending` where it
/// runs. The visit has not begun, and the ending's lengths and numbers are in range. The clock is
/// read once a turn; it may never come to the moment for which the visit waits.
///
/// `VisitEnd::Over(Outcome::LinkFault)` comes only where the link's count of failures rose, and
/// `VisitEnd::BadReply` only where the bytes received are no reply.
pub fn run_visit<R: Wait + HostTime, L: Link, C: Clock>(
    rt: &R,
    alloc: Global,
    visit: &mut Visit,
    ending: Ending,
    link: &mut L,
    clock: &mut C,
) -> VisitEnd
    requires new { IsNew visit.old }
    requires fits { EndingFits ending }
    ensures visit { IsVisit ending
        (scene visit.old (L.told link.old) (L.pauses link.old) (C.told clock.old))
        (scene visit.new (L.told link.new) (L.pauses link.new) (C.told clock.new)) result }
    ensures lost { result ≡ Over LinkFault → Rose (L.faults link.old) (L.faults link.new) }
    ensures faults { L.faults link.old ≤ L.faults link.new }

    // Where the link does not fail and enough whole replies come, the visit comes to an outcome, if
    // memory is there.
    ensures complete { TellsReplies (L.told link.old) (most_requests visit.old.terms.limits + 1)
        → (Rose (L.faults link.old) (L.faults link.new) → ⊥) → EndsWell result }
{
    let mut ending = Some(ending);
    let mut client = Client::new(alloc);
    for _ in rt.forever() {
        if let Some(end) = take_turn(rt, visit, &mut ending, &mut client, link, clock) {
            return end;
        }
    }
    unreachable!()
}
