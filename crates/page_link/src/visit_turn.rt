//! One turn of a visit.
ghost use Rattle.std.specs.Prelude.{◌≡◌, ◌≤◌, ◌^◌, ℕ, false, Some, IfSome, IfNone};
ghost use Rattle.asp_base.specs.Causes.{Rose};
ghost use Rattle.asp_base.specs.Moments.{GivesMoment};
ghost use Rattle.visit_core.specs.declared.outcome.Outcome.TheVariants.{LinkFault};
ghost use Rattle.page_link.specs.declared.visit_end.VisitEnd.TheVariants.{Over};
ghost use Rattle.page_link.specs.Exchanges.{MayTurn, StaysUnderway, ComesToEnd};
ghost use Rattle.page_link.specs.Visits.{scene};

use crate::client::Client;
use crate::exchange::{Break, ask};
use crate::link::Link;
use crate::visit_end::VisitEnd;
use asp_base::Clock;
use std::rt::Clock as HostTime;
use visit_core::{Act, Ending, Outcome, Visit};

/// Does once what the visit's rule says at the moment that the clock gives, and answers how the
/// visit ended, where it did.
pub fn take_turn<R: HostTime, L: Link, C: Clock>(
    rt: &R,
    visit: &mut Visit,
    ending: &mut Option<Ending>,
    client: &mut Client,
    link: &mut L,
    clock: &mut C,
) -> Option<VisitEnd>
    requires may_turn { MayTurn visit.old ending.old }
    requires whole { client.old.reader.bytes.is_broken ≡ false }
    ensures on { IfNone result (StaysUnderway
        (scene visit.old (L.told link.old) (L.pauses link.old) (C.told clock.old))
        ending.old client.old.reader.bytes.held
        (scene visit.new (L.told link.new) (L.pauses link.new) (C.told clock.new))
        ending.new client.new.reader.bytes.held) }

    // A turn that leaves the visit underway has read the clock once.
    ensures read { IfNone result ((now : ℕ)
        × GivesMoment (C.told clock.old) (C.told clock.new) now) }
    ensures whole { IfNone result (client.new.reader.bytes.is_broken ≡ false) }
    ensures end { IfSome result (ComesToEnd
        (scene visit.old (L.told link.old) (L.pauses link.old) (C.told clock.old))
        ending.old client.old.reader.bytes.held
        (scene visit.new (L.told link.new) (L.pauses link.new) (C.told clock.new))) }
    ensures lost { result ≡ Some (Over LinkFault) → Rose (L.faults link.old) (L.faults link.new) }
    ensures faults { L.faults link.old ≤ L.faults link.new }
{
    let now = clock.now(rt);
    match visit.next(now) {
        Act::Over(outcome) => {
            let outcome = *outcome;
            return Some(VisitEnd::Over(outcome));
        }
        Act::WaitUntil(until) => link.pause(rt, until),
        Act::Run { .. } => {
            let Some(ending) = ending.take() else {
                unreachable!()
            };
            visit.finish(ending);
        }
        Act::Send(request) => match ask(rt, client, request, link) {
            Ok(heard) => visit.heard(now, heard),
            Err(Break::BadReply) => return Some(VisitEnd::BadReply),
            Err(Break::NoMemory) => return Some(VisitEnd::NoMemory),
            Err(Break::LinkFault) => {
                visit.lost_link();
                return Some(VisitEnd::Over(Outcome::LinkFault));
            }
        },
    }
    None
}
