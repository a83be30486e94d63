//! A page between its first ask and its end, and its acts.
ghost use Rattle.std.specs.Prelude.{◌≡◌, ◌<◌, ◌≤◌, ◌^◌, ℕ, Bool, List, IfSome, IfNone, IfOk, OnErr, option_copied};
ghost use Rattle.asp_messages.specs.Ranges.{RequestFits};
ghost use Rattle.visit_core.specs.Acts.{over, run, send};
ghost use Rattle.visit_core.specs.VisitRule.{Event, act_of};
ghost use Rattle.visit_core.specs.Stages.{HasPast, Runs, VisitSends, steps_left};
ghost use Rattle.plain_desk.specs.DeskStands.{desk_state};
ghost use Rattle.page_visit.specs.Underway.{PageEnds, PageGoesOn, PageMayAct};

use asp_base::{Bytes, NoMemory};
use asp_messages::Request;
use keeper::Keeper;
use plain_desk::PlainDesk;
use std::alloc::Global;
use visit_core::{Act, Ending, Heard, Outcome, Visit};

/// A page whose visit is underway.
#[derive(Drop)]
pub struct OpenPage {
    /// Its visit.
    pub visit: Visit,
    /// How it ends; `None` once its visit was told so.
    pub ending: Option<Ending>,
    /// The content on which it ran.
    pub content: Option<Bytes>,
    /// The moment now, in milliseconds.
    pub moment: u64,
}

/// The same bytes once more.
fn share(bytes: Option<&Bytes>) -> Result<Option<Bytes>, NoMemory>
    ensures { IfOk result (λ copy. copy ≡ option_copied bytes.entry) }
{
    match bytes {
        Some(bytes) => Ok(Some(bytes.share()?)),
        None => Ok(None),
    }
}

impl OpenPage {
    /// Sends the request that the visit sends now, and hears the reply.
    fn send<K: Keeper>(&mut self, desk: &mut PlainDesk<K>, request: Request)
        requires moment { self.old.moment ≤ 2 ^ 62 }
        requires request { RequestFits request }
        requires sends { VisitSends self.old.visit self.old.moment }
        requires acts { (past : List Event) → HasPast self.old.visit past
            → act_of self.old.visit.terms past self.old.moment ≡ send request }
        ensures on { PageGoesOn K.can_count self.old (desk_state ⟦<K as Keeper>⟧ desk.old)
            self.new (desk_state ⟦<K as Keeper>⟧ desk.new) }
        ensures fewer { steps_left self.new.visit self.new.moment
            < steps_left self.old.visit self.old.moment }
        ensures floor { K.floor desk.new.keeper ≡ K.floor desk.old.keeper }
    {
        let reply = desk.act(request, self.moment).reply;
        self.visit.heard(self.moment, Heard::Reply(reply));
    }

    /// The page runs on this content, and its visit is told how it ends.
    fn finish(&mut self, content: Option<Bytes>)
        requires may { PageMayAct self.old }
        requires runs { Runs self.old.visit }
        requires acts { (first : Bool) × ((past : List Event) → HasPast self.old.visit past
            → act_of self.old.visit.terms past self.old.moment ≡ run content first) }
        ensures { PageEnds self.old self.new content }
    {
        let Some(ending) = self.ending.take() else {
            unreachable!()
        };
        self.content = content;
        self.visit.finish(ending);
    }

    /// Does once what the visit's rule says at the moment, and answers the outcome, where it is
    /// over. The only error is want of memory, and nothing was done then.
    pub fn act<K: Keeper>(
        &mut self,
        alloc: Global,
        desk: &mut PlainDesk<K>,
    ) -> Result<Option<Outcome>, NoMemory>
        requires { PageMayAct self.old }
        ensures on { IfOk result (λ end. IfNone end (PageGoesOn K.can_count
            self.old (desk_state ⟦<K as Keeper>⟧ desk.old)
            self.new (desk_state ⟦<K as Keeper>⟧ desk.new))) }
        ensures fewer { IfOk result (λ end. IfNone end
            (steps_left self.new.visit self.new.moment
            < steps_left self.old.visit self.old.moment)) }
        ensures over { IfOk result (λ end. IfSome end (λ outcome. (past : List Event)
            → HasPast self.old.visit past
            → act_of self.old.visit.terms past self.old.moment ≡ over outcome)) }
        ensures same { IfOk result (λ end. IfSome end (λ outcome. (self.new ≡ self.old)
            × (desk.new ≡ desk.old))) }
        ensures err { OnErr result ((self.new ≡ self.old) × (desk.new ≡ desk.old)) }
        ensures floor { K.floor desk.new.keeper ≡ K.floor desk.old.keeper }
    {
        match self.visit.next(self.moment) {
            Act::Over(outcome) => Ok(Some(*outcome)),
            Act::WaitUntil(moment) => {
                self.moment = moment;
                Ok(None)
            }
            Act::Run { content, .. } => {
                let content = share(content)?;
                self.finish(content);
                Ok(None)
            }
            Act::Send(request) => {
                let request = request.copy(alloc)?;
                self.send(desk, request);
                Ok(None)
            }
        }
    }
}
