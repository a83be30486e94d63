//! A page of a script, and its steps.
ghost use Rattle.std.specs.Prelude.{IfSome};
ghost use Rattle.visit_core.specs.Terms.{EndingFits};
ghost use Rattle.page_script.specs.Endings.{ending_fits-prop};

use crate::page_request::answer;
use crate::script_text::{push_ask, push_over, push_reply, push_run, push_start, push_wait};
use crate::{Name, PageLine};
use asp_base::NoMemory;
use asp_messages::Request;
use keeper::Keeper;
use plain_desk::PlainDesk;
use std::alloc::Global;
use visit_core::{Act, Ending, Heard, Limits, Visit};

/// A page that was named.
#[derive(Drop)]
pub struct ScriptPage {
    pub name: Name,
    pub visit: Visit,
    /// How the page ends; `None` once its visit was told so.
    pub ending: Option<Ending>,
    ghost ending_fits: { IfSome ending EndingFits } by { ending_fits-prop ending },
}

impl ScriptPage {
    ghost use Rattle.std.specs.Prelude.{◌≡◌, ◌≤◌, ◌^◌, ℕ, List, [], ◌∷◌, ◌++◌, OnOk, OnErr};
    ghost use Rattle.asp_messages.specs.Appending.{Extends};
    ghost use Rattle.asp_messages.specs.Ranges.{RequestFits};
    ghost use Rattle.visit_core.specs.Stages.{VisitSends, Runs};
    ghost use Rattle.visit_core.specs.Terms.{LimitsFit};
    ghost use Rattle.plain_desk.specs.Openings.{NeverBegins};
    ghost use Rattle.page_script.specs.Lines.{PageFits};
    ghost use Rattle.page_script.specs.World.{WorldTurn, new_page, turns_of, step_line};
    ghost use Rattle.page_script.specs.ScriptStands.{PageStands, WillSend, EachStepsAt, EachMayStepAt, EachHasEnded, IsAppended};

    /// A page whose visit has not begun.
    pub fn new(limits: Limits, line: PageLine) -> ScriptPage
        requires limits { LimitsFit limits }
        requires line { PageFits line }
        ensures { (number : ℕ) (turns : List WorldTurn) → turns_of number turns ≡ []
            → PageStands turns number result (new_page limits line) }
    {
        ScriptPage {
            name: line.name,
            visit: Visit::new(line.key, line.need, limits),
            ending: Some(line.ending),
        }
    }

    /// Sends the request that the visit sends at the moment `t`, hears the reply, and appends both.
    fn send<K: Keeper>(
        &mut self,
        desk: &mut PlainDesk<K>,
        t: u64,
        request: Request,
        out: &mut Vec<u8>,
    ) -> Result<(), NoMemory>
        requires moment { t ≤ 2 ^ 62 }
        requires request { RequestFits request }
        requires sends { VisitSends self.old.visit t }
        requires will_send { WillSend self.old.visit t request }
        ensures ok { OnOk result (EachStepsAt ⟦<K as Keeper>⟧ t self.old desk.old
            self.new desk.new
            (λ words. IsAppended out.old.items out.new.items (words ++ 10 ∷ []))) }
        ensures err { OnErr result (EachMayStepAt ⟦<K as Keeper>⟧ t self.old desk.old
            self.new desk.new) }
        ensures extends { OnErr result (Extends out.old.items out.new.items) }
        ensures floor { K.floor desk.new.keeper ≡ K.floor desk.old.keeper }
        ensures tells { NeverBegins (K.told desk.old.keeper) (K.told desk.new.keeper) }
    {
        push_ask(out, &request.ask)?;
        let reply = answer(desk, request, t);
        let written = push_reply(out, &reply);
        self.visit.heard(t, Heard::Reply(reply));
        written
    }

    /// Tells the visit, which runs, how the page ends, once.
    fn finish(&mut self)
        requires runs { Runs self.old.visit }
        ensures { EachHasEnded self.old self.new }
    {
        if let Some(ending) = self.ending.take() {
            self.visit.finish(ending);
        }
    }

    /// One step at the moment `t`, in milliseconds: each page of the world that this one stands for
    /// takes it, and its line is appended. After `NoMemory` a front of the line may stand in the
    /// buffer, and the step was made or not.
    pub fn step<K: Keeper>(
        &mut self,
        alloc: Global,
        desk: &mut PlainDesk<K>,
        t: u64,
        out: &mut Vec<u8>,
    ) -> Result<(), NoMemory>
        requires { t ≤ 2 ^ 62 }
        ensures ok { OnOk result (EachStepsAt ⟦<K as Keeper>⟧ t self.old desk.old
            self.new desk.new
            (λ words. IsAppended out.old.items out.new.items (step_line t self.old.name words))) }
        ensures err { OnErr result (EachMayStepAt ⟦<K as Keeper>⟧ t self.old desk.old
            self.new desk.new) }
        ensures extends { OnErr result (Extends out.old.items out.new.items) }
        ensures floor { K.floor desk.new.keeper ≡ K.floor desk.old.keeper }
        ensures tells { NeverBegins (K.told desk.old.keeper) (K.told desk.new.keeper) }
    {
        push_start(out, t, self.name.as_slice())?;
        match self.visit.next(t) {
            Act::Send(request) => {
                let request = request.copy(alloc)?;
                self.send(desk, t, request, out)
            }
            Act::WaitUntil(moment) => push_wait(out, moment),
            Act::Run { content, first } => {
                push_run(out, content, first)?;
                self.finish();
                Ok(())
            }
            Act::Over(outcome) => push_over(out, outcome),
        }
    }
}
