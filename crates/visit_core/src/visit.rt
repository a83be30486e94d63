//! A visit, from its first ask to its outcome.
ghost use Rattle.std.specs.Prelude.{◌≡◌, ◌≤◌, ◌<◌, ◌^◌, ◌+◌, ℕ, ◌++◌, ◌∷◌, [], List, false};
ghost use Rattle.asp_messages.specs.Ranges.{KeyFits};
ghost use Rattle.asp_messages.specs.declared.request.Request.{Request};
ghost use Rattle.visit_core.specs.Terms.{VisitTerms, LimitsFit, EndingFits, HeardFits, most_requests};
ghost use Rattle.visit_core.specs.Acts.{action_of, send, wait_until, ActFits, IsSend, IsToRun};
ghost use Rattle.visit_core.specs.VisitRule.{Event, heard, ended, lost, act_of, has_ended, latest_answer};
ghost use Rattle.visit_core.specs.Stages.{HasPast, IsAsking, VisitSends, Runs, steps_left, StageFits};
ghost use Rattle.visit_core.specs.Tables.{LockFits, lock_met, answered, meets_lock, hears_answer, hears_release, hears};

use crate::stage::{Lock, Stage};
use crate::{Act, Ending, Heard, Limits, Need, Outcome};
use asp_base::Bytes;
use asp_messages::{Ask, Reply, Request};
use std::marker::Model;

/// One page's visit to the state server. It says at each moment what to do next, and is told what
/// was heard, how the page ended, and that the link was lost. Contracts tie it to its past, the
/// list of these events: the calls lead from the empty past to a visit, and what it does is the
/// rule of its past.
#[derive(Debug, Drop)]
pub struct Visit {
    request: Request,
    need: Need,
    limits: Limits,
    locked: u64,
    stage: Stage,
}

impl Model for Visit {
    ghost use Rattle.visit_core.specs.Stages.{VisitState, IsSound};

    ghost Value = { VisitState };

    ghost view = { λ v. record {
      terms = record {
        key = v.request.key;
        need = v.need;
        limits =
            v.limits;
      };
      ask = v.request.ask;
      locked = v.locked;
      stage = v.stage;
    } };

    ghost invariant = { λ v. IsSound v.request v.limits v.locked v.stage };
}

impl Visit {
    /// A visit that has not begun: `key` is the session's, 1 to 1,024 bytes.
    pub fn new(key: Bytes, need: Need, limits: Limits) -> Visit
        requires key { KeyFits key }
        requires limits { LimitsFit limits }
        ensures terms { result.terms ≡ record { key = key; need = need; limits = limits } }
        ensures past { HasPast result [] }

        // A visit ends: each answer, each wait and the page's end leave it fewer steps.
        ensures steps { (t : ℕ) → steps_left result t ≤ most_requests limits }
    {
        Visit {
            request: Request {
                key,
                ask: need.ask(),
            },
            need,
            limits,
            locked: 0,
            stage: Stage::Asking { from: 0 },
        }
    }

    /// What to do at the moment `t`, in milliseconds. Where it is `Send`, `heard` may be called at
    /// `t`, and where it is `Run`, `finish`.
    pub fn next(&self, t: u64) -> Act<'_>
        ensures act { (past : List Event) → HasPast self.now past
            → action_of result ≡ act_of self.now.terms past t }
        ensures in_range { ActFits (action_of result) }
        ensures sends { IsSend (action_of result) → VisitSends self.now t }
        ensures runs { IsToRun (action_of result) → Runs self.now }
        ensures waits { (u : ℕ) → action_of result ≡ wait_until u
            → steps_left self.now u < steps_left self.now t }

        // It waits for at most one poll behind the last answer.
        ensures until { (u : ℕ) → action_of result ≡ wait_until u → (past : List Event)
            → HasPast self.now past
            → u ≤ latest_answer past + self.now.terms.limits.poll_ms }

        // No page runs that has ended.
        ensures unended { IsToRun (action_of result) → (past : List Event)
            → HasPast self.now past → has_ended past ≡ false }
    {
        match &self.stage {
            Stage::Asking { from } if t < *from => Act::WaitUntil(*from),
            Stage::Asking { .. } | Stage::Forcing | Stage::Ending => Act::Send(&self.request),
            Stage::Running { content, first, .. } => Act::Run {
                content: content.as_ref(),
                first: *first,
            },
            Stage::Over(outcome) => Act::Over(outcome),
        }
    }

    /// An ask for the session met this lock.
    fn meet_lock(&mut self, t: u64, lock: Lock)
        requires moment { t ≤ 2 ^ 62 }
        requires lock { LockFits lock }
        requires asking { IsAsking self.old }
        ensures { self.new ≡ meets_lock self.old t lock }
    {
        let Lock { cookie, age } = lock;
        self.locked += 1;
        if self.locked >= self.limits.polls {
            self.stage = Stage::Over(Outcome::GaveUp { cookie, age });
        } else if age > self.limits.execution_secs {
            self.request.ask = Ask::Release { cookie };
            self.stage = Stage::Forcing;
        } else {
            self.stage = Stage::Asking {
                from: t + self.limits.poll_ms,
            };
        }
    }

    /// An ask for the session met no lock.
    fn meet_none(&mut self, answer: Heard)
        requires { HeardFits answer }
        ensures { self.new ≡ record self.old { stage = answered self.old.ask answer } }
    {
        self.stage = Stage::answered(&self.request.ask, answer);
    }

    /// The answer to an ask for the session.
    fn hear_answer(&mut self, t: u64, answer: Heard)
        requires moment { t ≤ 2 ^ 62 }
        requires fits { HeardFits answer }
        requires asking { IsAsking self.old }
        ensures { self.new ≡ hears_answer self.old t answer (lock_met self.old.ask answer) }
    {
        match Lock::met(&self.request.ask, &answer) {
            Some(lock) => self.meet_lock(t, lock),
            None => self.meet_none(answer),
        }
    }

    /// The answer to a forced release: whatever became of the lock, the session is asked for again.
    fn hear_release(&mut self, answer: Heard)
        requires { self.old.stage ≡ Stage.Forcing }
        ensures { self.new ≡ hears_release self.old answer }
    {
        match answer {
            Heard::Reply(Reply::Done | Reply::Missing | Reply::Locked { .. }) => {
                self.request.ask = self.need.ask();
                self.stage = Stage::Asking { from: 0 };
            }
            answer => self.stage = Stage::refused(answer),
        }
    }

    /// An answer, by the stage that sent its request.
    fn hear(&mut self, t: u64, answer: Heard)
        requires moment { t ≤ 2 ^ 62 }
        requires sends { VisitSends self.old t }
        requires fits { HeardFits answer }
        ensures hears { self.new ≡ hears self.old t self.old.stage answer }
        ensures sound { StageFits self.old.locked self.old.terms.limits.polls self.old.stage }
    {
        match self.stage {
            Stage::Asking { .. } => self.hear_answer(t, answer),
            Stage::Forcing => self.hear_release(answer),
            Stage::Ending => self.stage = Stage::end_answered(answer),
            Stage::Running { .. } | Stage::Over(_) => unreachable!(),
        }
    }

    /// Hears at the moment `t`, in milliseconds, the answer to the request that `next(t)` sends. An
    /// answer that does not belong to its request ends the visit with `Outcome::Refused`.
    pub fn heard(&mut self, t: u64, answer: Heard)
        requires moment { t ≤ 2 ^ 62 }
        requires sends { VisitSends self.old t }
        requires fits { HeardFits answer }
        ensures terms { self.new.terms ≡ self.old.terms }
        ensures past { (past : List Event) (request : Request) → HasPast self.old past
            → act_of self.old.terms past t ≡ send request
            → HasPast self.new (past ++ heard t request answer ∷ []) }
        ensures steps { (u : ℕ) → steps_left self.new u < steps_left self.old t }
    {
        self.hear(t, answer);
    }

    /// The link to the state server is lost. A visit that is over keeps its outcome.
    pub fn lost_link(&mut self)
        ensures terms { self.new.terms ≡ self.old.terms }
        ensures past { (past : List Event) → HasPast self.old past
            → HasPast self.new (past ++ lost ∷ []) }
    {
        match self.stage {
            Stage::Over(_) => {}
            _ => self.stage = Stage::Over(Outcome::LinkFault),
        }
    }

    /// The page ends, which `next` let run. Only an exclusive page asks anything then.
    pub fn finish(&mut self, ending: Ending)
        requires runs { Runs self.old }
        requires fits { EndingFits ending }
        ensures terms { self.new.terms ≡ self.old.terms }
        ensures past { (past : List Event) → HasPast self.old past
            → HasPast self.new (past ++ ended ending ∷ []) }
        ensures steps { (t u : ℕ) → steps_left self.new u < steps_left self.old t }
    {
        let Stage::Running { cookie, .. } = self.stage else {
            unreachable!()
        };
        match ending.ask(self.need, cookie) {
            None => self.stage = Stage::Over(Outcome::Done),
            Some(ask) => {
                self.request.ask = ask;
                self.stage = Stage::Ending;
            }
        }
    }
}
