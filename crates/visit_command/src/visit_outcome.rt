//! One visit by the words of a command line.
ghost use Rattle.std.specs.Prelude.{◌≡◌, ◌≤◌, ◌⊎◌, ◌↔◌, ◌++◌, ◌∷◌, [], None, IfSome, map, string_bytes};
ghost use Rattle.asp_base.specs.Causes.{Rose};
ghost use Rattle.asp_base.specs.WrittenLine.{WritesLine};
ghost use Rattle.page_link.specs.Visits.{TellsReplies};
ghost use Rattle.visit_core.specs.OutcomeText.{outcome_spelling};
ghost use Rattle.visit_command.specs.VisitWords.{visit_of};
ghost use Rattle.visit_command.specs.Top.{outcome_status, tellings, enough_replies, IsVisitOf, EndsWithOutcome};

use crate::visit_words::{read_visit, visit_port};
use asp_base::status::{
    DONE, GAVE_UP, LINK_FAULT, LOST_LOCK, NO_COMMAND, NO_MEMORY, NO_REPLY, REQUEST_REFUSED,
    WRITE_FAULT,
};
use asp_base::{Clock, Failed, FixedText, Sink, write_text};
use page_link::{Link, VisitEnd, run_visit};
use std::alloc::Global;
use std::rt::Clock as HostTime;
use std::sync::Wait;
use visit_core::{Limits, Outcome, Visit, outcome_text};

/// The exit status of an outcome.
fn outcome_status(outcome: &Outcome) -> u8
    ensures { result ≡ outcome_status outcome.now }
{
    match outcome {
        Outcome::Done => DONE,
        Outcome::LostLocked { .. } | Outcome::LostMissing => LOST_LOCK,
        Outcome::GaveUp { .. } => GAVE_UP,
        Outcome::LinkFault => LINK_FAULT,
        Outcome::Refused { .. } => REQUEST_REFUSED,
    }
}

/// Writes the outcome's spelling and a line feed, and answers the exit status.
fn write_outcome<T: Sink>(sink: &mut T, outcome: &Outcome) -> u8
    ensures writes { WritesLine result (outcome_status outcome.now) (T.taken sink.old)
        (T.taken sink.new) (outcome_spelling outcome.now ++ 10 ∷ []) }
    ensures fault { result ≡ 5 → Rose (T.faults sink.old) (T.faults sink.new) }
    ensures count { T.faults sink.old ≤ T.faults sink.new }
{
    let mut line = FixedText::<72>::new();
    match write_text(sink, &mut line, outcome_text(outcome).as_slice(), b"\n") {
        Ok(()) => outcome_status(outcome),
        Err(Failed) => WRITE_FAULT,
    }
}

/// Makes the visit that the words say, by the default limits, and writes its outcome and a line
/// feed. It answers the exit status: 0 where the page was done, 2 exactly where the words are none
/// of `visit`, 5 where the sink failed, 6 where there was no memory, 11 where the page lost its
/// lock, 12 where it gave up, 13 where the link failed, 14 where a request was refused, and 15
/// where what came is no reply. On 2 nothing is sent, received or written, on 6 and 15 nothing is
/// written.
pub fn visit<R: Wait + HostTime, L: Link, T: Sink, C: Clock>(
    rt: &R,
    alloc: Global,
    words: &[String],
    link: &mut L,
    sink: &mut T,
    clock: &mut C,
) -> u8
    ensures words { (result ≡ 2) ↔ (visit_of (map string_bytes words.now) ≡ None) }
    ensures untouched { result ≡ 2
        → (link.new ≡ link.old) × (sink.new ≡ sink.old) × (clock.new ≡ clock.old) }
    ensures visit { IfSome (visit_of (map string_bytes words.now)) (λ page.
        IsVisitOf page
        (tellings (L.told link.old) (L.pauses link.old) (C.told clock.old) (T.taken sink.old))
        (tellings (L.told link.new) (L.pauses link.new) (C.told clock.new) (T.taken sink.new))
        result) }
    ensures lost { result ≡ 13 → Rose (L.faults link.old) (L.faults link.new) }
    ensures fault { result ≡ 5 → Rose (T.faults sink.old) (T.faults sink.new) }
    ensures link_count { L.faults link.old ≤ L.faults link.new }
    ensures sink_count { T.faults sink.old ≤ T.faults sink.new }

    // Where neither link nor sink fails and enough whole replies come, the status is that of an
    // outcome, or 6; or the words are none of `visit`.
    ensures complete { TellsReplies (L.told link.old) enough_replies
        → (Rose (L.faults link.old) (L.faults link.new) → ⊥)
        → (Rose (T.faults sink.old) (T.faults sink.new) → ⊥)
        → (result ≡ 2) ⊎ ((result ≡ 6) ⊎ EndsWithOutcome result) }
{
    if visit_port(words).is_none() {
        return NO_COMMAND;
    }
    let Ok(Some(page)) = read_visit(alloc, words) else {
        return NO_MEMORY;
    };
    let mut visit = Visit::new(page.key, page.need, Limits::default());
    match run_visit(rt, alloc, &mut visit, page.ending, link, clock) {
        VisitEnd::Over(outcome) => write_outcome(sink, &outcome),
        VisitEnd::BadReply => NO_REPLY,
        VisitEnd::NoMemory => NO_MEMORY,
    }
}
