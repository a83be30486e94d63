//! A visit by itself, step by step: what it does next, and how it comes out.
ghost use Rattle.std.specs.Prelude.{◌≤◌, ◌^◌, IfOk, IfSome};
ghost use Rattle.visit_core.specs.Terms.{HeardFits, EndingFits};

use asp_base::{Bytes, NoMemory};
use asp_messages::{Ask, Reply};
use std::alloc::{AllocError, Global};
use std::process::Abort;
use std::str;
use std::test::Fail;
use visit_core::{Act, Ending, Heard, Limits, Need, Outcome, Visit, limits_fit, outcome_text};

// What befalls a visit; cookie 0 is none.
#[derive(Clone, Copy)]
enum Event {
    Nothing,
    Found(u8),
    Done,
    Missing,
    Locked(u8, u8),
    Bad,
    KeeperFault,
    NoMemory,
    CookiesOut,
    PlacesOut,
    Strange(u16),
    Save,
    Keep,
    Abandon,
    Lost,
}

use Event::*;

// A moment, the act that is due then, and what befalls the visit after it.
type Step = (u64, &'static str, Event);

fn reply(alloc: Global, event: Event) -> Result<Option<Reply>, NoMemory>
    ensures { IfOk result (λ reply. IfSome reply (λ r. HeardFits (Heard.Reply r))) }
{
    Ok(Some(match event {
        Found(cookie) => Reply::Found {
            body: Bytes::copy(alloc, b"x")?,
            minutes: 20,
            cookie: if cookie == 0 {
                None
            } else {
                Some(cookie as u64)
            },
            first: true,
        },
        Done => Reply::Done,
        Missing => Reply::Missing,
        Locked(cookie, age) => Reply::Locked {
            cookie: cookie as u64,
            age: age as u64,
            since: None,
        },
        Bad => Reply::Bad,
        KeeperFault => Reply::KeeperFault,
        Event::NoMemory => Reply::NoMemory,
        CookiesOut => Reply::CookiesOut,
        PlacesOut => Reply::PlacesOut,
        _ => return Ok(None),
    }))
}

fn ending(alloc: Global, event: Event) -> Result<Option<Ending>, NoMemory>
    ensures { IfOk result (λ ending. IfSome ending EndingFits) }
{
    Ok(Some(match event {
        Save => Ending::Save {
            body: Bytes::copy(alloc, b"y")?,
            minutes: 30,
        },
        Keep => Ending::Keep,
        Abandon => Ending::Abandon,
        _ => return Ok(None),
    }))
}

fn hear(rt: &impl Abort, visit: &mut Visit, t: u64, answer: Heard)
    requires moment { t ≤ 2 ^ 62 }
    requires fits { HeardFits answer }
{
    match visit.next(t) {
        Act::Send(_) => visit.heard(t, answer),
        _ => panic!(rt; "nothing is sent at {t}"),
    }
}

fn finish(rt: &impl Abort, visit: &mut Visit, t: u64, ending: Ending)
    requires { EndingFits ending }
{
    match visit.next(t) {
        Act::Run { .. } => visit.finish(ending),
        _ => panic!(rt; "no page is to run at {t}"),
    }
}

fn befall(
    rt: &impl Abort,
    alloc: Global,
    visit: &mut Visit,
    t: u64,
    event: Event,
) -> Result<(), NoMemory>
    requires { t ≤ 2 ^ 62 }
{
    if let Some(reply) = reply(alloc, event)? {
        hear(rt, visit, t, Heard::Reply(reply));
    }
    if let Some(ending) = ending(alloc, event)? {
        finish(rt, visit, t, ending);
    }
    match event {
        Strange(status) => hear(rt, visit, t, Heard::Strange(status)),
        Lost => visit.lost_link(),
        _ => {}
    }
    Ok(())
}

fn shown_ask(alloc: Global, ask: &Ask) -> Result<String, AllocError> {
    match ask {
        Ask::Read => format!(in alloc; "read"),
        Ask::Acquire => format!(in alloc; "acquire"),
        Ask::Reset => format!(in alloc; "reset"),
        Ask::Release { cookie } => format!(in alloc; "release {cookie}"),
        Ask::Remove { cookie } => format!(in alloc; "remove {}", cookie.unwrap_or(0)),
        Ask::Write {
            body,
            minutes,
            fresh,
            cookie,
        } => {
            let text = str::from_utf8(body.as_slice()).unwrap_or("?");
            format!(in alloc; "write {} {minutes} {fresh} {text}", cookie.unwrap_or(0))
        }
    }
}

fn shown(alloc: Global, act: Act) -> Result<String, AllocError> {
    match act {
        Act::Send(request) => shown_ask(alloc, &request.ask),
        Act::WaitUntil(moment) => format!(in alloc; "wait {moment}"),
        Act::Run {
            content: None,
            first,
        } => format!(in alloc; "run none {first}"),
        Act::Run {
            content: Some(body),
            first,
        } => {
            let text = str::from_utf8(body.as_slice()).unwrap_or("?");
            format!(in alloc; "run {text} {first}")
        }
        Act::Over(outcome) => {
            let text = outcome_text(outcome);
            format!(in alloc; "over {}", str::from_utf8(text.as_slice()).unwrap_or("?"))
        }
    }
}

// A lock of more than a second is released; polls are half a second apart, and there are three.
const LIMITS: Limits = Limits {
    execution_secs: 1,
    poll_ms: 500,
    polls: 3,
};

// A visit of `/s` that has not begun.
fn new_visit(alloc: Global, need: Need) -> Result<Visit, NoMemory> {
    Ok(Visit::new(Bytes::copy(alloc, b"/s")?, need, LIMITS))
}

// The act that is due at the moment.
fn next_shown(alloc: Global, visit: &Visit, t: u64) -> Result<String, AllocError> {
    shown(alloc, visit.next(t))
}

// A visit of `/s`, step by step.
fn play(rt: &impl Abort, alloc: Global, need: Need, steps: &[Step]) -> Result<(), Fail> {
    let mut visit = new_visit(alloc, need)?;
    for (t, act, event) in steps {
        let t = (*t).min(1 << 62);
        assert_eq!(rt; next_shown(alloc, &visit, t)?.as_str(), *act, "at {t}");
        befall(rt, alloc, &mut visit, t, *event)?;
    }
    Ok(())
}

#[test]
fn old_lock_is_released_and_the_third_poll_gives_up(rt: HostRuntime) -> Result<(), Fail> {
    let steps: [Step; 6] = [
        (0, "acquire", Locked(7, 2)),
        (0, "release 7", Done),
        (0, "acquire", Locked(8, 1)),
        (0, "wait 500", Nothing),
        (500, "acquire", Locked(8, 2)),
        (500, "over gave-up 8 2", Nothing),
    ];
    play(&rt, rt.alloc(), Need::Exclusive, &steps)
}

#[test]
fn read_only_page_runs_without_an_item_and_writes_nothing(rt: HostRuntime) -> Result<(), Fail> {
    let steps: [Step; 3] = [
        (0, "read", Missing),
        (0, "run none false", Save),
        (0, "over done", Nothing),
    ];
    play(&rt, rt.alloc(), Need::ReadOnly, &steps)
}

#[test]
fn strange_answer_to_a_reset_is_refused(rt: HostRuntime) -> Result<(), Fail> {
    let steps: [Step; 2] = [(0, "reset", Strange(302)), (0, "over refused 302", Nothing)];
    play(&rt, rt.alloc(), Need::Off, &steps)
}

#[test]
fn lost_link_ends_a_visit_once(rt: HostRuntime) -> Result<(), Fail> {
    let lost: [Step; 2] = [(0, "acquire", Lost), (0, "over link-fault", Nothing)];
    play(&rt, rt.alloc(), Need::Exclusive, &lost)?;
    let over: [Step; 3] = [
        (0, "reset", Done),
        (0, "over done", Lost),
        (0, "over done", Nothing),
    ];
    play(&rt, rt.alloc(), Need::Off, &over)
}

// The act at moment 0 after these events and one more.
fn act_after(
    rt: &impl Abort,
    alloc: Global,
    need: Need,
    before: &[Event],
    last: Event,
) -> Result<String, Fail> {
    let mut visit = new_visit(alloc, need)?;
    for event in before {
        befall(rt, alloc, &mut visit, 0, *event)?;
    }
    befall(rt, alloc, &mut visit, 0, last)?;
    Ok(next_shown(alloc, &visit, 0)?)
}

// The answers whose meaning depends on the request, and the others.
const ANSWERS: [Event; 6] = [
    Found(7),
    Found(0),
    Done,
    Missing,
    Locked(9, 1),
    Strange(418),
];

const REFUSALS: [(Event, &str); 5] = [
    (Bad, "over refused 400"),
    (KeeperFault, "over refused 500"),
    (Event::NoMemory, "over refused 503"),
    (CookiesOut, "over refused 507"),
    (PlacesOut, "over refused 508"),
];

#[test]
fn each_answer_leads_where_its_request_says(rt: HostRuntime) -> Result<(), Fail> {
    let acquired = [
        "run x true",
        "over refused 200",
        "over refused 200",
        "run none false",
        "wait 500",
        "over refused 418",
    ];
    let read = [
        "run x true",
        "run x true",
        "over refused 200",
        "run none false",
        "wait 500",
        "over refused 418",
    ];
    let reset = [
        "over refused 200",
        "over refused 200",
        "over done",
        "over done",
        "over refused 423",
        "over refused 418",
    ];
    let released = [
        "over refused 200",
        "over refused 200",
        "acquire",
        "acquire",
        "acquire",
        "over refused 418",
    ];
    let ended = [
        "over refused 200",
        "over refused 200",
        "over done",
        "over lost-lock missing",
        "over lost-lock locked 9 1",
        "over refused 418",
    ];
    let rows: [(Need, &[Event], [&str; 6]); 5] = [
        (Need::Exclusive, &[], acquired),
        (Need::ReadOnly, &[], read),
        (Need::Off, &[], reset),
        (Need::Exclusive, &[Locked(7, 2)], released),
        (Need::Exclusive, &[Found(7), Keep], ended),
    ];
    for (need, before, acts) in rows {
        for (answer, act) in ANSWERS.iter().zip(acts.iter()) {
            let found = act_after(&rt, rt.alloc(), need, before, *answer)?;
            assert_eq!(rt; found.as_str(), *act, "{need:?}");
        }
        for (answer, act) in REFUSALS {
            let found = act_after(&rt, rt.alloc(), need, before, answer)?;
            assert_eq!(rt; found.as_str(), act, "{need:?}");
        }
    }
    Ok(())
}

#[test]
fn each_end_asks_what_its_page_may(rt: HostRuntime) -> Result<(), Fail> {
    let endings = [Save, Keep, Abandon];
    let rows = [
        (
            Need::Exclusive,
            Found(7),
            ["write 7 30 false y", "release 7", "remove 7"],
        ),
        (
            Need::Exclusive,
            Missing,
            ["write 0 30 false y", "over done", "over done"],
        ),
        (Need::ReadOnly, Found(7), ["over done"; 3]),
        (Need::ReadOnly, Missing, ["over done"; 3]),
    ];
    for (need, answer, acts) in rows {
        for (ending, act) in endings.iter().zip(acts.iter()) {
            let found = act_after(&rt, rt.alloc(), need, &[answer], *ending)?;
            assert_eq!(rt; found.as_str(), *act, "{need:?}");
        }
    }
    Ok(())
}

#[test]
fn outcomes_have_their_texts(rt: HostRuntime) -> Result<(), Fail> {
    let rows = [
        (Outcome::Done, "done"),
        (
            Outcome::LostLocked { cookie: 0, age: 0 },
            "lost-lock locked 0 0",
        ),
        (Outcome::LostMissing, "lost-lock missing"),
        (Outcome::GaveUp { cookie: 8, age: 2 }, "gave-up 8 2"),
        (Outcome::LinkFault, "link-fault"),
        (Outcome::Refused { status: 302 }, "refused 302"),
        (
            Outcome::LostLocked {
                cookie: u64::MAX,
                age: u64::MAX,
            },
            "lost-lock locked 18446744073709551615 18446744073709551615",
        ),
    ];
    for (outcome, text) in rows {
        assert_eq!(rt; outcome_text(&outcome).as_slice(), text.as_bytes());
    }
    Ok(())
}

#[test]
fn limits_are_the_documented_ones_and_have_ranges(rt: HostRuntime) {
    let documented = Limits {
        execution_secs: 110,
        poll_ms: 500,
        polls: 1_000,
    };
    assert!(rt; Limits::default() == documented);
    let rows = [
        (1, 1, 1, true),
        (86_400, 60_000, 1_000_000, true),
        (0, 500, 1_000, false),
        (86_401, 500, 1_000, false),
        (110, 0, 1_000, false),
        (110, 60_001, 1_000, false),
        (110, 500, 0, false),
        (110, 500, 1_000_001, false),
    ];
    for (execution_secs, poll_ms, polls, fit) in rows {
        let limits = Limits {
            execution_secs,
            poll_ms,
            polls,
        };
        assert!(rt; limits_fit(&limits) == fit, "{limits:?}");
    }
}
