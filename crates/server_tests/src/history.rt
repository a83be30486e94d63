//! Two workers with ten connections each on one key: what the replies say is one legal history.
ghost use Rattle.std.specs.Prelude.{◌≡◌, All, None, length, IfOk};

use crate::clients::{ACQUIRE, Clients, NOTHING, OPEN, STEP, Steps, ask_of, client, code_after};
use crate::memory::{sink, source};
use crate::serve_runs::{Kept, find_all, serve_new};
use asp_base::{NoMemory, OpenGate};
use asp_messages::{Reply, push, push_number, spell_ask, spell_dated, then_number};
use journal_replay::run_replay;
use keeper::MapKeeper;
use std::alloc::Global;
use std::process::Abort;
use std::str;
use std::sync::atomic::AtomicU64;
use std::test::Fail;
use stream_server::Worker;

/// How many connections each of the two workers has.
pub const EACH: usize = 10;

/// Instead of what a client sends: the worker looked for what has expired.
const LOOK: u64 = 3;

/// What a worker did at one moment: what was sent, and the reply.
#[derive(Drop)]
struct Step {
    caller: u64,
    moment: u64,
    code: u64,
    reply: Reply,
}

/// Who holds the item, and whether it is there; the cookie that was drawn last.
#[derive(Clone, Copy)]
struct State {
    made: bool,
    holder: u64,
    drawn: u64,
}

/// What a worker did, the last first.
fn steps_of(
    alloc: Global,
    caller: u64,
    start: u64,
    first: u64,
    heard: Vec<Vec<Reply>>,
) -> Result<Vec<Step>, Fail> {
    let mut steps = Vec::new(alloc);
    let mut moment = start;
    let mut opening = first;
    for replies in heard {
        let mut code = opening;
        opening = ACQUIRE;
        for reply in replies {
            let next = code_after(code, &reply);
            let step = Step {
                caller,
                moment,
                code,
                reply,
            };
            steps.push(step)?;
            moment = moment.saturating_add(STEP);
            code = next;
        }
        let look = Step {
            caller,
            moment,
            code: LOOK,
            reply: Reply::Done,
        };
        steps.push(look)?;
        moment = moment.saturating_add(STEP);
    }
    steps.reverse();
    Ok(steps)
}

/// Whether the step may come now and changes nothing.
fn is_quiet(step: &Step, state: &State) -> bool {
    match &step.reply {
        Reply::Missing => !state.made,
        Reply::Locked { cookie, .. } => *cookie > 0 && *cookie == state.holder,
        Reply::Done => step.code == LOOK,
        _ => false,
    }
}

/// Where the step may come now and changes something: its rank among those that may.
fn rank_of(step: &Step, state: &State) -> Option<u64> {
    match &step.reply {
        Reply::Done if step.code == OPEN && !state.made => Some(0),
        Reply::Done if step.code > 255 && step.code >> 8 == state.holder => Some(0),
        Reply::Found {
            cookie: Some(cookie),
            ..
        } if state.made && state.holder == 0 => Some(*cookie),
        _ => None,
    }
}

/// Takes the step that comes next, from the worker whose it is.
fn take_next(first: &mut Vec<Step>, second: &mut Vec<Step>, state: &State) -> Option<Step> {
    let quiet = |steps: &Vec<Step>| steps.last().is_some_and(|step| is_quiet(step, state));
    if quiet(first) {
        return first.pop();
    }
    if quiet(second) {
        return second.pop();
    }
    let rank = |steps: &Vec<Step>| steps.last().and_then(|step| rank_of(step, state));
    match (rank(first), rank(second)) {
        (None, None) => None,
        (Some(_), None) => first.pop(),
        (Some(one), Some(other)) if one <= other => first.pop(),
        _ => second.pop(),
    }
}

/// The state after the step. Each acquire draws the next cookie.
fn state_after(state: &State, step: &Step) -> State {
    let drawn = if step.code == ACQUIRE {
        state.drawn.saturating_add(1)
    } else {
        state.drawn
    };
    let holder = match &step.reply {
        Reply::Found {
            cookie: Some(cookie),
            ..
        } => *cookie,
        Reply::Done if step.code != LOOK => 0,
        _ => state.holder,
    };
    State {
        made: state.made || step.code == OPEN,
        holder,
        drawn,
    }
}

/// Appends the line of the step: who, when, no fault, what was drawn, the key, and what was done.
fn write_step(alloc: Global, out: &mut Vec<u8>, step: &Step, drawn: u64) -> Result<(), NoMemory> {
    push_number(out, step.caller)?;
    then_number(out, step.moment)?;
    then_number(out, 0)?;
    then_number(out, if step.code == ACQUIRE { drawn } else { 0 })?;
    match ask_of(alloc, step.code)? {
        Some(ask) if step.code != LOOK => {
            push(out, b" x2f61 ")?;
            spell_ask(out, &ask)?;
        }
        _ => push(out, b" - looked")?,
    }
    push(out, b" : ")?;
    spell_dated(out, &step.reply)?;
    push(out, b"\n")
}

/// The journal of what both did, in the one order that their replies allow but for steps that
/// change nothing, and how many entries it has.
fn journal_of(alloc: Global, first: Vec<Step>, second: Vec<Step>) -> Result<(Vec<u8>, u64), Fail> {
    let (mut first, mut second) = (first, second);
    let mut out = Vec::from_slice(alloc, b"asp-journal 3 0\n")?;
    let mut entries: u64 = 0;
    let mut state = State {
        made: false,
        holder: 0,
        drawn: 0,
    };
    for _ in 0..u64::MAX {
        let Some(step) = take_next(&mut first, &mut second, &state) else {
            break;
        };
        state = state_after(&state, &step);
        if write_step(alloc, &mut out, &step, state.drawn).is_err() {
            return Err("no memory".into());
        }
        entries = entries.saturating_add(1);
    }
    if first.is_empty() && second.is_empty() {
        return Ok((out, entries));
    }
    Err("the replies allow no order".into())
}

/// A door of ten clients, of which the first begins with `first`.
fn door_of<'a>(alloc: Global, nexts: &'a [AtomicU64], first: u64) -> Result<Clients<'a>, Fail> {
    let mut coming = Vec::new(alloc);
    let mut code = first;
    for next in nexts {
        coming.push(client(alloc, next, code))?;
        code = ACQUIRE;
    }
    coming.reverse();
    let heard = Vec::with_capacity(alloc, nexts.len())?;
    Ok(Clients {
        coming,
        heard,
        faults: 0,
    })
}

/// What each of so many clients sends next.
pub fn nexts_of(alloc: Global, count: usize) -> Result<Vec<AtomicU64>, Fail> {
    let mut nexts = Vec::new(alloc);
    for _ in 0..count {
        nexts.push(AtomicU64::new(NOTHING))?;
    }
    Ok(nexts)
}

/// A worker whose door has clients.
pub type Hot<'a> = Worker<Clients<'a>, Steps, MapKeeper>;

/// Two workers, whose clocks never give the same moment. The first client makes the item.
pub fn workers_of<'a>(
    alloc: Global,
    first: &'a [AtomicU64],
    second: &'a [AtomicU64],
) -> Result<Vec<Hot<'a>>, Fail>
    ensures { IfOk result (λ v. (length v.items ≡ 2) × All (λ w. w.pass ≡ None) v.items) }
{
    let first = Worker::new(door_of(alloc, first, OPEN)?, Steps { next: 0 });
    let second = Worker::new(door_of(alloc, second, ACQUIRE)?, Steps { next: STEP / 2 });
    Ok(vec![in alloc; first, second]?)
}

/// What the worker did, the last first.
fn work_of(alloc: Global, worker: Option<Hot<'_>>, caller: u64) -> Result<Vec<Step>, Fail> {
    let Some(Worker { door, .. }) = worker else {
        return Err("no worker".into());
    };
    let first = if caller == 0 { OPEN } else { ACQUIRE };
    steps_of(alloc, caller, caller.min(1) * (STEP / 2), first, door.heard)
}

/// The journal is judged legal, with so many entries.
pub fn judge<R: Abort>(rt: &R, alloc: Global, journal: Vec<u8>, entries: u64) -> Result<(), Fail> {
    let mut input = source(alloc, journal, 16_384, &[])?;
    let mut output = sink(alloc, 256, 256, &[])?;
    let replayed = run_replay(alloc, 1 << 40, &mut input, &mut output);
    let mut want = Vec::from_slice(alloc, b"legal ")?;
    assert!(rt; push_number(&mut want, entries).is_ok() && push(&mut want, b"\n").is_ok());
    assert_eq!(rt;
        str::from_utf8(output.taken()),
        str::from_utf8(want.as_slice())
    );
    assert_eq!(rt; replayed, 0);
    Ok(())
}

#[test]
fn twenty_connections_on_one_key_are_one_legal_history(rt: HostRuntime) -> Result<(), Fail> {
    let alloc = rt.alloc();
    let (first, second) = (nexts_of(alloc, EACH)?, nexts_of(alloc, EACH)?);
    let mut workers = workers_of(alloc, &first, &second)?;
    let Some(kept) = serve_new(&rt, alloc, 1, workers.as_mut_slice(), &OpenGate) else {
        return Err("no store".into());
    };
    let second = work_of(alloc, workers.pop(), 1)?;
    let first = work_of(alloc, workers.pop(), 0)?;
    let (journal, entries) = journal_of(alloc, first, second)?;
    judge(&rt, alloc, journal, entries)?;
    let Kept { store, passes } = kept;
    // Twenty clients, and five additions for each.
    let found = [(b'a', Some([100].as_slice()), entries)];
    find_all(&rt, alloc, &store, passes, &found).ok_or("no pass")?;
    Ok(())
}
