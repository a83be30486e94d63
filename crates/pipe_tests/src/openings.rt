//! Runs that begin with the items that a keeper has, and with the cookies of a block, or with none.
ghost use Rattle.std.specs.Prelude.{◌≡◌, None};
ghost use Rattle.plain_desk.specs.Openings.{HasFreshCookies, cookies_of, opening_over};
ghost use Rattle.pipe_command.specs.PipeRun.{PipeFits};

use crate::running::{PIPE, joined, sink, source, spelled};
use asp_base::{Bytes, MOST_INPUT, MemorySink, MemorySource};
use cookie_source::PlainCookies;
use keeper::{KeepError, Keeper, ListKeeper, Ran};
use pipe_command::{Pipe, run_pipe_over};
use script_runner::run_drive_over;
use session_machine::Item;
use std::alloc::Global;
use std::test::Fail;

/// A keeper that tells contracts nothing, so that no proof is asked that its items' cookies are
/// below those of a run.
#[derive(Drop)]
struct Unseen {
    inner: ListKeeper,
}

impl Keeper for Unseen {
    ghost use Rattle.std.proofs.Common.{refl};

    ghost told = { λ _. None };

    ghost floor = { λ _. 0 };

    ghost count = { λ _. 0 };

    ghost can_count = { λ n. n ≡ 0 };

    ghost counts = { λ k. refl };

    fn get(&mut self, key: &Bytes) -> Result<Option<Item>, KeepError> {
        self.inner.get(key)
    }

    fn put(&mut self, key: &Bytes, item: Item) -> Result<(), KeepError> {
        self.inner.put(key, item)
    }

    fn cut(&mut self, key: &Bytes) -> Result<(), KeepError> {
        self.inner.cut(key)
    }

    fn due(&mut self, t: u64) -> Result<Option<Bytes>, KeepError> {
        self.inner.due(t)
    }

    fn faults(&self) -> u64 {
        0
    }
}

const PUT_X: &[u8] = b"PUT /a HTTP/1.1\r\nContent-Length: 1\r\n\r\nx";

const PUT_Y: &[u8] = b"PUT /a HTTP/1.1\r\nLockCookie: 1\r\nContent-Length: 1\r\n\r\ny";

const ACQUIRE: &[u8] = b"GET /a HTTP/1.1\r\nExclusive: acquire\r\n\r\n";

/// What is acquired and let go by a page of its own.
const PAGE: &[u8] = b"page p x2f61 exclusive keep\nstep 0 p\nstep 1 p\nstep 2 p\nstep 3 p\n";

/// A run of requests. It has no ensures, so that a test of many is checked quickly.
fn pipe_over<K: Keeper + Drop>(
    alloc: Global,
    pipe: Pipe,
    input: &mut MemorySource,
    output: &mut MemorySink,
    keeper: K,
    cookies: Option<PlainCookies>,
) -> Ran<K>
    requires pipe { PipeFits pipe }
    requires fresh { HasFreshCookies (opening_over ⟦<K as Keeper>⟧ keeper (cookies_of cookies)) }
{
    run_pipe_over(alloc, pipe, input, output, keeper, cookies)
}

/// The keeper after a run from the moment `start` on, whose replies, in the plain spelling, were
/// these.
fn answered(
    alloc: Global,
    start: u64,
    text: &[u8],
    keeper: Unseen,
    cookies: Option<PlainCookies>,
    replies: &str,
) -> Result<Unseen, Fail> {
    let mut input = source(alloc, text, 16, &[])?;
    let mut output = sink(alloc, &[])?;
    let pipe = Pipe {
        start: start.min(1 << 62),
        ..PIPE
    };
    let ran = pipe_over(alloc, pipe, &mut input, &mut output, keeper, cookies);
    let lines = spelled(alloc, output.taken())?;
    if ran.status != 0 || lines.as_slice() != replies.as_bytes() {
        return Err("the run was answered otherwise".into());
    }
    Ok(ran.keeper)
}

/// A lock that an earlier run left is the one that its cookie names, and the next one has a cookie
/// of the later block.
#[test]
fn a_run_goes_on_with_what_an_earlier_one_left(rt: HostRuntime) -> Result<(), Fail> {
    let alloc = rt.alloc();
    let keeper = Unseen {
        inner: ListKeeper::new(alloc),
    };
    let block = PlainCookies::new(1, 4_294_967_296);
    let text = joined(alloc, PUT_X, ACQUIRE)?;
    let left = "done\nfound 1 20 0 x78\n";
    let keeper = answered(alloc, 0, &text, keeper, Some(block), left)?;
    let later = PlainCookies::new(4_294_967_297, 8_589_934_592);
    let text = joined(alloc, PUT_Y, ACQUIRE)?;
    let found = "done\nfound 4294967297 20 0 x79\n";
    answered(alloc, 5000, &text, keeper, Some(later), found)?;
    Ok(())
}

#[test]
fn without_cookies_each_acquire_finds_none(rt: HostRuntime) -> Result<(), Fail> {
    let alloc = rt.alloc();
    let keeper = Unseen {
        inner: ListKeeper::new(alloc),
    };
    let text = joined(alloc, PUT_X, ACQUIRE)?;
    let text = joined(alloc, &text, ACQUIRE)?;
    let replies = "done\ncookies-out\ncookies-out\n";
    answered(alloc, 0, &text, keeper, None, replies)?;
    Ok(())
}

/// The last cookie of a block is drawn once, by a run over a keeper that tells its items.
#[test]
fn a_block_ends(rt: HostRuntime) -> Result<(), Fail> {
    let alloc = rt.alloc();
    let mut input = source(alloc, &joined(alloc, ACQUIRE, ACQUIRE)?, 16, &[])?;
    let mut output = sink(alloc, &[])?;
    let keeper = ListKeeper::new(alloc);
    let cookies = Some(PlainCookies::new(7, 7));
    let ran = pipe_over(alloc, PIPE, &mut input, &mut output, keeper, cookies);
    assert_eq!(rt; ran.status, 0);
    let lines = spelled(alloc, output.taken())?;
    assert_eq!(rt; lines.as_slice(), b"missing\ncookies-out\n".as_slice());
    Ok(())
}

/// The journal of a run over items that were there is one of its own requests alone.
#[test]
fn a_journal_begins_behind_the_items_that_were_there(rt: HostRuntime) -> Result<(), Fail> {
    let alloc = rt.alloc();
    let keeper = Unseen {
        inner: ListKeeper::new(alloc),
    };
    let keeper = answered(alloc, 0, PUT_X, keeper, None, "done\n")?;
    let mut input = source(alloc, ACQUIRE, 16, &[])?;
    let mut output = sink(alloc, &[])?;
    let pipe = Pipe {
        start: 1000,
        journal: true,
        ..PIPE
    };
    let cookies = Some(PlainCookies::new(5, 9));
    let ran = pipe_over(alloc, pipe, &mut input, &mut output, keeper, cookies);
    assert_eq!(rt; ran.status, 0);
    assert_eq!(rt;
        output.taken(),
        b"asp-journal 3 0\n0 1000 0 5 x2f61 acquire : found 5 20 0 x78\n".as_slice()
    );
    Ok(())
}

#[test]
fn pages_find_what_an_earlier_run_left(rt: HostRuntime) -> Result<(), Fail> {
    let alloc = rt.alloc();
    let keeper = Unseen {
        inner: ListKeeper::new(alloc),
    };
    let keeper = answered(alloc, 0, PUT_X, keeper, None, "done\n")?;
    let mut input = source(alloc, PAGE, 16, &[])?;
    let mut output = sink(alloc, &[])?;
    let cookies = Some(PlainCookies::new(5, 9));
    let ran = run_drive_over(alloc, MOST_INPUT, &mut input, &mut output, keeper, cookies);
    assert_eq!(rt; ran.status, 0);
    assert_eq!(rt;
        output.taken(),
        b"0 p acquire : found 5 20 0 x78\n1 p run 0 x78\n2 p release 5 : done\n\
            3 p over done\n"
            .as_slice()
    );
    Ok(())
}
