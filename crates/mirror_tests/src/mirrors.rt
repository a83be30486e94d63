//! Mirrors of journals that are read in pieces.
ghost use Rattle.std.specs.Prelude.{◌+◌, ◌≤◌, length, IfOk, IsTrue};

use asp_base::Bytes;
use session_machine::Item;
use state_mirror::{Mirror, MirrorNext};
use std::alloc::Global;
use std::test::Fail;

/// A journal of a write and an acquire.
const TWO: &[u8] = b"asp-journal 3 0\n0 0 0 0 x2f61 write 0 20 0 x78 : done\n\
    0 1000 0 1 x2f61 acquire : found 1 20 0 x78\n";

/// What it leaves at the moment 2000, behind none, one and both of its entries.
const NONE: &[u8] = b"sessions 0\n";

const ONE: &[u8] = b"x2f61 0 0 20 0 0 86400000 x78\nsessions 1\n";

const BOTH: &[u8] = b"x2f61 1 1000 20 0 1000 86400000 x78\nsessions 1\n";

/// How many entries its first bytes have, fewer than all, what they leave, and where they stop being
/// a journal. Its lines end behind 16, 54 and 98 bytes.
fn front(cut: usize) -> (u64, &'static [u8], Option<u64>) {
    match cut {
        0..=15 => (0, NONE, Some(0)),
        16 => (0, NONE, None),
        17..=53 => (0, NONE, Some(16)),
        54 => (1, ONE, None),
        _ => (1, ONE, Some(54)),
    }
}

/// The same with a third entry that may not stand, since cookie 1 holds the item, and a fourth.
const FOUR: &[u8] = b"asp-journal 3 0\n0 0 0 0 x2f61 write 0 20 0 x78 : done\n\
    0 1000 0 1 x2f61 acquire : found 1 20 0 x78\n0 2000 0 0 x2f61 write 0 20 0 x79 : done\n\
    0 3000 0 0 x2f62 write 0 20 0 x7a : done\n";

/// What a mirror answered of the lines of a text.
#[derive(Clone, Copy, Debug, PartialEq, Eq, Drop)]
struct Answers {
    /// How many entries it applied.
    applied: u64,
    /// How many lines it answered `Illegal` for.
    illegal: u64,
    /// Whether it may be fed.
    may_feed: bool,
}

/// Reads at most ten lines.
fn read_lines(mirror: &mut Mirror) -> Result<Answers, Fail>
    ensures may_feed { IfOk result (λ read. IsTrue read.may_feed → IsTrue mirror.new.may_feed) }
    ensures counted { mirror.new.reader.offset + length mirror.new.reader.held
        ≤ mirror.old.reader.offset + length mirror.old.reader.held }
{
    let mut applied: u64 = 0;
    let mut illegal: u64 = 0;
    'lines: for _ in 0..10 {
        match mirror.next() {
            MirrorNext::Applied { .. } => applied = applied.saturating_add(1),
            MirrorNext::Illegal { .. } => illegal = illegal.saturating_add(1),
            MirrorNext::More | MirrorNext::NotAJournal { .. } => {
                return Ok(Answers {
                    applied,
                    illegal,
                    may_feed: true,
                });
            }
            MirrorNext::NoMemory => return Err("no memory".into()),
        }
    }
    Ok(Answers {
        applied,
        illegal,
        may_feed: false,
    })
}

/// What lives at the moment, as it is printed.
fn printed(alloc: Global, mirror: &Mirror, t: u64) -> Result<Vec<u8>, Fail> {
    let mut out = Vec::new(alloc);
    match mirror.print(t, &mut out) {
        Ok(()) => Ok(out),
        Err(_) => Err("no memory".into()),
    }
}

/// Feeds a text of at most 1,000 bytes, cut behind so many, to a mirror. What it answered of the
/// front, what it printed at 2000 then, and where the front stops being a journal; and the mirror.
fn mirror_cut(
    alloc: Global,
    text: &[u8],
    cut: usize,
) -> Result<(Answers, Vec<u8>, Option<u64>, Mirror), Fail>
    requires short { length text.now ≤ 1000 }
    requires cut { cut ≤ length text.now }
{
    let mut mirror = Mirror::new(alloc);
    if mirror.feed(&text[..cut]).is_err() {
        return Err("no memory".into());
    }
    let answers = read_lines(&mut mirror)?;
    if !answers.may_feed {
        return Err("more lines than ten".into());
    }
    let sessions = printed(alloc, &mirror, 2000)?;
    let stops = mirror.finish();
    if mirror.feed(&text[cut..]).is_err() {
        return Err("no memory".into());
    }
    Ok((answers, sessions, stops, mirror))
}

#[test]
fn a_journal_that_is_cut_anywhere_leaves_the_same(rt: HostRuntime) -> Result<(), Fail> {
    let alloc = rt.alloc();
    for cut in 0..98 {
        let (entries, left, stops) = front(cut);
        let (answers, sessions, stopped, mut mirror) = mirror_cut(alloc, TWO, cut)?;
        assert_eq!(rt; answers.applied, entries, "{cut}");
        assert_eq!(rt; sessions.as_slice(), left, "{cut}");
        assert_eq!(rt; stopped, stops, "{cut}");
        let behind = read_lines(&mut mirror)?;
        assert_eq!(rt; behind.applied.saturating_add(entries), 2, "{cut}");
        assert_eq!(rt; printed(alloc, &mirror, 2000)?.as_slice(), BOTH, "{cut}");
    }
    Ok(())
}

#[test]
fn what_expired_at_the_moment_is_not_printed(rt: HostRuntime) -> Result<(), Fail> {
    let alloc = rt.alloc();
    let (_, _, _, mut mirror) = mirror_cut(alloc, TWO, 0)?;
    read_lines(&mut mirror)?;
    assert_eq!(rt; printed(alloc, &mirror, 1_200_999)?.as_slice(), BOTH);
    assert_eq!(rt; printed(alloc, &mirror, 1_201_000)?.as_slice(), NONE);
    Ok(())
}

#[test]
fn nothing_is_applied_from_the_first_illegal_entry_on(rt: HostRuntime) -> Result<(), Fail> {
    let alloc = rt.alloc();
    let (_, _, _, mut mirror) = mirror_cut(alloc, FOUR, 0)?;
    let answers = read_lines(&mut mirror)?;
    assert_eq!(rt; (answers.applied, answers.illegal), (2, 2));
    assert_eq!(rt; printed(alloc, &mirror, 3500)?.as_slice(), BOTH);
    let absent = Bytes::adopt(Vec::from_slice(alloc, b"/b")?);
    assert_eq!(rt; mirror.item(&absent), None);
    let present = Bytes::adopt(Vec::from_slice(alloc, b"/a")?);
    assert_eq!(rt; cookie_of(mirror.item(&present)), Some(1));
    Ok(())
}

/// The cookie of an item's lock.
fn cookie_of(item: Option<&Item>) -> Option<u64> {
    Some(item?.holder?.cookie)
}
