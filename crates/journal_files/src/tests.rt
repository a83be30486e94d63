//! When a gathering sink hands on what, and the files of a folder.
use crate::{GATHERED, GatheringSink, NotMade, make_shard_files, remove_shard_files};
use asp_base::{Failed, MemorySink, NoMemory, Sink, write_whole};
use std::alloc::Global;
use std::rt::Clock as HostTime;
use std::sync::atomic::{AtomicU64, Ordering};
use std::test::Fail;
use std::time::Duration;
use std::{fs, io};

/// A clock that is set by hand, in milliseconds.
#[derive(Drop)]
struct HandClock {
    now: AtomicU64,
}

impl HandClock {
    fn new() -> HandClock {
        HandClock {
            now: AtomicU64::new(0),
        }
    }

    fn pass(&self, milliseconds: u64) {
        self.now.fetch_add(milliseconds, Ordering::SeqCst);
    }
}

impl HostTime for HandClock {
    fn monotonic(&self) -> io::Result<Duration> {
        Ok(Duration::from_millis(self.now.load(Ordering::SeqCst)))
    }

    fn since_1970(&self) -> io::Result<Duration> {
        self.monotonic()
    }
}

/// A sink that gathers before one in memory, which fails the listed writes.
fn gathering<'a>(
    alloc: Global,
    clock: &'a HandClock,
    fails: &[u64],
) -> Result<GatheringSink<'a, MemorySink, HandClock>, Fail> {
    let fails = Vec::from_slice(alloc, fails)?;
    let Ok(inner) = MemorySink::new(alloc, 100_000, 1 << 20, fails) else {
        return Err("no memory".into());
    };
    match GatheringSink::new(alloc, inner, clock) {
        Ok(sink) => Ok(sink),
        Err(NoMemory) => Err("no memory".into()),
    }
}

/// How many bytes the sink behind took.
fn handed_on(sink: GatheringSink<'_, MemorySink, HandClock>) -> usize {
    sink.into_inner().taken().len()
}

/// What comes first is handed on at once, and what comes less than a tenth of a second later waits.
#[test]
fn what_comes_soon_waits(rt: HostRuntime) -> Result<(), Fail> {
    let clock = HandClock::new();
    let mut sink = gathering(rt.alloc(), &clock, &[])?;
    assert_eq!(rt; write_whole(&mut sink, b"first"), Ok(()));
    clock.pass(99);
    assert_eq!(rt; write_whole(&mut sink, b"second"), Ok(()));
    assert_eq!(rt; handed_on(sink), 5);
    Ok(())
}

#[test]
fn a_tenth_of_a_second_later_all_is_handed_on(rt: HostRuntime) -> Result<(), Fail> {
    let clock = HandClock::new();
    let mut sink = gathering(rt.alloc(), &clock, &[])?;
    assert_eq!(rt; write_whole(&mut sink, b"first"), Ok(()));
    assert_eq!(rt; write_whole(&mut sink, b"second"), Ok(()));
    clock.pass(100);
    assert_eq!(rt; write_whole(&mut sink, b"third"), Ok(()));
    assert!(rt; sink.into_inner().taken() == b"firstsecondthird".as_slice());
    Ok(())
}

/// Under load there is one call for 16,384 bytes: the first hands on one byte, the others a full
/// room.
#[test]
fn a_full_room_is_handed_on_in_one_call(rt: HostRuntime) -> Result<(), Fail> {
    let clock = HandClock::new();
    let mut sink = gathering(rt.alloc(), &clock, &[1])?;
    assert_eq!(rt; write_whole(&mut sink, b"x"), Ok(()));
    let half = [b'y'; 8_192];
    assert_eq!(rt; write_whole(&mut sink, &half), Ok(()));
    assert_eq!(rt; write_whole(&mut sink, &half), Ok(()));
    // The second call fails, and nothing is lost.
    assert_eq!(rt; sink.write(&half), Err(Failed));
    assert_eq!(rt; sink.write(&half), Ok(8_192));
    assert_eq!(rt; handed_on(sink), 1 + GATHERED);
    Ok(())
}

/// A failure that comes before there is no room for more is not told: what waits is handed on
/// later.
#[test]
fn a_failure_that_passes_is_not_told(rt: HostRuntime) -> Result<(), Fail> {
    let clock = HandClock::new();
    let mut sink = gathering(rt.alloc(), &clock, &[0])?;
    assert_eq!(rt; sink.write(b"first"), Ok(5));
    assert_eq!(rt; sink.hand_on(), Ok(()));
    assert_eq!(rt; handed_on(sink), 5);
    Ok(())
}

fn content_of(rt: &HostRuntime, path: &str) -> Result<usize, Fail> {
    Ok(fs::read(rt, path)?.len())
}

/// The files are made, and what they take stands in them.
#[test]
fn files_are_made_and_written(rt: HostRuntime) -> Result<(), Fail> {
    let Ok(files) = make_shard_files(&rt, rt.alloc(), ".", 2) else {
        return Err("no files".into());
    };
    assert_eq!(rt; files.len(), 2);
    for mut file in files {
        assert_eq!(rt; write_whole(&mut file, b"asp-journal"), Ok(()));
        assert_eq!(rt; file.hand_on(), Ok(()));
    }
    assert_eq!(rt; content_of(&rt, "shard-0.journal")?, 11);
    assert_eq!(rt; content_of(&rt, "shard-1.journal")?, 11);
    remove_shard_files(&rt, rt.alloc(), ".", 2);
    assert!(rt; fs::read(&rt, "shard-0.journal").is_err());
    assert!(rt; fs::read(&rt, "shard-1.journal").is_err());
    Ok(())
}

/// A file that is there stays, and those made before it was met are gone.
#[test]
fn a_file_that_is_there_stays(rt: HostRuntime) -> Result<(), Fail> {
    fs::create_dir(&rt, "kept")?;
    fs::write(&rt, "kept/shard-2.journal", "before")?;
    let made = make_shard_files(&rt, rt.alloc(), "kept", 8);
    assert!(rt; matches!(made, Err(NotMade::Refused)));
    assert_eq!(rt; content_of(&rt, "kept/shard-2.journal")?, 6);
    for name in [
        "kept/shard-0.journal",
        "kept/shard-1.journal",
        "kept/shard-3.journal",
    ] {
        assert!(rt; fs::read(&rt, name).is_err(), "{name}");
    }
    assert!(rt;
        matches!(
            make_shard_files(&rt, rt.alloc(), "no-folder", 8),
            Err(NotMade::Refused)
        )
    );
    Ok(())
}
