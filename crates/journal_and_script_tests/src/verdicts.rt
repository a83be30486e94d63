//! Journals judged, and the lines that tell it.
use crate::replays::replay_status;
use asp_base::{Bytes, MemorySink, MemorySource};
use journal_text::{illegal_stays, legal_is_judged_legal, one_judgement};
use std::alloc::Global;

/// Whether a replay of the journal writes this line.
fn is_told(alloc: Global, journal: &str, line: &str) -> bool {
    let Ok(text) = Bytes::copy(alloc, journal.as_bytes()) else {
        return false;
    };
    let mut input = MemorySource::new(text, 16_384, Vec::new(alloc));
    let Ok(mut output) = MemorySink::new(alloc, 256, 256, Vec::new(alloc)) else {
        return false;
    };
    let _status = replay_status(alloc, 1 << 40, &mut input, &mut output);
    output.taken() == line.as_bytes()
}

/// Journals of which an entry may not stand, and what is told of them.
const ILLEGAL: &[(&str, &str)] = &[
    // A count of faults that falls comes before other reasons.
    (
        "asp-journal 1 5\n0 0 2 0 - looked : keeper-fault\n0 0 2 7 x2f61 acquire : missing\n\
        0 0 1 7 x2f61 acquire : done\n",
        "place 7 faults 2 found 1\n",
    ),
    // A cookie that comes back is told with the greatest before.
    (
        "asp-journal 1 0\n0 0 0 9 x2f61 acquire : missing\n0 0 0 0 x2f62 acquire : cookies-out\n\
        0 0 0 9 x2f62 acquire : done\n0 0 0 0 - looked : keeper-fault\n",
        "place 2 cookie above 9 found 9\n",
    ),
    // The last place and the last cookie are named.
    (
        "asp-journal 1 9223372036854775806\n0 0 0 9223372036854775807 x2f61 acquire : no-memory\n\
        0 0 0 1 x2f61 acquire : missing\n",
        "place 9223372036854775807 cookie above 9223372036854775807 found 1\n",
    ),
    // Want of memory leaves the item.
    (
        "asp-journal 1 0\n0 0 0 0 - looked : no-memory\n0 0 0 0 x2f61 write 0 20 1 x78 : done\n\
        0 0 0 0 x2f61 remove 0 : no-memory\n0 0 0 0 x2f61 read : found 0 20 0 x78\n",
        "place 3 expected found 0 20 1 x78 found found 0 20 0 x78\n",
    ),
    // The item of a key lives from its making to its removal.
    (
        "asp-journal 1 0\n0 0 0 0 x2f61 write 0 20 1 x78 : done\n0 0 0 0 x2f62 read : missing\n\
        0 5 0 3 x2f61 acquire : found 3 20 1 x78\n0 5 0 0 x2f61 reset : done\n\
        0 2005 0 0 x2f61 release 2 : locked 3 2\n0 2005 0 0 x2f61 write 3 20 0 x78 : done\n\
        0 2005 0 0 x2f61 read : found 0 20 0 x78\n0 2005 0 0 x2f61 remove 0 : done\n\
        0 2005 0 0 x2f61 remove 0 : missing\n0 2005 0 0 x2f61 release 3 : done\n",
        "place 9 expected missing found done\n",
    ),
];

#[test]
fn the_first_entry_that_may_not_stand_is_told(rt: HostRuntime) {
    for (journal, line) in ILLEGAL {
        assert!(rt; is_told(rt.alloc(), journal, line), "{line}");
    }
}

/// Legal journals, and what is told of them.
const LEGAL: &[(&str, &str)] = &[
    // A fault of the keeper is right where the count rose, and where it stands at its end.
    (
        "asp-journal 1 0\n0 0 1 0 x2f61 write 0 20 0 x78 : keeper-fault\n\
        0 0 1 0 x2f61 read : missing\n0 0 18446744073709551615 0 - looked : keeper-fault\n\
        0 0 18446744073709551615 0 x2f61 read : keeper-fault\n",
        "legal 4\n",
    ),
    ("asp-journal 1 9223372036854775806\n", "legal 0\n"),
];

#[test]
fn a_legal_journal_is_told_with_its_length(rt: HostRuntime) {
    for (journal, line) in LEGAL {
        assert!(rt; is_told(rt.alloc(), journal, line), "{line}");
    }
}

#[test]
fn the_laws_of_judgements_are_called(_rt: HostRuntime) {
    one_judgement();
    legal_is_judged_legal();
    illegal_stays();
}
