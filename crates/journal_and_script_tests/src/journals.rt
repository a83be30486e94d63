//! Texts of journals, read and written.
use crate::journal_reading::read_again;
use asp_base::Bytes;
use asp_messages::Reply;
use journal_text::{JournalNext, JournalReader, MOST_PIECE, write_entry, write_head};
use session_machine::{Deed, Entry, Profile};
use std::alloc::Global;
use std::test::Fail;

/// Whether the text is a journal, which is written again as it was read.
fn is_written_again(alloc: Global, text: &[u8], size: usize) -> bool {
    match read_again(alloc, text, size) {
        Ok(again) => again.stops.is_none() && again.lines.as_slice() == text,
        Err(_) => false,
    }
}

/// The journal whose third entry is illegal.
const THREE: &str = "asp-journal 1 0\n0 0 0 0 x2f61 write 0 20 0 x78 : done\n\
    0 1000 0 1 x2f61 acquire : found 1 20 0 x78\n0 2000 0 0 x2f61 write 0 20 0 x79 : done\n";

#[test]
fn the_journal_of_three_entries_is_read_and_written(rt: HostRuntime) {
    assert!(rt; is_written_again(rt.alloc(), THREE.as_bytes(), 1));
}

/// Each kind of line, with numbers at the ends of their ranges.
const KINDS: &[&str] = &[
    "asp-journal 1 9223372036854775806\n",
    "9223372036854775807 4611686018427387904 18446744073709551615 9223372036854775807 x00ff ",
    "acquire : locked 9223372036854775807 4611686018427387904\n",
    "0 0 0 0 x61 read : missing\n",
    "0 0 0 0 x61 release 0 : locked 0 0\n",
    "0 0 0 0 x61 write 7 525600 1 x : no-memory\n",
    "0 0 0 0 x61 remove 0 : keeper-fault\n",
    "0 0 0 0 x61 reset : done\n",
    "0 0 0 0 x61 acquire : cookies-out\n",
    "0 0 0 0 x61 read : found 0 1 1 x\n",
    "0 0 0 0 x61 expired : done\n",
    "0 0 0 0 - looked : keeper-fault\n",
];

/// Journals of profiles 2 and 3, which alone tells when a lock was acquired, or that it isn't told.
const LATER_KINDS: &[&str] = &[
    "asp-journal 2 0\n0 0 0 0 x61 read : locked 1 1\n0 0 0 0 x61 read : found 0 1 1 x\n",
    "asp-journal 3 9223372036854775806\n\
        0 0 0 9223372036854775807 x00ff acquire : \
        locked 9223372036854775807 0 4611686018427387904\n\
        0 0 0 0 x61 read : locked 1 4611686018427387904 0\n\
        0 0 0 0 x61 release 0 : locked 0 0 -\n0 0 0 0 x61 read : found 1 20 0 x78\n",
];

#[test]
fn each_kind_of_line_is_read_and_written(rt: HostRuntime) -> Result<(), Fail> {
    let mut text = Vec::new(rt.alloc());
    for line in KINDS {
        text.extend_from_slice(line.as_bytes())?;
    }
    assert!(rt; is_written_again(rt.alloc(), text.as_slice(), MOST_PIECE));
    for text in LATER_KINDS {
        assert!(rt; is_written_again(rt.alloc(), text.as_bytes(), 1), "{text}");
    }
    Ok(())
}

/// Where the text stops being a journal, read in pieces of this size.
fn stop_of(alloc: Global, text: &[u8], size: usize) -> Option<u64> {
    match read_again(alloc, text, size) {
        Ok(again) => again.stops,
        Err(_) => None,
    }
}

/// Whether the text stops there, whatever the pieces.
fn stops(alloc: Global, text: &[u8], offset: u64) -> bool {
    stop_of(alloc, text, 1) == Some(offset) && stop_of(alloc, text, MOST_PIECE) == Some(offset)
}

/// Texts that stop at their first line.
const NO_HEADS: &[&str] = &[
    "",
    "asp-journal 1 0",
    "asp-journal 1 00\n",
    "asp-journal 1 9223372036854775807\n",
    "asp-journal 0 0\n",
    "asp-journal 4 0\n",
    "asp-journal 03 0\n",
    "asp-journal 3\n",
    "asp-journal 1  0\n",
    "asp-journal 1 0 \n",
    "0 0 0 0 x61 read : missing\n",
];

#[test]
fn a_text_stops_at_a_first_line_that_is_none(rt: HostRuntime) {
    for text in NO_HEADS {
        assert!(rt; stops(rt.alloc(), text.as_bytes(), 0), "{text}");
    }
}

/// Whether the text stops there behind the first line, of 16 bytes.
fn stops_behind(alloc: Global, head: &str, entries: &str, offset: u64) -> bool {
    let Ok(mut text) = Vec::from_slice(alloc, head.as_bytes()) else {
        return false;
    };
    text.extend_from_slice(entries.as_bytes()).is_ok() && stops(alloc, text.as_slice(), offset)
}

/// Whether the text stops there behind the first line `asp-journal 1 0`.
fn stops_behind_head(alloc: Global, entries: &str, offset: u64) -> bool {
    stops_behind(alloc, "asp-journal 1 0\n", entries, offset)
}

/// What is no line of an entry: its words, its spaces and its end.
const NO_LINES: &[&str] = &[
    "asp-journal 1 0\n",
    "\n",
    "0 0 0 0 x61 read : missing",
    "0 0 0 0 x61 read : missing\r\n",
    "0 0 0 0 x61 read : bad\n",
    "0 0 0 0 x61 read : places-out\n",
    "0 0 0 0 x61 read: missing\n",
];

/// What is no line of an entry: its numbers and its key.
const NO_NUMBERS: &[&str] = &[
    "9223372036854775808 0 0 0 x61 read : missing\n",
    "0 4611686018427387905 0 0 x61 read : missing\n",
    "0 0 18446744073709551616 0 x61 read : missing\n",
    "00 0 0 0 x61 read : missing\n",
    "0 0 0 1 x61 read : missing\n",
    "0 0 0 0 x read : missing\n",
    "0 0 0 0 x6 read : missing\n",
    "0 0 0 0 x6A read : missing\n",
];

/// What is no line of an entry: what was done, and how it was answered.
const NO_DEEDS: &[&str] = &[
    "0 0 0 0 x61 expired : missing\n",
    "0 0 0 0 x61 looked : done\n",
    "0 0 0 0 - read : missing\n",
    "0 0 0 0 - looked : missing\n",
    "0 0 0 0 x61 write 0 0 0 x : done\n",
    "0 0 0 0 x61 release 9223372036854775808 : done\n",
];

#[test]
fn a_text_stops_at_its_first_wrong_line(rt: HostRuntime) {
    for entries in NO_LINES {
        assert!(rt; stops_behind_head(rt.alloc(), entries, 16), "{entries}");
    }
}

#[test]
fn a_text_stops_at_a_number_out_of_its_range(rt: HostRuntime) {
    for entries in NO_NUMBERS {
        assert!(rt; stops_behind_head(rt.alloc(), entries, 16), "{entries}");
    }
}

#[test]
fn a_text_stops_at_what_cannot_have_been_done(rt: HostRuntime) {
    for entries in NO_DEEDS {
        assert!(rt; stops_behind_head(rt.alloc(), entries, 16), "{entries}");
    }
}

/// Locks that are told with the moment of their acquisition, or say that it isn't told.
const DATED: &[&str] = &[
    "0 0 0 0 x61 read : locked 1 1 1000\n",
    "0 0 0 0 x61 read : locked 1 1 -\n",
];

/// Locks that are told otherwise than profile 3 tells them.
const NOT_DATED: &[&str] = &[
    "0 0 0 0 x61 read : locked 1 1\n",
    "0 0 0 0 x61 read : locked 1 1 \n",
    "0 0 0 0 x61 read : locked 1 1 01000\n",
    "0 0 0 0 x61 read : locked 1 1 4611686018427387905\n",
    "0 0 0 0 x61 read : locked 1 1 - -\n",
];

#[test]
fn a_moment_of_a_lock_is_told_in_profile_3_alone(rt: HostRuntime) {
    for entries in DATED {
        for head in ["asp-journal 1 0\n", "asp-journal 2 0\n"] {
            assert!(rt;
                stops_behind(rt.alloc(), head, entries, 16),
                "{head}{entries}"
            );
        }
    }
    for entries in NOT_DATED {
        let head = "asp-journal 3 0\n";
        assert!(rt; stops_behind(rt.alloc(), head, entries, 16), "{entries}");
    }
}

#[test]
fn a_text_stops_at_a_last_line_that_is_cut(rt: HostRuntime) {
    assert!(rt; stops_behind_head(rt.alloc(), "0 0 0 0 x61 read : missing\n0", 43));
}

#[test]
fn an_entry_is_written_in_the_order_of_the_format(rt: HostRuntime) -> Result<(), Fail> {
    let mut out = Vec::new(rt.alloc());
    write_head(&mut out, Profile::Three, 7)?;
    let entry = Entry {
        caller: 1,
        moment: 2,
        deed: Deed::Expired(Bytes::copy(rt.alloc(), b"/a")?),
        drawn: 0,
        reply: Reply::Done,
        faults: 3,
    };
    write_entry(&mut out, Profile::Three, &entry)?;
    assert_eq!(rt;
        out.as_slice(),
        b"asp-journal 3 7\n1 2 3 0 x2f61 expired : done\n".as_slice()
    );
    Ok(())
}

/// What the reader answers next, by a name.
fn told(reader: &mut JournalReader) -> &'static str {
    match reader.next() {
        JournalNext::Head {
            profile: Profile::One,
            place: 0,
        } => "head of profile 1 and place 0",
        JournalNext::Entry(_) => "entry",
        JournalNext::More => "more",
        _ => "another",
    }
}

#[test]
fn a_reader_is_asked_line_by_line(rt: HostRuntime) -> Result<(), Fail> {
    let mut reader = JournalReader::new(rt.alloc());
    reader.feed(b"asp-journal 1 0\n0 0 0 0 x61 read : missing\n")?;
    assert_eq!(rt; told(&mut JournalReader::new(rt.alloc())), "more");
    assert_eq!(rt; reader.profile(), None);
    assert_eq!(rt; told(&mut reader), "head of profile 1 and place 0");
    assert_eq!(rt; reader.profile(), Some(Profile::One));
    assert_eq!(rt; told(&mut reader), "entry");
    Ok(())
}
