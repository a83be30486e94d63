//! Lines of page scripts, read from their texts.
use asp_base::{Bytes, NoMemory};
use page_script::{Line, MOST_SCRIPT_LINE, Name, PageLine, read_line};
use std::alloc::Global;
use std::test::Fail;
use visit_core::{Ending, Limits, Need};

fn is_line(alloc: Global, text: &[u8]) -> bool {
    matches!(read_line(alloc, text), Ok(Some(_)))
}

fn is_no_line(alloc: Global, text: &[u8]) -> bool {
    matches!(read_line(alloc, text), Ok(None))
}

fn is_limits(alloc: Global, text: &str, limits: Limits) -> bool {
    match read_line(alloc, text.as_bytes()) {
        Ok(Some(Line::Limits(found))) => found == limits,
        _ => false,
    }
}

fn is_step(alloc: Global, text: &str, at: u64, of: &[u8]) -> bool {
    let Some(name) = Name::read(of) else {
        return false;
    };
    match read_line(alloc, text.as_bytes()) {
        Ok(Some(found)) => found == Line::Step { moment: at, name },
        _ => false,
    }
}

fn is_same_page(page: &PageLine, name: &[u8], key: &[u8], need: Need, ending: &Ending) -> bool {
    page.name.as_slice() == name
        && page.key.as_slice() == key
        && page.need == need
        && page.ending == *ending
}

fn is_page(alloc: Global, text: &str, key: &[u8], need: Need, ending: &Ending) -> bool {
    match read_line(alloc, text.as_bytes()) {
        Ok(Some(Line::Page(page))) => is_same_page(&page, b"c", key, need, ending),
        _ => false,
    }
}

// The front, and then so many bytes `a` of a byte string.
fn with_bytes(alloc: Global, front: &[u8], bytes: usize) -> Result<Vec<u8>, NoMemory> {
    let mut text = Vec::from_slice(alloc, front)?;
    for _ in 0..bytes {
        text.extend_from_slice(b"61")?;
    }
    Ok(text)
}

#[test]
fn limits_and_steps_are_read(rt: HostRuntime) {
    let limits = Limits {
        execution_secs: 110,
        poll_ms: 500,
        polls: 2,
    };
    assert!(rt; is_limits(rt.alloc(), "limits 110 500 2", limits));
    assert!(rt; is_step(rt.alloc(), "step 111500 c", 111_500, b"c"));
}

#[test]
fn pages_that_save_nothing_are_read(rt: HostRuntime) {
    let keep = "page c x2f73 readonly keep";
    assert!(rt; is_page(rt.alloc(), keep, b"/s", Need::ReadOnly, &Ending::Keep));
    let abandon = "page c x2f73 off abandon";
    assert!(rt; is_page(rt.alloc(), abandon, b"/s", Need::Off, &Ending::Abandon));
}

/// Whether the text is a page that ends so.
fn is_saving(alloc: Global, text: &str, key: &[u8], need: Need, saved: (&[u8], u64)) -> bool {
    let (body, minutes) = saved;
    let Ok(body) = Bytes::copy(alloc, body) else {
        return false;
    };
    is_page(alloc, text, key, need, &Ending::Save { body, minutes })
}

#[test]
fn a_page_that_saves_is_read(rt: HostRuntime) {
    let text = "page c x2f73 exclusive save 20 x31";
    assert!(rt; is_saving(rt.alloc(), text, b"/s", Need::Exclusive, (b"1", 20)));
}

#[test]
fn content_may_be_empty(rt: HostRuntime) {
    let text = "page c x00ff off save 525600 x";
    assert!(rt; is_saving(rt.alloc(), text, b"\x00\xff", Need::Off, (b"", 525_600)));
}

#[test]
fn limits_may_stand_at_the_ends_of_their_ranges(rt: HostRuntime) {
    let least = Limits {
        execution_secs: 1,
        poll_ms: 1,
        polls: 1,
    };
    assert!(rt; is_limits(rt.alloc(), "limits 1 1 1", least));
    let most = Limits {
        execution_secs: 86_400,
        poll_ms: 60_000,
        polls: 1_000_000,
    };
    assert!(rt; is_limits(rt.alloc(), "limits 86400 60000 1000000", most));
}

#[test]
fn numbers_may_stand_at_the_ends_of_their_ranges(rt: HostRuntime) {
    let text = "step 4611686018427387904 abcdefghijklmnop";
    assert!(rt; is_step(rt.alloc(), text, 1 << 62, b"abcdefghijklmnop"));
    assert!(rt; is_line(rt.alloc(), b"page z x00 off save 1 x"));
}

/// Texts with other words, spaces, moments and names.
const OTHERS: &[&str] = &[
    "",
    "step",
    "stop 0 a",
    "Step 0 a",
    "step 0 a\n",
    " step 0 a",
    "step  0 a",
    "step 0  a",
    "step 0 a ",
    "step 0 ",
    "step 0 a b",
    "step 00 a",
    "step 4611686018427387905 a",
    "step 18446744073709551616 a",
    "step -1 a",
    "step 0 A",
];

#[test]
fn other_texts_are_no_lines(rt: HostRuntime) {
    for text in OTHERS {
        assert!(rt; is_no_line(rt.alloc(), text.as_bytes()), "{text:?}");
    }
}

/// Limits of which one is out of its range or spelled otherwise.
const NO_LIMITS: &[&str] = &[
    "limits 0 1 1",
    "limits 86401 1 1",
    "limits 1 0 1",
    "limits 1 60001 1",
    "limits 1 1 0",
    "limits 1 1 1000001",
    "limits 1 1",
    "limits 1 1 1 1",
    "limits 01 1 1",
    "limits 1 1 1 ",
];

#[test]
fn limits_out_of_range_are_no_lines(rt: HostRuntime) {
    for text in NO_LIMITS {
        assert!(rt; is_no_line(rt.alloc(), text.as_bytes()), "{text:?}");
    }
}

/// Pages of which one word is another.
const NO_PAGES: &[&str] = &[
    "page a x off keep",
    "page a 61 off keep",
    "page a x6 off keep",
    "page a x6A off keep",
    "page  x61 off keep",
    "page a1 x61 off keep",
    "page a x61 Off keep",
    "page a x61 off",
    "page a x61 off keep ",
    "page a x61 off keep 1",
    "page a x61 off save 0 x",
    "page a x61 off save 525601 x",
    "page a x61 off save 020 x",
    "page a x61 off save 20",
    "page a x61 off save 20 ",
];

#[test]
fn other_pages_are_no_lines(rt: HostRuntime) {
    for text in NO_PAGES {
        assert!(rt; is_no_line(rt.alloc(), text.as_bytes()), "{text:?}");
    }
}

#[test]
fn a_name_has_at_most_16_letters(rt: HostRuntime) -> Result<(), Fail> {
    let name = Name::read(b"abcdefghijklmnop").ok_or("no name")?;
    assert!(rt; name.as_slice() == b"abcdefghijklmnop".as_slice());
    assert!(rt; Name::read(b"abcdefghijklmnopq").is_none());
    Ok(())
}

#[test]
fn a_longer_name_stands_in_no_line(rt: HostRuntime) {
    assert!(rt; is_line(rt.alloc(), b"step 0 abcdefghijklmnop"));
    assert!(rt; is_no_line(rt.alloc(), b"step 0 abcdefghijklmnopq"));
    assert!(rt; is_line(rt.alloc(), b"page abcdefghijklmnop x61 off keep"));
    assert!(rt; is_no_line(rt.alloc(), b"page abcdefghijklmnopq x61 off keep"));
}

#[test]
fn names_are_equal_by_their_letters(rt: HostRuntime) -> Result<(), Fail> {
    let name = Name::read(b"ab").ok_or("no name")?;
    assert!(rt; Name::read(b"ab") == Some(name));
    assert!(rt; Name::read(b"a") != Some(name));
    assert!(rt; Name::read(b"abc") != Some(name));
    Ok(())
}

#[test]
fn a_key_has_at_most_1024_bytes(rt: HostRuntime) -> Result<(), Fail> {
    for (bytes, is) in [(1, true), (1024, true), (1025, false)] {
        let mut text = with_bytes(rt.alloc(), b"page a x", bytes)?;
        text.extend_from_slice(b" readonly keep")?;
        assert!(rt; is_line(rt.alloc(), text.as_slice()) == is);
        assert!(rt; is_no_line(rt.alloc(), text.as_slice()) != is);
    }
    Ok(())
}

#[test]
fn a_line_has_at_most_65536_bytes(rt: HostRuntime) -> Result<(), Fail> {
    let text = with_bytes(rt.alloc(), b"page a x61 off save 20 x", 32_756)?;
    assert!(rt; text.len() == MOST_SCRIPT_LINE && is_line(rt.alloc(), text.as_slice()));
    Ok(())
}

#[test]
fn a_longer_line_is_none(rt: HostRuntime) -> Result<(), Fail> {
    let text = with_bytes(rt.alloc(), b"page ab x61 off save 20 x", 32_756)?;
    assert!(rt; text.len() == MOST_SCRIPT_LINE + 1 && is_no_line(rt.alloc(), text.as_slice()));
    Ok(())
}
