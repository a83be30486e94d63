//! The words of the plain spelling: numbers, byte strings, flags, and texts cut at a byte.
use asp_base::Bytes;
use plain_words::{read_byte_string, read_flag, read_plain_number, split_at_byte, split_word};
use std::test::Fail;

#[test]
fn numbers_have_no_leading_zeros(rt: HostRuntime) {
    assert_eq!(rt; read_plain_number(b"0", 9), Some(0));
    assert_eq!(rt; read_plain_number(b"00", 9), None);
    assert_eq!(rt; read_plain_number(b"07", 9), None);
    assert_eq!(rt; read_plain_number(b"", 9), None);
    assert_eq!(rt; read_plain_number(b"10", 10), Some(10));
    assert_eq!(rt; read_plain_number(b"11", 10), None);
    assert_eq!(rt;
        read_plain_number(b"18446744073709551615", u64::MAX),
        Some(u64::MAX)
    );
    assert_eq!(rt; read_plain_number(b"18446744073709551616", u64::MAX), None);
}

#[test]
fn byte_strings_have_lower_case_digits(rt: HostRuntime) -> Result<(), Fail> {
    let alloc = rt.alloc();
    assert_eq!(rt;
        read_byte_string(alloc, b"x2f61", 2)?,
        Some(Bytes::copy(alloc, b"/a")?)
    );
    assert_eq!(rt;
        read_byte_string(alloc, b"x", 0)?,
        Some(Bytes::copy(alloc, b"")?)
    );
    assert_eq!(rt; read_byte_string(alloc, b"x2F61", 2)?, None);
    assert_eq!(rt; read_byte_string(alloc, b"x2f6", 2)?, None);
    assert_eq!(rt; read_byte_string(alloc, b"x2f61", 1)?, None);
    assert_eq!(rt; read_byte_string(alloc, b"2f61", 2)?, None);
    assert_eq!(rt; read_byte_string(alloc, b"x2g", 2)?, None);
    Ok(())
}

#[test]
fn flags_are_one_digit(rt: HostRuntime) {
    assert_eq!(rt; read_flag(b"0"), Some(false));
    assert_eq!(rt; read_flag(b"1"), Some(true));
    assert_eq!(rt; read_flag(b"2"), None);
    assert_eq!(rt; read_flag(b"01"), None);
}

#[test]
fn words_end_at_the_first_space(rt: HostRuntime) -> Result<(), Fail> {
    let (word, rest) = split_word(b"locked 1 1").ok_or("no space")?;
    assert_eq!(rt; word, b"locked".as_slice());
    assert_eq!(rt; rest, b"1 1".as_slice());
    assert!(rt; split_word(b"done").is_none());
    let (ask, reply) = split_at_byte(b"reset : done", b':').ok_or("no colon")?;
    assert_eq!(rt; ask, b"reset ".as_slice());
    assert_eq!(rt; reply, b" done".as_slice());
    Ok(())
}
