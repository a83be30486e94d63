use crate::{Id, read_hex};
use std::test::Fail;

// The bytes in hexadecimal, and the text that they have.
const ROWS: [(&[u8], &[u8]); 7] = [
    (
        b"000000000000000000000000000000",
        b"aaaaaaaaaaaaaaaaaaaaaaaa",
    ),
    (
        b"010000000000000000000000000000",
        b"baaaaaaaaaaaaaaaaaaaaaaa",
    ),
    (
        b"000000000100000000000000000000",
        b"aaaaaaeaaaaaaaaaaaaaaaaa",
    ),
    (
        b"000000000001000000000000000000",
        b"aaaaaaaabaaaaaaaaaaaaaaa",
    ),
    (
        b"00112233445566778899aabbccddee",
        b"aieeszqivszohegtk3oz2o13",
    ),
    (
        b"ffffffffffffffffffffffffffffff",
        b"555555555555555555555555",
    ),
    (
        b"FFFFFFFFFFffffffffffFfFfFfFfFf",
        b"555555555555555555555555",
    ),
];

#[test]
fn bytes_have_the_text_of_their_number(rt: HostRuntime) -> Result<(), Fail> {
    for (digits, text) in ROWS {
        let bytes = read_hex(digits).ok_or("no bytes")?;
        let id = Id::from_random(bytes);
        assert_eq!(rt; id.text().as_slice(), text);
        assert!(rt; Id::read(text) == Some(id));
        assert!(rt; id.bytes() == bytes);
    }
    Ok(())
}

#[test]
fn other_texts_do_not_read(rt: HostRuntime) {
    let texts: [&[u8]; 6] = [
        b"",
        b"aaaaaaaaaaaaaaaaaaaaaaa",
        b"aaaaaaaaaaaaaaaaaaaaaaa6",
        b"aaaaaaaaaaaaaaaaaaaaaaaA",
        b"aaaaaaaaaaaaaaaaaaaaaaa`",
        b"aaaaaaaaaaaaaaaaaaaaaaaaa",
    ];
    for text in texts {
        assert!(rt; Id::read(text).is_none());
    }
}

#[test]
fn other_digits_do_not_read(rt: HostRuntime) {
    let texts: [&[u8]; 5] = [
        b"",
        b"00",
        b"00000000000000000000000000000",
        b"0000000000000000000000000000000",
        b"00000000000000000000000000000g",
    ];
    for text in texts {
        assert!(rt; read_hex(text).is_none());
    }
}

#[test]
fn displays_its_text(rt: HostRuntime) -> Result<(), Fail> {
    let id = Id::from_random([0; 15]);
    let text = format!(in rt.alloc(); "{id}")?;
    assert_eq!(rt; text.as_str(), "aaaaaaaaaaaaaaaaaaaaaaaa");
    Ok(())
}
