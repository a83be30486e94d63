//! Texts appended to a buffer. A call that runs out of memory leaves what was there, with some of
//! its text behind it, and `or_undo` takes that off again.
ghost use Rattle.std.specs.Prelude.{◌≡◌, ◌++◌, length, codes, decimal, take, OnOk, OnErr, is_ok, if◌then◌else◌};
ghost use Rattle.hex.specs.Hex.{encode_lower};
ghost use Rattle.asp_messages.specs.Appending.{Extends};
ghost use Rattle.asp_messages.specs.PlainSpelling.{◌then◌};
ghost use Rattle.asp_messages.specs.ReplyText.{http_line, number_line};

use asp_base::NoMemory;
use itoa::Buffer;

/// Appends a text. After want of memory the buffer holds what it held and maybe more.
pub fn push(out: &mut Vec<u8>, text: &[u8]) -> Result<(), NoMemory>
    ensures ok { OnOk result (out.new.items ≡ out.old.items ++ text.now) }
    ensures err { OnErr result (Extends out.old.items out.new.items) }
{
    out.extend_from_slice(text)?;
    Ok(())
}

/// Appends a number in decimal.
pub fn push_number(out: &mut Vec<u8>, n: u64) -> Result<(), NoMemory>
    ensures ok { OnOk result (out.new.items ≡ out.old.items ++ decimal n) }
    ensures err { OnErr result (Extends out.old.items out.new.items) }
{
    let mut buffer = Buffer::new();
    push(out, buffer.format(n).as_bytes())
}

/// Appends a space and a number in decimal.
pub fn then_number(out: &mut Vec<u8>, n: u64) -> Result<(), NoMemory>
    ensures ok { OnOk result (out.new.items ≡ out.old.items then decimal n) }
    ensures err { OnErr result (Extends out.old.items out.new.items) }
{
    push(out, b" ")?;
    push_number(out, n)
}

/// Appends the bytes in lower hexadecimal, two digits each.
pub fn push_hex(out: &mut Vec<u8>, bytes: &[u8]) -> Result<(), NoMemory>
    ensures ok { OnOk result (out.new.items ≡ out.old.items ++ encode_lower bytes.now) }
    ensures err { OnErr result (Extends out.old.items out.new.items) }
{
    let start = out.len();
    let Some(end) = bytes
        .len()
        .checked_mul(2)
        .and_then(|len| start.checked_add(len))
    else {
        return Err(NoMemory);
    };
    out.resize(end, 0)?;
    match hex::encode_to_slice(bytes, &mut out.as_mut_slice()[start..]) {
        Ok(()) => Ok(()),
        Err(_) => unreachable!(),
    }
}

/// Appends a line of a head.
pub fn push_line(out: &mut Vec<u8>, text: &[u8]) -> Result<(), NoMemory>
    ensures ok { OnOk result (out.new.items ≡ out.old.items ++ http_line text.now) }
    ensures err { OnErr result (Extends out.old.items out.new.items) }
{
    push(out, text)?;
    push(out, b"\r\n")
}

/// Appends a field with a number.
pub fn push_number_line(out: &mut Vec<u8>, name: &[u8], n: u64) -> Result<(), NoMemory>
    ensures ok { OnOk result (out.new.items ≡ out.old.items ++ number_line name.now n) }
    ensures err { OnErr result (Extends out.old.items out.new.items) }
{
    push(out, name)?;
    push(out, b": ")?;
    push_number(out, n)?;
    push(out, b"\r\n")
}

/// After a failure, takes off what was appended since the buffer had this length.
pub fn or_undo(written: Result<(), NoMemory>, out: &mut Vec<u8>, len: usize) -> Result<(), NoMemory>
    ensures result { result ≡ written }
    ensures items { out.new.items ≡ (if is_ok written then out.old.items else
        take len out.old.items) }
{
    if written.is_err() {
        out.truncate(len);
    }
    written
}
