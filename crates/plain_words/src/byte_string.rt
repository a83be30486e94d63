//! Byte strings: `x`, and two lower-case hexadecimal digits for each byte.
ghost use Rattle.std.specs.Prelude.{◌≡◌, IfOk};
ghost use Rattle.std.specs.List.{list_any};
ghost use Rattle.plain_words.specs.Words.{ReadsAs, IsByteString};
ghost use Rattle.plain_words.specs.Digits.{is_upper};

use asp_base::{Bytes, NoMemory};
use hex::FromHexError;
use std::alloc::Global;

fn has_upper(digits: &[u8]) -> bool
    ensures { result ≡ list_any is_upper digits.now }
{
    digits.iter().any(|digit| b'A' <= *digit && *digit <= b'F')
}

/// The bytes that the text spells, at most `most` of them; `None` exactly where it is no byte
/// string of at most so many. The only error is to be out of memory for them.
pub fn read_byte_string(alloc: Global, text: &[u8], most: usize) -> Result<Option<Bytes>, NoMemory>
    ensures { IfOk result (ReadsAs (IsByteString text.now most)) }
{
    if text.is_empty() || text[0] != b'x' {
        return Ok(None);
    }
    let digits = &text[1..];
    if digits.len() / 2 > most || has_upper(digits) {
        return Ok(None);
    }
    match hex::decode(alloc, digits) {
        Ok(bytes) => Ok(Some(Bytes::adopt(bytes))),
        Err(error) => match error {
            FromHexError::OutOfMemory => Err(NoMemory),
            _ => Ok(None),
        },
    }
}
