//! A word that spells bytes by hexadecimal digits, judged without memory and read.
ghost use Rattle.std.specs.Prelude.{◌≡◌, ◌≤◌, IfOk, IfSome, MatchOption, Some, None, is_some, length};
ghost use Rattle.std.specs.List.{list_all};
ghost use Rattle.visit_command.specs.VisitWords.{is_digit, are_digits, byte_string};

use asp_base::{Bytes, NoMemory};
use std::alloc::Global;

fn all_digits(digits: &[u8]) -> bool
    ensures { result ≡ list_all is_digit digits.now }
{
    digits.iter().all(|c| (b'0' <= *c && *c <= b'9') || (b'a' <= *c && *c <= b'f'))
}

fn are_digits(digits: &[u8], most: usize) -> bool
    ensures { result ≡ are_digits digits.now most }
{
    digits.len() / 2 <= most && digits.len() % 2 == 0 && all_digits(digits)
}

/// Whether the word spells bytes, at most `most`. It takes no memory.
#[tactic(auto, unfolding(crate::specs::VisitWords::byte_string))]
pub fn is_byte_string(word: &[u8], most: usize) -> bool
    ensures { result ≡ is_some (byte_string word.now most) }
{
    let [letter, digits @ ..] = word else {
        return false;
    };
    *letter == b'x' && are_digits(digits, most)
}

/// The bytes that the word spells, at most `most`; `None` exactly where it spells none. The only
/// error is want of memory.
#[tactic(auto, unfolding(crate::specs::VisitWords::byte_string))]
pub fn read_hex_word(alloc: Global, word: &[u8], most: usize) -> Result<Option<Bytes>, NoMemory>
    ensures value { IfOk result (λ bytes. bytes ≡ byte_string word.now most) }
    ensures short { IfOk result (λ bytes. IfSome bytes (λ b. length b ≤ most)) }
{
    let [letter, digits @ ..] = word else {
        return Ok(None);
    };
    if *letter != b'x' || !are_digits(digits, most) {
        return Ok(None);
    }
    match hex::decode(alloc, digits) {
        Ok(bytes) => Ok(Some(Bytes::adopt(bytes))),
        Err(_) => Err(NoMemory),
    }
}

/// The bytes that the word spells, read into the room, as many as fit it; `None` exactly where it
/// spells none. It takes no memory.
#[tactic(auto, unfolding(crate::specs::VisitWords::byte_string))]
pub fn byte_string_in<'a>(word: &[u8], room: &'a mut [u8]) -> Option<&'a [u8]>
    ensures { MatchOption result (byte_string word.now (length room.old) ≡ None)
        (λ bytes. byte_string word.now (length room.old) ≡ Some bytes.now) }
{
    let [letter, digits @ ..] = word else {
        return None;
    };
    if *letter != b'x' || !are_digits(digits, room.len()) {
        return None;
    }
    let bytes = &mut room[..digits.len() / 2];
    match hex::decode_to_slice(digits, bytes) {
        Ok(()) => Some(bytes),
        Err(_) => None,
    }
}
