//! The words of `visit`.
ghost use Rattle.std.specs.Prelude.{◌≡◌, Some, None, is_some, map, string_bytes, IfOk, IfSome, MatchOption, length};
ghost use Rattle.asp_messages.specs.Ranges.{KeyFits, MinutesFit};
ghost use Rattle.visit_core.specs.Terms.{EndingFits};
ghost use Rattle.visit_command.specs.VisitWords.{key_of, need_of, minutes_of, bare_ending, ending_of, visit_of, port_in, PageWordsFit};

use crate::hex_word::{byte_string_in, is_byte_string, read_hex_word};
use crate::server_port::{port_for, read_ports};
use asp_base::{Bytes, NoMemory, read_number};
use asp_messages::{MOST_BODY, MOST_KEY, MOST_MINUTES};
use std::alloc::Global;
use visit_core::{Ending, Need};

/// What the words of `visit` say.
#[derive(Debug, Drop)]
pub struct PageWords {
    /// The port, on the machine itself, of the server that has the session, 1 to 65,535.
    pub port: u64,
    /// The session's key, 1 to 1,024 bytes.
    pub key: Bytes,
    /// What the page needs of the session.
    pub need: Need,
    /// How the page ends.
    pub ending: Ending,
}

fn need_of(word: &str) -> Option<Need>
    ensures { result ≡ need_of word.now }
{
    if word == "exclusive" {
        return Some(Need::Exclusive);
    }
    if word == "readonly" {
        return Some(Need::ReadOnly);
    }
    if word == "off" {
        return Some(Need::Off);
    }
    None
}

fn minutes_of(word: &[u8]) -> Option<u64>
    ensures value { result ≡ minutes_of word.now }
    ensures fits { IfSome result MinutesFit }
{
    if !word.is_empty() && word[0] == b'0' {
        return None;
    }
    let minutes = read_number(word, MOST_MINUTES)?;
    if minutes > 0 { Some(minutes) } else { None }
}

/// The key that the word spells, read into the room, without memory.
fn key_in<'a>(word: &[u8], room: &'a mut [u8]) -> Option<&'a [u8]>
    requires { length room.old ≡ MOST_KEY }
    ensures { MatchOption result (key_of word.now ≡ None) (λ key. key_of word.now ≡ Some key.now) }
{
    let key = byte_string_in(word, room)?;
    if key.is_empty() { None } else { Some(key) }
}

fn read_key(alloc: Global, word: &[u8]) -> Result<Option<Bytes>, NoMemory>
    ensures value { IfOk result (λ key. key ≡ key_of word.now) }
    ensures fits { IfOk result (λ key. IfSome key KeyFits) }
{
    match read_hex_word(alloc, word, MOST_KEY)? {
        Some(key) if !key.as_slice().is_empty() => Ok(Some(key)),
        _ => Ok(None),
    }
}

fn bare_ending(word: &str) -> Option<Ending>
    ensures value { result ≡ bare_ending word.now }
    ensures fits { IfSome result EndingFits }
{
    if word == "keep" {
        return Some(Ending::Keep);
    }
    if word == "abandon" {
        return Some(Ending::Abandon);
    }
    None
}

#[tactic(auto, unfolding(crate::specs::VisitWords::ending_of))]
fn is_ending(words: &[String]) -> bool
    ensures { result ≡ is_some (ending_of (map string_bytes words.now)) }
{
    match words {
        [word] => bare_ending(word.as_str()).is_some(),
        [name, minutes, body] => {
            name.as_str() == "save"
                && minutes_of(minutes.as_bytes()).is_some()
                && is_byte_string(body.as_bytes(), MOST_BODY as usize)
        }
        _ => false,
    }
}

#[tactic(auto, unfolding(crate::specs::VisitWords::ending_of))]
fn read_ending(alloc: Global, words: &[String]) -> Result<Option<Ending>, NoMemory>
    ensures value { IfOk result (λ ending. ending ≡ ending_of (map string_bytes words.now)) }
    ensures fits { IfOk result (λ ending. IfSome ending EndingFits) }
{
    match words {
        [word] => Ok(bare_ending(word.as_str())),
        [name, minutes, body] => {
            if name.as_str() != "save" {
                return Ok(None);
            }
            let Some(minutes) = minutes_of(minutes.as_bytes()) else {
                return Ok(None);
            };
            match read_hex_word(alloc, body.as_bytes(), MOST_BODY as usize)? {
                Some(body) => Ok(Some(Ending::Save { body, minutes })),
                None => Ok(None),
            }
        }
        _ => Ok(None),
    }
}

/// The port in the words of `visit PORT KEY NEED ENDING`: of the ports in PORT, which are joined by
/// commas, that of the server that has the session of the key. `None` exactly where the words are
/// none of `visit`. They are judged without memory.
#[tactic(auto, unfolding(crate::specs::VisitWords::visit_of))]
pub fn visit_port(words: &[String]) -> Option<u64>
    ensures { result ≡ port_in (visit_of (map string_bytes words.now)) }
{
    let [name, ports, key, need, ending @ ..] = words else {
        return None;
    };
    let ports = read_ports(ports.as_bytes())?;
    let mut room = [0u8; MOST_KEY];
    let key = key_in(key.as_bytes(), &mut room)?;
    let is_page = name.as_str() == "visit" && need_of(need.as_str()).is_some() && is_ending(ending);
    if is_page {
        Some(port_for(&ports, key))
    } else {
        None
    }
}

/// What the words of `visit` say; `None` exactly where they are none. The only error is want of
/// memory.
#[tactic(auto, unfolding(crate::specs::VisitWords::visit_of))]
pub fn read_visit(alloc: Global, words: &[String]) -> Result<Option<PageWords>, NoMemory>
    ensures value { IfOk result (λ page. page ≡ visit_of (map string_bytes words.now)) }
    ensures fits { IfOk result (λ page. IfSome page PageWordsFit) }
{
    let [name, ports, key, need, ending @ ..] = words else {
        return Ok(None);
    };
    if name.as_str() != "visit" {
        return Ok(None);
    }
    let Some(ports) = read_ports(ports.as_bytes()) else {
        return Ok(None);
    };
    let Some(key) = read_key(alloc, key.as_bytes())? else {
        return Ok(None);
    };
    let Some(need) = need_of(need.as_str()) else {
        return Ok(None);
    };
    let Some(ending) = read_ending(alloc, ending)? else {
        return Ok(None);
    };
    Ok(Some(PageWords {
        port: port_for(&ports, key.as_slice()),
        key,
        need,
        ending,
    }))
}
