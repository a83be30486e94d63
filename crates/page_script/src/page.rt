//! A `page` line behind its first word.
ghost use Rattle.std.specs.Prelude.{◌≡◌, ◌≢◌, ℕ, List, IfOk, IfSome, IfNone, MatchOption};
ghost use Rattle.plain_words.specs.Words.{ReadsAs};
ghost use Rattle.visit_core.specs.declared.visit_terms.Need.{Need};
ghost use Rattle.page_script.specs.Lines.{ending_words};
ghost use Rattle.page_script.specs.LineParts.{IsEnding, IsKey, IsPage, IsPageHead, IsSave};

use crate::line_parts::{read_need, read_number_then};
use crate::{Name, PageLine};
use asp_base::{Bytes, NoMemory};
use asp_messages::{MOST_BODY, MOST_KEY, MOST_MINUTES};
use plain_words::{read_byte_string, split_word, strip};
use std::alloc::Global;
use visit_core::{Ending, Need};

// The words of a `page` line, the key and the ending not yet read.
#[derive(Drop)]
struct PageHead<'a> {
    name: Name,
    key: &'a [u8],
    need: Need,
    ending: &'a [u8],
}

fn read_head(text: &[u8]) -> Option<PageHead<'_>>
    ensures { MatchOption result
        ((name key ending : List ℕ) (need : Need) → IsPageHead text.now name key need ending → ⊥)
        (λ head. IsPageHead text.now head.name head.key.now head.need head.ending.now) }
{
    let (name, rest) = split_word(text)?;
    let (key, rest) = split_word(rest)?;
    let (need, ending) = split_word(rest)?;
    let name = Name::read(name)?;
    let need = read_need(need)?;
    Some(PageHead {
        name,
        key,
        need,
        ending,
    })
}

fn read_key(alloc: Global, word: &[u8]) -> Result<Option<Bytes>, NoMemory>
    ensures { IfOk result (ReadsAs (IsKey word.now)) }
{
    let Some(key) = read_byte_string(alloc, word, MOST_KEY)? else {
        return Ok(None);
    };
    if key.as_slice().is_empty() {
        return Ok(None);
    }
    Ok(Some(key))
}

// The minutes and the content that a page saves.
fn read_save(alloc: Global, text: &[u8]) -> Result<Option<(u64, Bytes)>, NoMemory>
    ensures { IfOk result (ReadsAs (IsSave text.now)) }
{
    let Some(words) = strip(text, b"save ") else {
        return Ok(None);
    };
    let Some((minutes, body)) = read_number_then(words, MOST_MINUTES) else {
        return Ok(None);
    };
    if minutes == 0 {
        return Ok(None);
    }
    match read_byte_string(alloc, body, MOST_BODY as usize)? {
        Some(body) => Ok(Some((minutes, body))),
        None => Ok(None),
    }
}

// An ending that saves nothing.
fn read_bare_ending(text: &[u8]) -> Option<Ending>
    ensures some { IfSome result (IsEnding text.now) }
    ensures none { IfNone result ((text.now ≢ ending_words Ending.Keep)
        × (text.now ≢ ending_words Ending.Abandon)) }
{
    match text {
        b"keep" => Some(Ending::Keep),
        b"abandon" => Some(Ending::Abandon),
        _ => None,
    }
}

fn read_ending(alloc: Global, text: &[u8]) -> Result<Option<Ending>, NoMemory>
    ensures { IfOk result (ReadsAs (IsEnding text.now)) }
{
    if let Some(ending) = read_bare_ending(text) {
        return Ok(Some(ending));
    }
    match read_save(alloc, text)? {
        Some((minutes, body)) => Ok(Some(Ending::Save { body, minutes })),
        None => Ok(None),
    }
}

/// The page that the words of a `page` line behind the first spell; `None` exactly where they spell
/// none. The only error is want of memory.
pub fn read_page(alloc: Global, text: &[u8]) -> Result<Option<PageLine>, NoMemory>
    ensures { IfOk result (ReadsAs (IsPage text.now)) }
{
    let Some(head) = read_head(text) else {
        return Ok(None);
    };
    let Some(key) = read_key(alloc, head.key)? else {
        return Ok(None);
    };
    let Some(ending) = read_ending(alloc, head.ending)? else {
        return Ok(None);
    };
    Ok(Some(PageLine {
        name: head.name,
        key,
        need: head.need,
        ending,
    }))
}
