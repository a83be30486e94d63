//! The parts that lines have in common.
ghost use Rattle.std.specs.Prelude.{◌≡◌, ℕ, List, MatchOption};
ghost use Rattle.plain_words.specs.Words.{ReadsAs};
ghost use Rattle.page_script.specs.Lines.{need_word};
ghost use Rattle.page_script.specs.LineParts.{IsNumberThen};

use plain_words::{read_plain_number, split_word};
use visit_core::Need;

/// A number of at most `max` with a space behind it, and the text behind that.
pub fn read_number_then(text: &[u8], max: u64) -> Option<(u64, &[u8])>
    ensures { MatchOption result
        ((n : ℕ) (rest : List ℕ) → IsNumberThen text.now max n rest → ⊥)
        (λ parts. IsNumberThen text.now max parts.0 parts.1.now) }
{
    let (word, rest) = split_word(text)?;
    let n = read_plain_number(word, max)?;
    Some((n, rest))
}

/// The need that the word names.
pub fn read_need(word: &[u8]) -> Option<Need>
    ensures { ReadsAs (λ need. word.now ≡ need_word need) result }
{
    match word {
        b"exclusive" => Some(Need::Exclusive),
        b"readonly" => Some(Need::ReadOnly),
        b"off" => Some(Need::Off),
        _ => None,
    }
}
