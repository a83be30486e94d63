//! Texts cut: at a byte, behind a number, and behind or before words that are known.
ghost use Rattle.std.specs.Prelude.{◌≡◌, ◌≢◌, ℕ, ◌≤◌, List, ◌∷◌, ◌++◌, decimal, MatchOption};
ghost use Rattle.plain_words.specs.Words.{HasNo, SplitsAt};

use crate::number_word::read_plain_number;
use memchr::memchr;

/// The text before the first such byte, and the text behind it; `None` exactly where the byte
/// stands nowhere.
pub fn split_at_byte(text: &[u8], byte: u8) -> Option<(&[u8], &[u8])>
    ensures { MatchOption result (HasNo byte text.now)
        (λ parts. SplitsAt byte text.now parts.0.now parts.1.now) }
{
    match memchr(byte, text) {
        Some(place) => Some((&text[..place], &text[place + 1..])),
        None => None,
    }
}

/// The word before the first space, and the text behind that space; `None` exactly where there is
/// no space.
pub fn split_word(text: &[u8]) -> Option<(&[u8], &[u8])>
    ensures { MatchOption result (HasNo 32 text.now)
        (λ parts. SplitsAt 32 text.now parts.0.now parts.1.now) }
{
    split_at_byte(text, b' ')
}

/// The number that is the first word, at most `max`, and the text behind its space; `None` exactly
/// where there is no such number.
pub fn cut_number(text: &[u8], max: u64) -> Option<(u64, &[u8])>
    ensures { MatchOption result ((n : ℕ) (rest : List ℕ) → n ≤ max
        → text.now ≢ decimal n ++ 32 ∷ rest) (λ cut. (cut.0 ≤ max)
        × (text.now ≡ decimal cut.0 ++ 32 ∷ cut.1.now)) }
{
    let (word, rest) = split_word(text)?;
    let n = read_plain_number(word, max)?;
    Some((n, rest))
}

/// The text behind the prefix; `None` exactly where it does not begin with it.
pub fn strip<'a>(text: &'a [u8], prefix: &[u8]) -> Option<&'a [u8]>
    ensures { MatchOption result ((rest : List ℕ) → text.now ≢ prefix.now ++ rest)
        (λ rest. text.now ≡ prefix.now ++ rest.now) }
{
    text.strip_prefix(prefix)
}

/// The text before the suffix; `None` exactly where it does not end with it.
pub fn strip_end<'a>(text: &'a [u8], suffix: &[u8]) -> Option<&'a [u8]>
    ensures { MatchOption result ((front : List ℕ) → text.now ≢ front ++ suffix.now)
        (λ front. text.now ≡ front.now ++ suffix.now) }
{
    text.strip_suffix(suffix)
}
