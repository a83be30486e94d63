//! Decimal numbers without leading zeros.
ghost use Rattle.plain_words.specs.Words.{ReadsAs, IsNumber};

use asp_base::read_number;

/// The number that the text spells in decimal without leading zeros, at most `max`; `None` exactly
/// where there is no such number.
pub fn read_plain_number(text: &[u8], max: u64) -> Option<u64>
    ensures { ReadsAs (IsNumber text.now max) result }
{
    if text.len() > 1 && text[0] == b'0' {
        return None;
    }
    read_number(text, max)
}
