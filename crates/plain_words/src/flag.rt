//! Flags.
ghost use Rattle.plain_words.specs.Words.{ReadsAs, IsFlag};

/// The flag that the text spells, 1 for yes and 0 for no; `None` exactly where it is neither.
pub fn read_flag(text: &[u8]) -> Option<bool>
    ensures { ReadsAs (IsFlag text.now) result }
{
    match text {
        b"1" => Some(true),
        b"0" => Some(false),
        _ => None,
    }
}
