//! The words of the plain spelling, which journals and page scripts use, read: decimal numbers
//! without leading zeros, byte strings, flags, and a text cut at its spaces.
#![tactic(auto)]

mod byte_string;
mod flag;
mod laws;
mod number_word;
mod split;

pub use byte_string::read_byte_string;
pub use flag::read_flag;
pub use laws::{one_spelling, words};
pub use number_word::read_plain_number;
pub use split::{cut_number, split_at_byte, split_word, strip, strip_end};
