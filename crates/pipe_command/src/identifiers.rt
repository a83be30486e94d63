//! The command `id`.
ghost use Rattle.std.specs.Prelude.{◌≡◌, ◌≤◌, ◌++◌, ◌∷◌, []};
ghost use Rattle.asp_base.specs.Causes.{Rose};
ghost use Rattle.asp_base.specs.WrittenLine.{WritesLine};
ghost use Rattle.session_id.specs.Identifiers.{text_of};

use asp_base::{Failed, FixedText, Sink, status, write_text};
use session_id::Id;

/// An identifier's 24 bytes and a line feed.
const LINE: usize = 25;

/// Writes the identifier of 15 bytes and a line feed, and answers a status: 0, or 5 where the sink
/// failed. It takes no memory.
pub fn write_id<T: Sink>(random: [u8; 15], sink: &mut T) -> u8
    ensures writes { WritesLine result 0 (T.taken sink.old) (T.taken sink.new)
        (text_of random ++ 10 ∷ []) }
    ensures fault { result ≡ 5 → Rose (T.faults sink.old) (T.faults sink.new) }
    ensures sink_count { T.faults sink.old ≤ T.faults sink.new }
{
    let text = Id::from_random(random).text();
    match write_text(sink, &mut FixedText::<LINE>::new(), &text, b"\n") {
        Ok(()) => status::DONE,
        Err(Failed) => status::WRITE_FAULT,
    }
}
