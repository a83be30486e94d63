//! The loop from a source to a sink.
ghost use Rattle.std.specs.Prelude.{◌≡◌, ◌<◌, ◌≤◌, ◌++◌, [], List, ℕ, length, true};
ghost use Rattle.asp_base.specs.Causes.{Rose};
ghost use Rattle.asp_base.specs.Limits.{most_input};
ghost use Rattle.asp_base.specs.Outside.{Gives, IsAtEnd};
ghost use Rattle.asp_base.specs.Pieces.{IfFed};
ghost use Rattle.command_loop.specs.Ending.{Ended, IfFewer, RunIsComplete};
ghost use Rattle.command_loop.specs.Feeding.{FollowsFrom, IsShort};
ghost use Rattle.command_loop.specs.Flow.{flow};

use crate::steps::{WriteRoom, close, work_off};
use crate::{Consumer, RunEnd};
use asp_base::{Failed, MOST_PIECE, NoMemory, Piece, Sink, Source, read_piece};

/// Reads at most `most` bytes into the buffer, and feeds them to the consumer.
fn take_piece<C: Consumer, S: Source>(
    consumer: &mut C,
    source: &mut S,
    buf: &mut [u8],
    most: u64,
) -> Piece
    requires some { 0 < most }
    requires buf { length buf.old ≡ MOST_PIECE }
    requires waits { C.waits true consumer.old }
    requires short { IsShort C.went consumer.old most }
    ensures fed { IfFed result (λ n. (0 < n) × (n ≤ most) × ((piece : List ℕ) × (length piece ≡ n)
        × Gives (S.told source.old) (S.told source.new) piece
        × FollowsFrom C.went consumer.old
        (λ start fed given. C.went start consumer.new (fed ++ piece) given))) }
    ensures end { result ≡ Piece.End → IsAtEnd (S.told source.new)
        × Gives (S.told source.old) (S.told source.new) [] × (consumer.new ≡ consumer.old) }
    ensures no_memory { result ≡ Piece.NoMemory → (piece : List ℕ) × (length piece ≤ most)
        × Gives (S.told source.old) (S.told source.new) piece
        × FollowsFrom C.went consumer.old
        (λ start fed given. C.lacks start consumer.new (fed ++ piece) given) }
    ensures fault { result ≡ Piece.ReadFault → Gives (S.told source.old) (S.told source.new) []
        × Rose (S.faults source.old) (S.faults source.new) × (consumer.new ≡ consumer.old) }
    ensures faults { S.faults source.old ≤ S.faults source.new }
    ensures room { length buf.new ≡ length buf.old }
{
    let count = match read_piece(source, buf, most) {
        Ok(0) => return Piece::End,
        Ok(count) => count,
        Err(Failed) => return Piece::ReadFault,
    };
    match consumer.feed(&buf[..count]) {
        Ok(()) => Piece::Fed(count as u64),
        Err(NoMemory) => Piece::NoMemory,
    }
}

/// Feeds the consumer what the source gives until it ends, or at most `most` bytes of it, at most
/// 2^40, and writes what the consumer gives, each thing before it does the next. What it can give
/// before the first byte is written before the first read. It waits for nobody, and returns.
pub fn run<C: Consumer, S: Source, T: Sink>(
    most: u64,
    consumer: &mut C,
    source: &mut S,
    sink: &mut T,
) -> RunEnd<C::Over>
    requires most { most ≤ most_input }
    requires begun { C.went consumer.old consumer.old [] [] }
    ensures ran { Ended ⟦<C as Consumer>⟧ most consumer.old consumer.new
        (flow (S.told source.old) (S.told source.new) (T.taken sink.old) (T.taken sink.new))
        result }
    ensures read { result ≡ RunEnd.ReadFault → Rose (S.faults source.old) (S.faults source.new) }
    ensures write { result ≡ RunEnd.WriteFault → Rose (T.faults sink.old) (T.faults sink.new) }
    ensures source_count { S.faults source.old ≤ S.faults source.new }
    ensures sink_count { T.faults sink.old ≤ T.faults sink.new }

    // Where neither source nor sink fails, the consumer is over with the whole input, if memory is
    // there.
    ensures complete { (Rose (S.faults source.old) (S.faults source.new) → ⊥)
        → (Rose (T.faults sink.old) (T.faults sink.new) → ⊥)
        → IfFewer (S.told source.old) most
        (RunIsComplete ⟦<C as Consumer>⟧ consumer.old consumer.new
        (flow (S.told source.old) (S.told source.new) (T.taken sink.old) (T.taken sink.new))
        result) }
{
    let mut buf = [0u8; MOST_PIECE];
    let mut room = WriteRoom::new();
    let mut left = most;
    'pieces: loop {
        if let Some(end) = work_off(consumer, left > 0, sink, &mut room) {
            return end;
        }
        if left == 0 {
            return RunEnd::Long;
        }
        match take_piece(consumer, source, &mut buf, left) {
            Piece::Fed(count) => left -= count,
            Piece::End => return close(consumer, sink, &mut room),
            Piece::ReadFault => return RunEnd::ReadFault,
            Piece::NoMemory => return RunEnd::NoMemory,
        }
    }
}
