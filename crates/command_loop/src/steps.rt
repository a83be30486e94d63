//! The steps of a consumer behind one piece, each written before the next.
ghost use Rattle.std.specs.Prelude.{◌≡◌, ◌<◌, ◌≤◌, ◌++◌, List, ℕ, None, Some, true, OnOk, OnErr, IfSome, length};
ghost use Rattle.asp_base.specs.Causes.{HasCause, Rose};
ghost use Rattle.asp_base.specs.Outside.{Takes, TakesFront};
ghost use Rattle.command_loop.specs.Feeding.{FollowsFrom, IsShort, OverAnyhow, OverAtEnd, both_parts};
ghost use Rattle.command_loop.specs.LoopRunning.{RunStops};

use crate::{Consumer, RunEnd, Stepped};
use asp_base::{Failed, FixedText, NoMemory, Sink, write_text, write_whole};

/// Room for the two parts that go out in one call of the sink, which a run keeps.
pub type WriteRoom = FixedText<1_024>;

/// Writes a text that is not split, where there is any.
fn write_one<T: Sink>(sink: &mut T, text: &[u8]) -> Result<(), Failed>
    ensures taken { OnOk result (Takes (T.taken sink.old) (T.taken sink.new) text.now) }
    ensures in_part { OnErr result (TakesFront (T.taken sink.old) (T.taken sink.new) text.now) }
    ensures some { OnErr result (0 < length text.now) }
    ensures cause { HasCause (T.faults sink.old) (T.faults sink.new) result }
{
    if text.is_empty() {
        return Ok(());
    }
    write_whole(sink, text)
}

/// Writes what the consumer gave last, where there is any; it takes no memory. After `Failed` a
/// front of it was taken.
fn write_given<C: Consumer, T: Sink>(
    consumer: &C,
    sink: &mut T,
    room: &mut WriteRoom,
) -> Result<(), Failed>
    ensures taken { OnOk result (Takes (T.taken sink.old) (T.taken sink.new)
        (both_parts (C.parts consumer.now))) }
    ensures in_part { OnErr result (TakesFront (T.taken sink.old) (T.taken sink.new)
        (both_parts (C.parts consumer.now))) }
    ensures some { OnErr result (0 < length (both_parts (C.parts consumer.now))) }
    ensures cause { HasCause (T.faults sink.old) (T.faults sink.new) result }
{
    let (head, body) = consumer.parts();
    if body.is_empty() {
        return write_one(sink, head);
    }
    write_text(sink, room, head, body)
}

/// Lets the consumer do what it can, and writes what each thing gives before the next, with `room`
/// for what goes out in one call. `None` where more bytes are wanted, else how the run ends.
pub fn work_off<C: Consumer, T: Sink>(
    consumer: &mut C,
    more: bool,
    sink: &mut T,
    room: &mut WriteRoom,
) -> Option<RunEnd<C::Over>>
    requires short { IsShort C.went consumer.old 0 }
    ensures goes { result ≡ None → (wrote : List ℕ)
        × Takes (T.taken sink.old) (T.taken sink.new) wrote
        × FollowsFrom C.went consumer.old
        (λ start fed given. C.went start consumer.new fed (given ++ wrote)) }
    ensures waits { result ≡ None → C.waits more consumer.new }
    ensures stops { IfSome result (λ end. RunStops ⟦<C as Consumer>⟧ (OverAnyhow more)
        consumer.old consumer.new (T.taken sink.old) (T.taken sink.new) end) }
    ensures read { result ≡ Some RunEnd.ReadFault → ⊥ }
    ensures write { result ≡ Some RunEnd.WriteFault → Rose (T.faults sink.old) (T.faults sink.new) }
    ensures faults { T.faults sink.old ≤ T.faults sink.new }
{
    'steps: loop {
        match consumer.step(more) {
            Stepped::Did => match write_given(consumer, sink, room) {
                Ok(()) => {}
                Err(Failed) => return Some(RunEnd::WriteFault),
            },
            Stepped::More => return None,
            Stepped::Over(over) => {
                return match write_given(consumer, sink, room) {
                    Ok(()) => Some(RunEnd::Over(over)),
                    Err(Failed) => Some(RunEnd::WriteFault),
                };
            }
            Stepped::NoMemory => return Some(RunEnd::NoMemory),
        }
    }
}

/// Lets the consumer end where the input has ended, and writes what that gives.
pub fn close<C: Consumer, T: Sink>(
    consumer: &mut C,
    sink: &mut T,
    room: &mut WriteRoom,
) -> RunEnd<C::Over>
    requires waits { C.waits true consumer.old }
    ensures stops { RunStops ⟦<C as Consumer>⟧ OverAtEnd
        consumer.old consumer.new (T.taken sink.old) (T.taken sink.new) result }
    ensures read { result ≡ RunEnd.ReadFault → ⊥ }
    ensures write { result ≡ RunEnd.WriteFault → Rose (T.faults sink.old) (T.faults sink.new) }
    ensures faults { T.faults sink.old ≤ T.faults sink.new }
{
    match consumer.finish() {
        Ok(over) => match write_given(consumer, sink, room) {
            Ok(()) => RunEnd::Over(over),
            Err(Failed) => RunEnd::WriteFault,
        },
        Err(NoMemory) => RunEnd::NoMemory,
    }
}
