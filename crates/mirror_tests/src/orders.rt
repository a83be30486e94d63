//! Entries that are handed in in any order of their places.
ghost use Rattle.std.specs.Prelude.{◌≡◌, ◌≤◌, ◌<◌, ◌-◌, ◌^◌, IfOk};
ghost use Rattle.session_machine.specs.History.{IsFormed};
ghost use Rattle.state_mirror.specs.Ordering.{place_end};

use asp_base::{MemorySink, Sink};
use asp_messages::Reply;
use session_machine::{Deed, Entry};
use state_mirror::{Handed, Order, SpelledEntry, Stop};
use std::alloc::Global;
use std::test::Fail;

/// The journal of a look of each of these five callers, whose first place is 7.
const FIVE: &[u8] = b"asp-journal 3 7\n7 0 0 0 - looked : done\n8 0 0 0 - looked : done\n\
    9 0 0 0 - looked : done\n10 0 0 0 - looked : done\n11 0 0 0 - looked : done\n";

/// Where its lines end: the first line and that of the first entry are written at once.
const ENDS: [usize; 6] = [0, 40, 64, 88, 113, 138];

/// The journal of two looks, whose first place is 0.
const TWO: &[u8] = b"asp-journal 3 0\n0 0 0 0 - looked : done\n1 0 0 0 - looked : done\n";

/// A look of this caller at moment 0.
fn looked(caller: u64) -> Entry
    requires { caller < 2 ^ 63 }
    ensures { IsFormed result }
{
    Entry {
        caller,
        moment: 0,
        deed: Deed::Looked,
        drawn: 0,
        reply: Reply::Done,
        faults: 0,
    }
}

/// A look of this caller at moment 0, with its line.
fn spelled(alloc: Global, caller: u64) -> Result<SpelledEntry, Fail>
    requires { caller < 2 ^ 63 }
{
    match SpelledEntry::new(alloc, looked(caller)) {
        Ok(entry) => Ok(entry),
        Err(_) => Err("no memory".into()),
    }
}

/// A sink that takes pieces of at least one byte, and fails at these writes.
fn sink(alloc: Global, piece: u64, fails: &[u64]) -> Result<MemorySink, Fail> {
    match MemorySink::new(alloc, 256, piece.max(1), Vec::from_slice(alloc, fails)?) {
        Ok(sink) => Ok(sink),
        Err(_) => Err("no memory".into()),
    }
}

/// Hands in the look whose caller is its place.
fn hand<T: Sink>(order: &mut Order<T>, place: u64) -> Handed
    requires { (order.old.first ≤ place) × (place < place_end) }
    ensures { order.new.first ≡ order.old.first }
{
    order.hand(place, looked(place))
}

/// The digit of a number of five digits that stands for this unit, from 0 to 4.
fn digit(number: u64, unit: u64) -> usize
    ensures { result < 5 }
{
    (number.checked_div(unit).unwrap_or(0) % 5) as usize
}

/// What each digit stands for.
const UNITS: [u64; 5] = [1, 5, 25, 125, 625];

/// Hands in five places, those from 7 to 11 that the digits name. The answers, and the sink.
fn hand_five(alloc: Global, number: u64) -> Result<([Handed; 5], MemorySink), Fail> {
    let mut order = Order::new(alloc, sink(alloc, 256, &[])?, 7);
    let answers = [
        hand(&mut order, 7 + digit(number, 1) as u64),
        hand(&mut order, 7 + digit(number, 5) as u64),
        hand(&mut order, 7 + digit(number, 25) as u64),
        hand(&mut order, 7 + digit(number, 125) as u64),
        hand(&mut order, 7 + digit(number, 625) as u64),
    ];
    Ok((answers, order.into_sink()))
}

/// An order of five entries, of which the first comes last, on a sink that fails at one write. Its
/// last answer, and the order.
fn hand_backwards(alloc: Global, piece: u64, fail: u64) -> Result<(Handed, Order<MemorySink>), Fail>
    ensures { IfOk result (λ made. made.1.first ≡ 7) }
{
    let mut order = Order::new(alloc, sink(alloc, piece, &[fail])?, 7);
    hand(&mut order, 11);
    hand(&mut order, 10);
    hand(&mut order, 9);
    hand(&mut order, 8);
    let answer = hand(&mut order, 7);
    Ok((answer, order))
}

#[test]
fn an_entry_waits_for_the_one_before_it(rt: HostRuntime) -> Result<(), Fail> {
    let alloc = rt.alloc();
    let mut order = Order::new(alloc, sink(alloc, 256, &[])?, 0);
    assert_eq!(rt; hand(&mut order, 1), Handed::Taken);
    assert_eq!(rt; order.into_sink().taken(), b"".as_slice());
    Ok(())
}

#[test]
fn it_is_written_behind_that_and_known_then(rt: HostRuntime) -> Result<(), Fail> {
    let alloc = rt.alloc();
    let mut order = Order::new(alloc, sink(alloc, 256, &[])?, 0);
    assert_eq!(rt; hand(&mut order, 1), Handed::Taken);
    assert_eq!(rt; hand(&mut order, 0), Handed::Taken);
    assert_eq!(rt; hand(&mut order, 0), Handed::Known { place: 0 });
    assert_eq!(rt; order.stopped(), None);
    assert_eq!(rt; order.into_sink().taken(), TWO);
    Ok(())
}

#[test]
fn an_entry_with_its_line_is_handed_in_among_others(rt: HostRuntime) -> Result<(), Fail> {
    let alloc = rt.alloc();
    let mut order = Order::new(alloc, sink(alloc, 256, &[])?, 0);
    let entry = spelled(alloc, 1)?;
    assert_eq!(rt; entry.line(), b"1 0 0 0 - looked : done\n".as_slice());
    assert_eq!(rt; order.hand_spelled(1, entry), Handed::Taken);
    assert_eq!(rt; hand(&mut order, 0), Handed::Taken);
    assert_eq!(rt;
        order.hand_spelled(1, spelled(alloc, 1)?),
        Handed::Known { place: 1 }
    );
    assert_eq!(rt; order.into_sink().taken(), TWO);
    Ok(())
}

/// Each list of five of the five places: the orders of the five, and those with some twice.
#[test]
fn what_is_handed_in_in_any_order_is_written_in_order(rt: HostRuntime) -> Result<(), Fail> {
    let alloc = rt.alloc();
    for number in 0..3125 {
        let (answers, sink) = hand_five(alloc, number)?;
        let mut handed = [false; 5];
        for (answer, unit) in answers.iter().zip(UNITS.iter()) {
            let index = digit(number, *unit);
            let place = 7 + index as u64;
            let wanted = if handed[index] {
                Handed::Known { place }
            } else {
                Handed::Taken
            };
            assert_eq!(rt; *answer, wanted, "{number}");
            handed[index] = true;
        }
        let row = handed.iter().take_while(|handed| **handed).count();
        assert_eq!(rt; sink.taken(), &FIVE[..ENDS[row]], "{number}");
    }
    Ok(())
}

#[test]
fn a_sink_that_fails_stops_it_behind_whole_lines(rt: HostRuntime) -> Result<(), Fail> {
    let alloc = rt.alloc();
    for (fail, end) in [0, 40, 64, 88, 113].iter().enumerate() {
        let (answer, mut order) = hand_backwards(alloc, 256, fail as u64)?;
        assert_eq!(rt; answer, Handed::SinkFault);
        assert_eq!(rt; order.stopped(), Some(Stop::Sink));
        assert_eq!(rt; hand(&mut order, 7), Handed::Stopped);
        assert_eq!(rt; hand(&mut order, 12), Handed::Stopped);
        assert_eq!(rt; order.into_sink().taken(), &FIVE[..*end]);
    }
    Ok(())
}

#[test]
fn a_front_of_the_entry_that_stopped_it_is_written(rt: HostRuntime) -> Result<(), Fail> {
    let alloc = rt.alloc();
    let (answer, order) = hand_backwards(alloc, 30, 1)?;
    assert_eq!(rt; answer, Handed::SinkFault);
    assert_eq!(rt; order.into_sink().taken(), &FIVE[..30]);
    Ok(())
}
