//! The rule of a turnstile's table, what a seat at it knows, and the kinds of step that keep it:
//! for contracts alone.
ghost use Rattle.std.specs.Prelude.{Option, None};
ghost use Rattle.turnstile.specs.TurnRule.{IsOrdered, roll, to_pass, from_roll, note, with_note, with_count};
ghost use Rattle.turnstile.specs.TurnSteps.{DrawsNumber, SeesTicket, TakesTicket, Enters, LeaveStep, LearnsCount, TakesLonger};

use crate::{Stands, TurnTerms};
use atomic_table::{Join, Play, Split, TableRule};
use std::collections::LinkedList;
use std::marker::{Brand, PhantomData};

/// The entry with which a turn is left. A call at `Brand` picks it, since a step has no argument
/// when it runs.
pub trait SaidEntry<E> {
    ghost entry: { Option E };
}

impl<E> SaidEntry<E> for Brand {
    ghost entry = { None };
}

/// What a seat knows. No value of it is made.
pub struct SeatView<E> {
    /// The turnstile's terms.
    pub terms: TurnTerms,
    /// The caller number of a pass, or the one that the roll drew and has not yet given away.
    pub number: Option<u64>,
    /// The entries of the history so far, as the seat last saw it.
    pub front: LinkedList<E>,
    /// The ticket word that the seat last saw.
    pub seen: u64,
    /// The ticket that the seat holds.
    pub ticket: Option<u64>,
    /// Whether its turn has come and is not left.
    pub inside: bool,
    /// How many numbers the roll drew, which the roll knows, and a pass that was sealed with it.
    pub count: Option<u64>,
    /// The front of another seat, which a note brought.
    pub told: LinkedList<E>,
}

/// There is one history, of which every seat knows a beginning.
pub struct TurnRule<S> {
    marker: PhantomData<S>,
}

impl<S: Stands> TableRule<Option<S>, SeatView<S::Entry>, TurnTerms> for TurnRule<S> {
    ghost holds = { IsOrdered S.stands S.caller };

    ghost first = { roll };
}

/// An addition of one on the callers' word: the roll draws a number.
pub struct DrawNumber;

impl<S, E> Play<Option<S>, SeatView<E>> for DrawNumber {
    ghost then = { λ st m r n. DrawsNumber m r n };
}

/// A load of the ticket word.
pub struct SeeTicket;

impl<S, E> Play<Option<S>, SeatView<E>> for SeeTicket {
    ghost then = { λ st m r n. SeesTicket m r n };
}

/// A compare and exchange on the ticket word, from a ticket to the next one.
pub struct TakeTicket;

impl<S, E> Play<Option<S>, SeatView<E>> for TakeTicket {
    ghost then = { TakesTicket };
}

/// A load of the serving word, which takes the state where it finds the seat's ticket.
pub struct Enter<S> {
    marker: PhantomData<S>,
}

impl<S: Stands> Play<Option<S>, SeatView<S::Entry>> for Enter<S> {
    ghost then = { λ st m r n. Enters S.stands S.caller m r n };
}

/// An addition of one on the serving word, which gives the state back and the entry its place.
pub struct Leave<W> {
    marker: PhantomData<W>,
}

impl<S, E, W: SaidEntry<E>> Play<Option<S>, SeatView<E>> for Leave<W> {
    ghost then = { λ st m r n. LeaveStep W.entry m r n };
}

/// A load that makes the longer of a seat's front and of what it was told its front.
pub struct TakeLonger<S> {
    marker: PhantomData<S>,
}

impl<S: Stands> Play<Option<S>, SeatView<S::Entry>> for TakeLonger<S> {
    ghost then = { λ st m r n. TakesLonger S.caller m r n };
}

/// A load that shows a seat which knows the count that the callers in its front are below it.
pub struct LearnCount<S> {
    marker: PhantomData<S>,
}

impl<S: Stands> Play<Option<S>, SeatView<S::Entry>> for LearnCount<S> {
    ghost then = { λ st m r n. LearnsCount S.caller m r n };
}

/// The roll gives the number that it drew to a new pass.
pub struct MakePass;

impl<E> Split<SeatView<E>> for MakePass {
    ghost left = { from_roll };

    ghost right = { to_pass };
}

/// A note of what a pass knows.
pub struct MakeNote;

impl<E> Split<SeatView<E>> for MakeNote {
    ghost left = { λ v. v };

    ghost right = { note };
}

/// A pass is told what a note knows.
pub struct ReadNote;

impl<E> Join<SeatView<E>> for ReadNote {
    ghost use Rattle.turnstile.specs.TurnRule.{with_note, used_up};

    ghost both = { with_note };

    ghost spent = { used_up };
}

/// A pass is told the roll's count, and the roll is used up.
pub struct TakeRoll;

impl<E> Join<SeatView<E>> for TakeRoll {
    ghost use Rattle.turnstile.specs.TurnRule.{with_count, used_up};

    ghost both = { with_count };

    ghost spent = { used_up };
}
