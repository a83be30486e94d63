//! The turnstile and its calls, and what threads have of it: the roll, the passes, and the turn of
//! one of them.
ghost use Rattle.std.specs.Prelude.{◌≡◌, [], ◌∷◌, true, false, None, Some};

use crate::turn_rule::{
    DrawNumber, Enter, LearnCount, Leave, MakeNote, MakePass, ReadNote, SaidEntry, SeatView,
    SeeTicket, TakeLonger, TakeRoll, TakeTicket, TurnRule,
};
use crate::{Stands, TurnTerms};
use asp_base::NoMemory;
use atomic_table::{Refused, Seat, Table};
use std::alloc::Global;
use std::hint::spin_loop;
use std::marker::Brand;
use std::sync::Wait;
use std::sync::atomic::{AtomicU64, Ordering};
use std::thread::yield_now;

/// The word with the next ticket.
const TICKET: usize = 0;

/// The word with the ticket whose turn it is.
const SERVING: usize = 1;

/// The word with the number of caller numbers drawn.
const CALLERS: usize = 2;

/// The slot with the state.
const STATE: usize = 0;

/// Every place is below this number.
const END_OF_PLACES: u64 = i64::MAX as u64;

/// How often a caller looks whether nobody has a turn, before it sleeps.
const LOOKS: u32 = 100;

/// A thread sleeps on the serving word modulo this number.
const PARKED_ON: u64 = 1 << 32;

/// A state that threads have in turn, without a lock.
///
/// A turn waits until nobody has one, and takes the ticket that is served next. The ticket is the
/// place of the entry that the turn leaves.
#[derive(Drop)]
pub struct Turnstile<S: Stands> {
    table: Table<Option<S>, SeatView<S::Entry>, TurnTerms, TurnRule<S>, Global>,
    /// How many callers sleep, or are about to, until a turn is left.
    sleepers: AtomicU64,
    ghost three_words: { table.shared.table_id.words ≡ 3 },
    ghost one_slot: { table.shared.table_id.slots ≡ 1 },
}

/// The right to make passes, and how many it has made.
#[derive(Drop)]
pub struct TurnRoll<S: Stands> {
    pub(crate) seat: Seat<Option<S>, SeatView<S::Entry>>,
    pub(crate) made: u64,
    ghost counts: { seat.me.0.count ≡ Some made },
    ghost knows_nothing: { (seat.me.0.front ≡ []) × (seat.me.0.number ≡ None) },
    ghost waits_not: { (seat.me.0.ticket ≡ None) × (seat.me.0.inside ≡ false) × (seat.me.1 ≡ []) },
}

/// The right to take turns under one caller number, and what its owner knows of the history.
///
/// Contracts see its number, its front, which is the list of entries that it knows, its own calls
/// among them, and the ticket word that it last saw.
#[derive(Drop)]
pub struct TurnPass<S: Stands> {
    pub(crate) seat: Seat<Option<S>, SeatView<S::Entry>>,
    pub(crate) number: u64,
    ghost numbered: { seat.me.0.number ≡ Some number },
    ghost outside: { seat.me.0.inside ≡ false → (seat.me.0.ticket ≡ None) × (seat.me.1 ≡ []) },
    ghost inside: { seat.me.0.inside ≡ true → seat.me.1 ≡ (0, None) ∷ [] },
}

impl<S: Stands> TurnPass<S> {
    ghost use Rattle.turnstile.specs.Turns.{caller_number};

    /// The pass's caller number.
    pub fn caller(&self) -> u64
        ensures { result ≡ caller_number self.now }
    {
        self.number
    }
}

/// A pass's turn, with the state. It is no `Drop`, so it ends in `leave`.
pub struct Turn<S> {
    pub(crate) state: S,
}

impl<S> Turn<S> {
    ghost use types.Logic.{sem};
    ghost use Rattle.turnstile.specs.Lent.{LendsState};
    ghost use Rattle.turnstile.specs.Turns.{state_in_turn};

    /// The state, to be read and changed.
    pub fn state(&mut self) -> &mut S
        ensures* writes_back { sem 𝓛 (LendsState S.row self.entry result) }
        ensures value { result.now ≡ state_in_turn self.old }
    {
        &mut self.state
    }
}

/// No place is left: the ticket word stood at the end of places.
#[derive(Clone, Copy, Debug, PartialEq, Eq)]
pub struct Spent {
    pub ticket: u64,
}

/// A new turnstile and the only roll that it will ever have.
#[derive(Drop)]
pub struct FreshTurns<S: Stands> {
    pub turns: Turnstile<S>,
    pub roll: TurnRoll<S>,
}

impl<S: Stands + Drop> Turnstile<S> {
    ghost use Rattle.std.specs.Prelude.{ℕ, ◌+◌, ◌^◌, ◌-◌, ◌<◌, ◌≤◌, ◌↔◌, ◌++◌, ◌⊎◌, length, All, IfOk, IfErr, IsErr, IfSome, IfNone};
    ghost use mathlib.Core.List.{IsPrefix};
    ghost use Rattle.turnstile.specs.TurnRule.{end_of_places, with_note};
    ghost use Rattle.turnstile.specs.TurnSteps.{saw, with_ticket, left, compared, TurnComes, GrowsByOthers};
    ghost use Rattle.turnstile.specs.Turns.{turnstile_terms, first_place_of, turnstile_id, roll_home, passes_made, pass_home, caller_number, front, own_calls, ticket_seen, has_turn, state_in_turn, IsSamePass, ExtendsByOthers};

    /// A turnstile whose state stands for no entries yet, and its roll. After `NoMemory` the state
    /// is dropped.
    pub fn new<R>(
        _rt: &R,
        alloc: Global,
        state: S,
        terms: TurnTerms,
    ) -> Result<FreshTurns<S>, NoMemory>
        requires place { terms.first_place ≤ end_of_places }
        requires state { S.stands state terms [] }
        ensures terms { IfOk result (λ f. turnstile_terms f.turns ≡ terms) }
        ensures home { IfOk result (λ f. roll_home f.roll ≡ turnstile_id f.turns) }
        ensures no_pass { IfOk result (λ f. passes_made f.roll ≡ 0) }
    {
        let mut slots = Vec::with_capacity(alloc, 1)?;
        slots.push_reserved(Some(state));
        let first_place = terms.first_place;
        match Table::new(alloc, &[first_place, first_place, 0], slots, &terms) {
            Ok((table, seat)) => Ok(FreshTurns {
                turns: Turnstile {
                    table,
                    sleepers: AtomicU64::new(0),
                },
                roll: TurnRoll { seat, made: 0 },
            }),
            Err(Refused { slots: _ }) => Err(NoMemory),
        }
    }

    /// A pass with the next caller number, from 0, which knows of no entry.
    pub fn pass<R>(&self, _rt: &R, roll: &mut TurnRoll<S>) -> TurnPass<S>
        requires home { roll_home roll.old ≡ turnstile_id self.now }
        requires numbers_left { passes_made roll.old < 2 ^ 63 - 1 }
        ensures roll_home { roll_home roll.new ≡ roll_home roll.old }
        ensures made { passes_made roll.new ≡ passes_made roll.old + 1 }
        ensures home { pass_home result ≡ turnstile_id self.now }
        ensures number { caller_number result ≡ passes_made roll.old }
        ensures knows_nothing { (front result ≡ []) × (own_calls result ≡ []) }
        ensures outside { has_turn result ≡ false }
    {
        let shared = &self.table.shared;
        let number = shared.fetch_add::<DrawNumber>(&mut roll.seat, CALLERS, 1);
        let seat = shared.split_seat::<MakePass>(&mut roll.seat);
        roll.made = number + 1;
        TurnPass { seat, number }
    }

    /// Waits until nobody has a turn, takes a ticket, and gives the state. `Spent` comes exactly
    /// where the ticket word that the call looked at stood at the end of places, 2^63 - 1, and for
    /// this pass from then on.
    ///
    /// A caller takes a ticket only where it sees that it would be served at once, so a caller that
    /// waits, and may not run, holds up nobody. The order is that in which tickets are taken, and
    /// not that of the calls. After 100 looks a caller sleeps until a turn is left.
    pub fn enter<R: Wait>(&self, rt: &R, pass: &mut TurnPass<S>) -> Result<Turn<S>, Spent>
        requires home { pass_home pass.old ≡ turnstile_id self.now }
        requires outside { has_turn pass.old ≡ false }
        ensures pass { IsSamePass pass.old pass.new }

        // The state stands for the whole history, which is the pass's new front.
        ensures state { IfOk result (λ t. S.stands (state_in_turn t) (turnstile_terms self.now)
            (front pass.new)) }
        ensures front { IfOk result (λ _. ExtendsByOthers S.caller (caller_number pass.old)
            (front pass.old) (front pass.new)) }
        ensures room { IfOk result (λ _. first_place_of self.now + length
            (front pass.new) < end_of_places) }
        ensures own { own_calls pass.new ≡ own_calls pass.old }
        ensures turn { IfOk result (λ _. has_turn pass.new ≡ true) }

        ensures spent { IsErr result ↔ (ticket_seen pass.new ≡ end_of_places) }
        ensures stays_spent { ticket_seen pass.old ≡ end_of_places → IsErr result }
        ensures ticket { IfErr result (λ e. e.ticket ≡ end_of_places) }
        ensures same_front { IfErr result (λ _. front pass.new ≡ front pass.old) }
        ensures outside { IfErr result (λ _. has_turn pass.new ≡ false) }
        ensures never_falls { ticket_seen pass.old ≤ ticket_seen pass.new }
        ensures at_most { ticket_seen pass.new ≤ end_of_places }
    {
        let Some(ticket) = self.take_ticket(rt, &mut pass.seat) else {
            return Err(Spent {
                ticket: END_OF_PLACES,
            });
        };
        let state = self.wait(rt, &mut pass.seat, ticket);
        Ok(Turn { state })
    }

    /// The next ticket, taken where it is served at once, or `None` where the ticket word stood at
    /// the end of places.
    ///
    /// A caller that waits has no ticket, so nobody waits for it.
    fn take_ticket<R: Wait>(
        &self,
        rt: &R,
        seat: &mut Seat<Option<S>, SeatView<S::Entry>>,
    ) -> Option<u64>
        requires home { seat.old.table_id ≡ self.now.table.shared.table_id }
        requires outside { (seat.old.me.0.ticket ≡ None) × (seat.old.me.0.inside ≡ false)
            × (seat.old.me.0.terms ≡ turnstile_terms self.now) }
        requires number { (n : ℕ) × (seat.old.me.0.number ≡ Some n) }
        ensures home { seat.new.table_id ≡ seat.old.table_id }
        ensures some { IfSome result (λ t. (seat.new.me ≡ (
          with_ticket seat.old.me.0 t,
          seat.old.me.1,
        )) × (t < end_of_places)) }
        ensures none { IfNone result (seat.new.me ≡ (
          saw seat.old.me.0 end_of_places,
          seat.old.me.1,
        )) }
        ensures never_falls { seat.old.me.0.seen ≤ seat.new.me.0.seen }
    {
        let shared = &self.table.shared;
        for _ in rt.forever() {
            let Some(found) = self.look_often(seat) else {
                self.sleep(rt);
                continue;
            };
            if found >= END_OF_PLACES {
                return None;
            }
            let at = shared.compare_exchange::<TakeTicket>(seat, TICKET, found, found + 1);
            if at == found {
                return Some(found);
            }
        }
        unreachable!()
    }

    /// Sleeps until a turn is left, where one is to be left. It may also return for no reason.
    ///
    /// A turn that is left after the serving word was looked at changes that word, so that `park`
    /// returns at once, or finds the sleeper counted, and wakes one.
    fn sleep<R: Wait>(&self, rt: &R) {
        let shared = &self.table.shared;
        self.sleepers.fetch_add(1, Ordering::SeqCst);
        let serving = shared.peek(SERVING);
        if shared.peek(TICKET) != serving {
            let low_bits = (serving % PARKED_ON) as u32;
            shared.park(rt, SERVING, low_bits);
        }
        self.sleepers.fetch_sub(1, Ordering::SeqCst);
    }

    /// Looks for a while whether the next ticket would be served at once, or no ticket is left, and
    /// answers the ticket word that it saw then.
    fn look_often(&self, seat: &mut Seat<Option<S>, SeatView<S::Entry>>) -> Option<u64>
        requires home { seat.old.table_id ≡ self.now.table.shared.table_id }
        ensures home { seat.new.table_id ≡ seat.old.table_id }
        ensures saw { seat.new.me ≡ (saw seat.old.me.0 seat.new.me.0.seen, seat.old.me.1) }
        ensures found { IfSome result (λ n. (n ≡ seat.new.me.0.seen) × (n ≤ end_of_places)) }
        ensures never_falls { seat.old.me.0.seen ≤ seat.new.me.0.seen }
    {
        let shared = &self.table.shared;
        for _ in 0..LOOKS {
            let found = shared.load::<SeeTicket>(seat, TICKET);
            if found >= END_OF_PLACES || shared.peek(SERVING) == found {
                return Some(found);
            }
            spin_loop();
        }
        None
    }

    /// Waits until the ticket is served, and takes the state.
    fn wait<R: Wait>(
        &self,
        rt: &R,
        seat: &mut Seat<Option<S>, SeatView<S::Entry>>,
        ticket: u64,
    ) -> S
        requires home { seat.old.table_id ≡ self.now.table.shared.table_id }
        requires holds { (seat.old.me.0.ticket ≡ Some ticket) × (seat.old.me.0.inside ≡ false)
            × (seat.old.me.1 ≡ []) }
        ensures home { seat.new.table_id ≡ seat.old.table_id }
        ensures slot { seat.new.me.1 ≡ (0, None) ∷ [] }
        ensures comes { TurnComes S.stands S.caller seat.old.me.0 ticket seat.new.me.0 result }
    {
        let shared = &self.table.shared;
        for _ in rt.forever() {
            let found = shared.load::<Enter<S>>(seat, SERVING);
            if found == ticket
                && let Some(state) = shared.exchange(seat, STATE, None)
            {
                return state;
            }
            yield_now();
        }
        unreachable!()
    }

    /// Gives the state back, which stands for one more entry, wakes a caller that sleeps, if there
    /// is one, and answers the entry's place.
    pub fn leave<R>(&self, _rt: &R, pass: &mut TurnPass<S>, turn: Turn<S>, entry: &S::Entry) -> u64
        requires home { pass_home pass.old ≡ turnstile_id self.now }
        requires turn { has_turn pass.old ≡ true }
        requires caller { S.caller entry.now ≡ caller_number pass.old }
        requires state { S.stands (state_in_turn turn) (turnstile_terms self.now)
            (front pass.old ++ entry.now ∷ []) }
        ensures pass { IsSamePass pass.old pass.new }
        ensures place { result ≡ first_place_of self.now + length (front pass.old) }
        ensures front { front pass.new ≡ front pass.old ++ entry.now ∷ [] }
        ensures own { own_calls pass.new ≡ own_calls pass.old ++ entry.now ∷ [] }
        ensures outside { has_turn pass.new ≡ false }
        ensures seen { ticket_seen pass.new ≡ ticket_seen pass.old }
    {
        let Turn { state } = turn;
        let place = self.give::<Brand>(&mut pass.seat, state, entry);
        if self.sleepers.load(Ordering::SeqCst) > 0 {
            self.table.shared.wake_one(SERVING);
        }
        place
    }

    /// Puts the state back, and serves the next ticket.
    fn give<W: SaidEntry<S::Entry>>(
        &self,
        seat: &mut Seat<Option<S>, SeatView<S::Entry>>,
        state: S,
        entry: &S::Entry,
    ) -> u64
        requires said { W.entry ≡ Some entry.now }
        requires home { (seat.old.table_id ≡ self.now.table.shared.table_id)
            × (seat.old.me.0.terms ≡ turnstile_terms self.now) }
        requires turn { (seat.old.me.0.inside ≡ true) × (seat.old.me.1 ≡ (0, None) ∷ []) }
        requires caller { seat.old.me.0.number ≡ Some (S.caller entry.now) }
        requires state { S.stands state (turnstile_terms self.now)
            (seat.old.me.0.front ++ entry.now ∷ []) }
        ensures home { seat.new.table_id ≡ seat.old.table_id }
        ensures place { result ≡ first_place_of self.now + length seat.old.me.0.front }
        ensures seat { seat.new.me ≡ (left seat.old.me.0 entry.now, []) }
    {
        let shared = &self.table.shared;
        drop(shared.exchange(seat, STATE, Some(state)));
        shared.fetch_add::<Leave<W>>(seat, SERVING, 1)
    }

    /// Both passes then have one front, the longer of the two.
    pub fn meet<R>(&self, _rt: &R, a: &mut TurnPass<S>, b: &mut TurnPass<S>)
        requires a_home { pass_home a.old ≡ turnstile_id self.now }
        requires b_home { pass_home b.old ≡ turnstile_id self.now }
        ensures passes { IsSamePass a.old a.new × IsSamePass b.old b.new }
        ensures one { front b.new ≡ front a.new }
        ensures either { (front a.new ≡ front a.old) ⊎ (front a.new ≡ front b.old) }
        ensures begins { IsPrefix (front a.old) (front a.new)
            × IsPrefix (front b.old) (front a.new) }
        ensures own { (own_calls a.new ≡ own_calls a.old) × (own_calls b.new ≡ own_calls b.old) }
        ensures turns { (has_turn a.new ≡ has_turn a.old) × (has_turn b.new ≡ has_turn b.old) }
        ensures seen { (ticket_seen a.new ≡ ticket_seen a.old)
            × (ticket_seen b.new ≡ ticket_seen b.old) }
    {
        self.tell(a, b);
        self.tell(b, a);
    }

    /// Tells the second pass what the first knows.
    fn tell(&self, from: &mut TurnPass<S>, to: &mut TurnPass<S>)
        requires homes { (pass_home from.old ≡ turnstile_id self.now)
            × (pass_home to.old ≡ turnstile_id self.now) }
        ensures from { IsSamePass from.old from.new × (from.new.seat.me ≡ from.old.seat.me) }
        ensures to { IsSamePass to.old to.new × (to.new.seat.me
            ≡ (compared (with_note to.old.seat.me.0 from.old.seat.me.0), to.old.seat.me.1)) }
        ensures begins { IsPrefix (front from.old) (front to.new) }
        ensures grows { GrowsByOthers S.caller to.old.seat.me.0 to.new.seat.me.0 }
    {
        let shared = &self.table.shared;
        let note = shared.split_seat::<MakeNote>(&mut from.seat);
        shared.join_seat::<ReadNote>(&mut to.seat, note);
        shared.load::<TakeLonger<S>>(&mut to.seat, TICKET);
    }

    /// Uses up the roll: every caller in the pass's front is one of the passes that the roll made.
    pub fn seal<R>(&self, _rt: &R, roll: TurnRoll<S>, pass: &mut TurnPass<S>)
        requires roll_home { roll_home roll ≡ turnstile_id self.now }
        requires pass_home { pass_home pass.old ≡ turnstile_id self.now }
        ensures pass { IsSamePass pass.old pass.new }
        ensures callers { All (λ e. S.caller e < passes_made roll) (front pass.new) }
        ensures front { front pass.new ≡ front pass.old }
        ensures own { own_calls pass.new ≡ own_calls pass.old }
        ensures turn { has_turn pass.new ≡ has_turn pass.old }
        ensures seen { ticket_seen pass.new ≡ ticket_seen pass.old }
    {
        let TurnRoll { seat, made: _ } = roll;
        let shared = &self.table.shared;
        shared.join_seat::<TakeRoll>(&mut pass.seat, seat);
        shared.load::<LearnCount<S>>(&mut pass.seat, TICKET);
    }
}
