//! The store and its calls.
ghost use Rattle.std.specs.Prelude.{◌≡◌, ◌≤◌, ◌<◌, All, length};
ghost use Rattle.turnstile.specs.Turns.{turnstile_terms};
ghost use Rattle.state_store.specs.Shards.{shard_of_key};

use crate::new_shards::{NewShards, open_shards};
use crate::noted_turns::{noted_look, noted_turn};
use crate::store_desk::StoreDesk;
use crate::sweep::sweep_shard;
use crate::{NoNotes, Note, Noted, Notes, SweepCount, SweepEnd};
use asp_base::{Gate, NoMemory};
use asp_messages::{Reply, Request};
use cookie_source::{CookieSource, FreshCookies};
use keeper::Keeper;
use placement::byte_hash;
use std::alloc::Global;
use std::snapshot::Snapshot;
use std::sync::{Arc, Wait};
use turnstile::{Stands, TurnPass, TurnRoll, TurnTerms, Turnstile};

/// Sessions that threads share, in 1 to 64 shards. Each shard is behind a turnstile of its own.
#[derive(Drop)]
pub struct Store<K: Keeper>
where
    StoreDesk<K>: Stands,
{
    turnstiles: Vec<Turnstile<StoreDesk<K>>>,
    terms: TurnTerms,
    ghost one_terms: { All (λ turns. turnstile_terms turns ≡ terms) turnstiles.items },
    ghost shards: { (1 ≤ length turnstiles.items) × (length turnstiles.items ≤ 64) },
}

/// A new store and the only roll that it will ever have.
#[derive(Drop)]
pub struct FreshStore<K: Keeper>
where
    StoreDesk<K>: Stands,
{
    pub store: Store<K>,
    pub roll: Roll<K>,
}

/// What a request was answered, and its place in the history of its shard.
#[derive(Debug, PartialEq, Eq, Drop)]
pub struct Answer {
    /// The reply.
    pub reply: Reply,
    /// The place, from the store's first place on; `None` where no place was left.
    pub place: Option<u64>,
}

/// The shard of the key, of so many shards.
pub fn shard_of(key: &[u8], shards: u64) -> u64
    requires { (1 ≤ shards) × (shards ≤ 64) }
    ensures shard { result ≡ shard_of_key key.now shards }
    ensures below { result < shards }
{
    byte_hash(key) % shards
}

impl<K: Keeper + Drop> Store<K> {
    ghost use Rattle.std.specs.Prelude.{ℕ, ◌<◌, ◌≢◌, ◌↔◌, ◌^◌, ◌-◌, ◌+◌, [], IfOk, IsErr, IfSome, IfNone, IsNone};
    ghost use Rattle.asp_messages.specs.Ranges.{RequestFits, ReplyFits};
    ghost use Rattle.turnstile.specs.TurnRule.{end_of_places};
    ghost use Rattle.state_store.specs.StoreTurns.{IsAsked, FindsNoPlace, Meets};
    ghost use Rattle.state_store.specs.NotedTurns.{IfPlaced, IsAskedWith, IsLookWith, IsPlacesOut};
    ghost use Rattle.state_store.specs.Sweep.{Sweeps};
    ghost use Rattle.state_store.specs.NewShards.{IsNewKeeper};
    ghost use Rattle.state_store.specs.Passes.{shards_of, first_place as store_first_place, first_cookie as store_first_cookie, last_cookie as store_last_cookie, shard_for, caller_of, passes_of, view_in, view_for, call_of, IsPassOf, IsRollOf, KnowsNothing, LocksHoldInShard, TicketsNeverFall, CallersAreBelow};

    /// A store with a shard for each of 1 to 64 keepers, whose cookies go from `first_cookie` to
    /// `last_cookie`, and whose places begin with `first_place` in each shard; and its roll. After
    /// `NoMemory` the keepers are dropped.
    pub fn new<R>(
        rt: &R,
        alloc: Global,
        keepers: Vec<K>,
        first_cookie: u64,
        last_cookie: u64,
        first_place: u64,
    ) -> Result<FreshStore<K>, NoMemory>
        requires shards { (1 ≤ length keepers.items) × (length keepers.items ≤ 64) }
        requires keepers { All (IsNewKeeper K.told K.count) keepers.items }
        requires positive { 1 ≤ first_cookie }
        requires some { first_cookie ≤ last_cookie }
        requires in_range { last_cookie < 2 ^ 63 }
        requires place { first_place ≤ end_of_places }
        ensures shards { IfOk result (λ f. shards_of f.store ≡ length keepers.items) }
        ensures place { IfOk result (λ f. store_first_place f.store ≡ first_place) }
        ensures first_cookie { IfOk result (λ f. store_first_cookie f.store ≡ first_cookie) }
        ensures last_cookie { IfOk result (λ f. store_last_cookie f.store ≡ last_cookie) }
        ensures roll { IfOk result (λ f. IsRollOf f.store f.roll) }
        ensures no_pass { IfOk result (λ f. passes_of f.roll ≡ 0) }
    {
        let terms = TurnTerms {
            first_place,
            first_number: first_cookie,
            last_number: last_cookie,
        };
        let cookies = CookieSource::new(
            rt,
            alloc,
            terms.first_number,
            terms.last_number,
            keepers.len() as u64,
        )?;
        let FreshCookies { source, drawers } = cookies;
        let Ok(source) = Arc::new(alloc, source) else {
            return Err(NoMemory);
        };
        let shards = open_shards(rt, alloc, keepers, &source, drawers, terms)?;
        let NewShards { turnstiles, rolls } = shards;
        Ok(FreshStore {
            store: Store { turnstiles, terms },
            roll: Roll { rolls, made: 0 },
        })
    }

    /// A pass with the next caller number, from 0, which knows of no entry. After `NoMemory` the
    /// roll is unchanged.
    pub fn pass<R>(&self, rt: &R, alloc: Global, roll: &mut Roll<K>) -> Result<Pass<K>, NoMemory>
        requires roll { IsRollOf self.now roll.old }
        requires numbers_left { passes_of roll.old < 2 ^ 63 - 1 }
        ensures roll { IsRollOf self.now roll.new }
        ensures made { IfOk result (λ _. passes_of roll.new ≡ passes_of roll.old + 1) }
        ensures pass { IfOk result (IsPassOf self.now) }
        ensures number { IfOk result (λ pass. caller_of pass ≡ passes_of roll.old) }
        ensures knows_nothing { IfOk result KnowsNothing }
        ensures unchanged { IsErr result → roll.new ≡ roll.old }
    {
        let mut passes = Vec::with_capacity(alloc, self.turnstiles.len())?;
        for at in 0..self.turnstiles.len() {
            let part = self.turnstiles[at].pass(rt, &mut roll.rolls[at]);
            passes.push_reserved(part);
        }
        let caller = roll.made;
        roll.made += 1;
        Ok(Pass { passes, caller })
    }

    /// Answers a request at the moment `t`, in milliseconds, at most 2^62, in one turn of the shard
    /// of its key, and so leaves one entry in that shard's history. It waits for its turn only.
    ///
    /// `PlacesOut` is answered exactly where the shard's ticket word stood at the end of places,
    /// and then nothing changes; `CookiesOut` exactly where an acquire drew no cookie;
    /// `KeeperFault` only where the keeper's count of faults rose.
    pub fn ask<R: Wait, G: Gate>(
        &self,
        rt: &R,
        pass: &mut Pass<K>,
        request: Request,
        t: u64,
        gate: &G,
    ) -> Answer
        requires pass { IsPassOf self.now pass.old }
        requires request { RequestFits request }
        requires moment { t ≤ 2 ^ 62 }
        ensures pass { IsPassOf self.now pass.new }
        ensures caller { caller_of pass.new ≡ caller_of pass.old }
        ensures fits { ReplyFits result.reply }
        ensures asked { IfSome result.place (IsAsked (call_of self.now pass.old t) request
            (view_for self.now pass.old request.key) (view_for self.now pass.new request.key)
            result.reply) }
        ensures locks { LocksHoldInShard self.now pass.new }
        ensures others { (shard : ℕ) → shard ≢ shard_for self.now request.key
            → view_in pass.new shard ≡ view_in pass.old shard }
        ensures no_place { IfNone result.place (FindsNoPlace
            (view_for self.now pass.old request.key) (view_for self.now pass.new request.key)) }
        ensures places_out { IsNone result.place ↔ (result.reply ≡ Reply.PlacesOut) }
        ensures spent { IsNone result.place
            ↔ ((view_for self.now pass.new request.key).ticket ≡ end_of_places) }
        ensures stays_spent { (view_for self.now pass.old request.key).ticket ≡ end_of_places
            → IsNone result.place }
        ensures never_falls { TicketsNeverFall pass.old pass.new }
    {
        let shard = shard_of(request.key.as_slice(), self.turnstiles.len() as u64);
        let at = shard as usize;
        let turns = &self.turnstiles[at];
        let part = &mut pass.passes[at];
        let about = Snapshot::of(&request);
        let Ok(mut turn) = turns.enter(rt, part) else {
            return Answer {
                reply: Reply::PlacesOut,
                place: None,
            };
        };
        gate.inside(rt, shard);
        let acted = turn.state().act(rt, request, t);
        let note = Note::asked(
            part.caller(),
            t,
            about,
            acted.drawn,
            &acted.reply,
            acted.faults,
        );
        let place = turns.leave(rt, part, turn, &note);
        gate.after(rt, shard);
        Answer {
            reply: acted.reply,
            place: Some(place),
        }
    }

    /// As `ask`, and gives the entry that was left, the last of the front. The request's content is
    /// shared with the keeper. Where there is no memory for that, no item changes and the reply is
    /// `NoMemory`, but `CookiesOut` where no cookie was left.
    pub fn ask_noted<R: Wait, G: Gate>(
        &self,
        rt: &R,
        pass: &mut Pass<K>,
        request: Request,
        t: u64,
        gate: &G,
    ) -> Noted
        requires pass { IsPassOf self.now pass.old }
        requires request { RequestFits request }
        requires moment { t ≤ 2 ^ 62 }
        ensures pass { IsPassOf self.now pass.new }
        ensures caller { caller_of pass.new ≡ caller_of pass.old }
        ensures asked { IfPlaced result (IsAskedWith (call_of self.now pass.old t)
            (shard_for self.now request.key) request (view_for self.now pass.old request.key)
            (view_for self.now pass.new request.key)) }
        ensures locks { LocksHoldInShard self.now pass.new }
        ensures others { (shard : ℕ) → shard ≢ shard_for self.now request.key
            → view_in pass.new shard ≡ view_in pass.old shard }
        ensures no_place { IsPlacesOut result → FindsNoPlace
            (view_for self.now pass.old request.key) (view_for self.now pass.new request.key) }
        ensures spent { IsPlacesOut result
            ↔ ((view_for self.now pass.new request.key).ticket ≡ end_of_places) }
        ensures stays_spent { (view_for self.now pass.old request.key).ticket ≡ end_of_places
            → IsPlacesOut result }
        ensures never_falls { TicketsNeverFall pass.old pass.new }
    {
        let shard = shard_of(request.key.as_slice(), self.turnstiles.len() as u64);
        let turns = &self.turnstiles[shard as usize];
        let part = &mut pass.passes[shard as usize];
        noted_turn(rt, turns, part, shard, request, t, gate)
    }

    /// One turn in this shard, in which the item is removed that expired first at the moment `t`,
    /// in milliseconds, at most 2^62; and the entry that was left, the last of the front.
    /// `PlacesOut` is answered as by `ask`; where there is no memory for the look its entry says
    /// so.
    pub fn sweep_turn<R: Wait, G: Gate>(
        &self,
        rt: &R,
        pass: &mut Pass<K>,
        shard: u64,
        t: u64,
        gate: &G,
    ) -> Noted
        requires pass { IsPassOf self.now pass.old }
        requires shard { shard < shards_of self.now }
        requires moment { t ≤ 2 ^ 62 }
        ensures pass { IsPassOf self.now pass.new }
        ensures caller { caller_of pass.new ≡ caller_of pass.old }
        ensures looked { IfPlaced result (IsLookWith K.told (call_of self.now pass.old t) shard
            (view_in pass.old shard) (view_in pass.new shard)) }
        ensures locks { LocksHoldInShard self.now pass.new }
        ensures others { (other : ℕ) → other ≢ shard
            → view_in pass.new other ≡ view_in pass.old other }
        ensures no_place { IsPlacesOut result
            → FindsNoPlace (view_in pass.old shard) (view_in pass.new shard) }
        ensures spent { IsPlacesOut result ↔ ((view_in pass.new shard).ticket ≡ end_of_places) }
        ensures stays_spent { (view_in pass.old shard).ticket ≡ end_of_places
            → IsPlacesOut result }
        ensures never_falls { TicketsNeverFall pass.old pass.new }
    {
        let index = shard as usize;
        let turns = &self.turnstiles[index];
        let part = &mut pass.passes[index];
        noted_look(rt, turns, part, shard, t, gate)
    }

    /// Removes what has expired at the moment `t`, in milliseconds, at most 2^62, shard by shard
    /// and one item a turn. It leaves a shard where nothing was left, or after 1,000 removals; a
    /// fault, want of memory and want of a place end it at once.
    pub fn sweep<R: Wait, G: Gate>(
        &self,
        rt: &R,
        pass: &mut Pass<K>,
        t: u64,
        gate: &G,
    ) -> SweepCount
        requires pass { IsPassOf self.now pass.old }
        requires moment { t ≤ 2 ^ 62 }
        ensures pass { IsPassOf self.now pass.new }
        ensures caller { caller_of pass.new ≡ caller_of pass.old }
        ensures sweeps { Sweeps K.told (call_of self.now pass.old t) (shards_of self.now)
            (view_in pass.old) (view_in pass.new) result }
        ensures locks { LocksHoldInShard self.now pass.new }
        ensures never_falls { TicketsNeverFall pass.old pass.new }
    {
        self.sweep_noted(rt, pass, t, gate, &NoNotes)
    }

    /// As `sweep`, and tells `notes` of each entry that it leaves.
    pub fn sweep_noted<R: Wait, G: Gate, N: Notes>(
        &self,
        rt: &R,
        pass: &mut Pass<K>,
        t: u64,
        gate: &G,
        notes: &N,
    ) -> SweepCount
        requires pass { IsPassOf self.now pass.old }
        requires moment { t ≤ 2 ^ 62 }
        ensures pass { IsPassOf self.now pass.new }
        ensures caller { caller_of pass.new ≡ caller_of pass.old }
        ensures sweeps { Sweeps K.told (call_of self.now pass.old t) (shards_of self.now)
            (view_in pass.old) (view_in pass.new) result }
        ensures locks { LocksHoldInShard self.now pass.new }
        ensures never_falls { TicketsNeverFall pass.old pass.new }
    {
        let mut removed = 0;
        let mut end = SweepEnd::Clear;
        for at in 0..self.turnstiles.len() {
            let part = sweep_shard(
                rt,
                &self.turnstiles[at],
                &mut pass.passes[at],
                at as u64,
                t,
                gate,
                notes,
            );
            removed += part.removed;
            if !part.end.goes_on() {
                return SweepCount {
                    removed,
                    end: part.end,
                };
            }
            end = end.and(part.end);
        }
        SweepCount { removed, end }
    }

    /// Both passes then know of every shard what the one knew that knew more of it.
    pub fn meet<R>(&self, rt: &R, a: &mut Pass<K>, b: &mut Pass<K>)
        requires a { IsPassOf self.now a.old }
        requires b { IsPassOf self.now b.old }
        ensures a { IsPassOf self.now a.new × (caller_of a.new ≡ caller_of a.old) }
        ensures b { IsPassOf self.now b.new × (caller_of b.new ≡ caller_of b.old) }
        ensures meets { (shard : ℕ) → Meets (view_in a.old shard) (view_in b.old shard)
            (view_in a.new shard) (view_in b.new shard) }
        ensures locks { LocksHoldInShard self.now a.new }
    {
        for at in 0..self.turnstiles.len() {
            self.turnstiles[at].meet(rt, &mut a.passes[at], &mut b.passes[at]);
        }
    }

    /// Uses up the roll. Each caller that the pass knows of is one of the passes that it made.
    pub fn seal<R>(&self, rt: &R, roll: Roll<K>, pass: &mut Pass<K>)
        requires roll { IsRollOf self.now roll }
        requires pass { IsPassOf self.now pass.old }
        ensures pass { IsPassOf self.now pass.new }
        ensures caller { caller_of pass.new ≡ caller_of pass.old }
        ensures callers { CallersAreBelow (passes_of roll) pass.new }
        ensures same { (shard : ℕ) → view_in pass.new shard ≡ view_in pass.old shard }
    {
        let Roll { mut rolls, made: _ } = roll;
        while let Some(part) = rolls.pop() {
            let at = rolls.len();
            self.turnstiles[at].seal(rt, part, &mut pass.passes[at]);
        }
    }
}

/// The right to make passes to a store.
#[derive(Drop)]
pub struct Roll<K: Keeper>
where
    StoreDesk<K>: Stands,
{
    pub(crate) rolls: Vec<TurnRoll<StoreDesk<K>>>,
    pub(crate) made: u64,
}

/// The right to ask a store, under one caller number in every shard.
///
/// Contracts see the number and, for each shard, what the pass knows of it.
#[derive(Drop)]
pub struct Pass<K: Keeper>
where
    StoreDesk<K>: Stands,
{
    pub(crate) passes: Vec<TurnPass<StoreDesk<K>>>,
    pub(crate) caller: u64,
}

impl<K: Keeper> Pass<K> {
    ghost use Rattle.state_store.specs.Passes.{caller_of};

    /// The caller number.
    pub fn caller(&self) -> u64
        ensures { result ≡ caller_of self.now }
    {
        self.caller
    }
}
