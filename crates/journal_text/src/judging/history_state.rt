//! What is known behind a legal history, and whether an entry may stand next.
ghost use Rattle.std.specs.Prelude.{◌≡◌, ◌⊎◌, ℕ, ◌+◌, ◌-◌, ◌<◌, ◌≤◌, ◌^◌, ◌++◌, ◌∷◌, [], List, length, IfOk, IfSome, IsFalse, IsTrue, MatchOption, OnErr, false};
ghost use Rattle.asp_messages.specs.declared.reply.Reply.TheVariants.{Done};
ghost use Rattle.session_machine.specs.declared.entry.Deed.TheVariants.{Expired};
ghost use Rattle.session_machine.specs.declared.entry.Entry.{Entry};
ghost use Rattle.session_machine.specs.History.{DeedFits, IsDead, IsFormed, IsLegalIn, nothing};
ghost use Rattle.session_machine.specs.Machine.{Circumstances};
ghost use Rattle.session_machine.specs.Profiles.{newest};
ghost use Rattle.journal_text.specs.JudgingChecker.{KnowsHistory, item_among, legal_front};
ghost use Rattle.journal_text.specs.JudgingDeeds.{IsBarred, IsDone, ItemsFit};
ghost use Rattle.journal_text.specs.JudgingEntries.{IsNotDead, IsReason, Judges};
ghost use Rattle.journal_text.specs.JudgingObjections.{IsIllegal};

use super::asking::take_request;
use super::replies::{has_risen, wrong_reply};
use super::{Judgement, Why};
use asp_base::{Bytes, NoMemory};
use asp_messages::Reply;
use session_machine::{Deed, Entry, Item, Kind, Profile, live};
use std::alloc::Global;
use std::collections::BTreeMap;
use std::marker::Model;

/// What is known behind a legal history: the items that there are, the count of faults, and the
/// greatest cookie drawn.
#[derive(Debug, Drop)]
pub struct HistoryState {
    profile: Profile,
    items: BTreeMap<Bytes, Item>,
    faults: u64,
    above: u64,
}

impl Model for HistoryState {
    ghost use Rattle.journal_text.specs.JudgingChecker.{Known};
    ghost use Rattle.journal_text.specs.JudgingDeeds.{ItemsFit};

    ghost Value = { Known };

    ghost view = { λ s. record {
      profile = s.profile;
      faults = s.faults;
      draw = s.above;
      items = s.items.entries;
    } };

    ghost invariant = { λ s. ItemsFit s.items.entries };
}

/// Whether the key has an item that had expired.
fn has_expired(items: &BTreeMap<Bytes, Item>, key: &Bytes, t: u64) -> bool
    requires { ItemsFit items.now.entries }
    ensures yes { IsTrue result → IsDead (item_among items.now.entries key.now) t }
    ensures no { IsFalse result → IsNotDead (item_among items.now.entries key.now) t }
{
    match items.get(key) {
        Some(item) => !live(item, t),
        None => false,
    }
}

/// An expiry: the item that had expired is removed. It is the same in every profile.
fn expire(items: &mut BTreeMap<Bytes, Item>, key: &Bytes, t: u64) -> Option<Why>
    requires fits { ItemsFit items.old.entries }
    ensures expired { let at : Circumstances = record { moment = t; drawn = 0; rose = false } in
        MatchOption result
        (IsDone newest items.old.entries items.new.entries (Expired key.now) at Done)
        (IsBarred newest items.old.entries (Expired key.now) at Done) }
    ensures stays { IfSome result (λ _. items.new.entries ≡ items.old.entries) }
    ensures fits { ItemsFit items.new.entries }
{
    if !has_expired(items, key, t) {
        return Some(Why::NotDue);
    }
    items.remove(key);
    None
}

/// The deed of the entry that comes next. `rose` is whether the count of faults rose with it.
fn act(
    alloc: Global,
    profile: Profile,
    items: &mut BTreeMap<Bytes, Item>,
    deed: Deed,
    t: u64,
    drawn: u64,
    rose: bool,
    reply: Reply,
) -> Result<Option<Why>, NoMemory>
    requires moment { t ≤ 2 ^ 62 }
    requires deed { DeedFits deed drawn reply }
    requires fits { ItemsFit items.old.entries }
    ensures acted { let at : Circumstances = record { moment = t; drawn = drawn; rose = rose } in
        IfOk result (λ why. MatchOption why
        (IsDone profile items.old.entries items.new.entries deed at reply)
        (IsBarred profile items.old.entries deed at reply)) }
    ensures stays { IfOk result (λ why. IfSome why
        (λ _. items.new.entries ≡ items.old.entries)) }
    ensures fits { ItemsFit items.new.entries }
    ensures err { OnErr result (items.new.entries ≡ items.old.entries) }
{
    match deed {
        Deed::Asked(request) => take_request(alloc, profile, items, request, t, drawn, rose, reply),
        Deed::Expired(key) => Ok(expire(items, &key, t)),
        Deed::Looked => wrong_reply(reply, Kind::Done, None, rose),
    }
}

/// Whether no cookie was drawn, or a greater one than `above`.
fn raises(above: u64, drawn: u64) -> bool
    ensures raises { IsTrue result → (drawn ≡ 0) ⊎ (above < drawn) }
    ensures back { IsFalse result → (0 < drawn) × (drawn ≤ above) }
{
    drawn == 0 || drawn > above
}

impl HistoryState {
    /// No item, no fault and no cookie, in this profile. It takes no memory.
    pub fn new(alloc: Global, profile: Profile) -> HistoryState
        ensures knows { KnowsHistory result [] }
        ensures profile { result.profile ≡ profile }
    {
        HistoryState {
            profile,
            items: BTreeMap::new(alloc),
            faults: 0,
            above: 0,
        }
    }

    /// The profile whose rules are checked.
    pub fn profile(&self) -> Profile
        ensures { result ≡ self.now.profile }
    {
        self.profile
    }

    /// The items that there are.
    pub fn items(&self) -> &BTreeMap<Bytes, Item>
        ensures items { result.now.entries ≡ self.now.items }
        ensures fits { ItemsFit result.now.entries }
    {
        &self.items
    }

    /// Why the entry may not stand next, and then nothing changes, or `None` where it may, which is
    /// then known too.
    fn admit(&mut self, alloc: Global, entry: Entry) -> Result<Option<Why>, NoMemory>
        requires { IsFormed entry }
        ensures admitted { (before : List Entry) → IsLegalIn self.old.profile nothing 0 before
            → KnowsHistory self.old before
            → IfOk result (λ why. MatchOption why
            (IsLegalIn self.old.profile nothing 0 (before ++ entry ∷ [])
            × KnowsHistory self.new (before ++ entry ∷ []))
            (IsReason self.old.profile before entry)) }
        ensures stays { IfOk result (λ why. IfSome why (λ _. self.new ≡ self.old)) }
        ensures profile { self.new.profile ≡ self.old.profile }
        ensures err { OnErr result (self.new ≡ self.old) }
    {
        let Entry {
            moment,
            deed,
            drawn,
            reply,
            faults,
            ..
        } = entry;
        if faults < self.faults {
            return Ok(Some(Why::FaultsFell {
                before: self.faults,
                found: faults,
            }));
        }
        if !raises(self.above, drawn) {
            return Ok(Some(Why::CookieBack {
                above: self.above,
                found: drawn,
            }));
        }
        let rose = has_risen(self.faults, faults);
        match act(
            alloc,
            self.profile,
            &mut self.items,
            deed,
            moment,
            drawn,
            rose,
            reply,
        )? {
            Some(why) => Ok(Some(why)),
            None => {
                self.faults = faults;
                self.above = self.above.max(drawn);
                Ok(None)
            }
        }
    }

    /// The judgement of `taken` legal entries and this one, which has the place `place`. An entry
    /// that may not stand changes nothing.
    pub fn judge(
        &mut self,
        alloc: Global,
        entry: Entry,
        place: u64,
        taken: u64,
    ) -> Result<Judgement, NoMemory>
        requires entry { IsFormed entry }
        requires few { taken < 2 ^ 63 - 1 }
        ensures judged { (first_place : ℕ) (before : List Entry)
            → place ≡ first_place + length before → taken ≡ length before
            → IsLegalIn self.old.profile nothing 0 before → KnowsHistory self.old before
            → IfOk result (λ judgement.
            Judges self.old.profile first_place (before ++ entry ∷ []) judgement
            × KnowsHistory self.new (legal_front first_place judgement (before ++ entry ∷ []))) }
        ensures stays { IfOk result (λ judgement. IsIllegal judgement → self.new ≡ self.old) }
        ensures profile { self.new.profile ≡ self.old.profile }
        ensures err { OnErr result (self.new ≡ self.old) }
    {
        match self.admit(alloc, entry)? {
            Some(why) => Ok(Judgement::Illegal { place, why }),
            None => Ok(Judgement::Legal { entries: taken + 1 }),
        }
    }
}
