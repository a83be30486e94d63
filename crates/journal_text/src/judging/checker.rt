//! A checker of histories.
ghost use Rattle.std.specs.Prelude.{◌≡◌, ◌+◌, ◌<◌, ◌-◌, ◌^◌, ◌++◌, ◌∷◌, [], ℕ, List, OnOk, OnErr, IfOk};
ghost use Rattle.session_machine.specs.declared.entry.Entry.{Entry};
ghost use Rattle.session_machine.specs.History.{IsFormed};
ghost use Rattle.journal_text.specs.JudgingChecker.{HasTaken, item_among, legal_front};
ghost use Rattle.journal_text.specs.JudgingDeeds.{ItemsFit};
ghost use Rattle.journal_text.specs.JudgingEntries.{Judges, item_before};
ghost use Rattle.journal_text.specs.JudgingObjections.{ObjectsTo};

use super::history_state::HistoryState;
use super::{Judgement, Objection};
use asp_base::{Bytes, NoMemory};
use session_machine::{Entry, Item, Profile};
use std::alloc::Global;
use std::collections::BTreeMap;
use std::marker::Model;

/// It takes the entries of a list in turn, and judges whether they are a legal history of its
/// profile from no items and no fault. It keeps the items that there are, and no entry.
#[derive(Debug, Drop)]
pub struct Checker {
    alloc: Global,
    first_place: u64,
    taken: u64,
    verdict: Judgement,
    standing: HistoryState,
}

impl Model for Checker {
    ghost use Rattle.std.specs.Prelude.{◌<◌, ◌-◌, ◌^◌};
    ghost use Rattle.journal_text.specs.JudgingChecker.{Checked};

    ghost Value = { Checked };

    ghost view = { λ c. record {
      first_place = c.first_place;
      taken = c.taken;
      verdict =
          c.verdict;
      known = c.standing;
    } };

    ghost invariant = { λ c. c.first_place < 2 ^ 63 - 1 };
}

impl Checker {
    /// A checker of this profile that has taken no entry. The first that it takes has the place
    /// `first_place`, below 2^63 - 1. It takes no memory.
    pub fn new(alloc: Global, profile: Profile, first_place: u64) -> Checker
        requires { first_place < 2 ^ 63 - 1 }
        ensures first_place { result.first_place ≡ first_place }
        ensures none_taken { result.taken ≡ 0 }
        ensures profile { result.known.profile ≡ profile }
        ensures taken { HasTaken result [] }
    {
        Checker {
            alloc,
            first_place,
            taken: 0,
            verdict: Judgement::Legal { entries: 0 },
            standing: HistoryState::new(alloc, profile),
        }
    }

    /// Takes the next entry, which is in range; it has taken fewer than 2^63 - 1. After `NoMemory`
    /// nothing has changed.
    pub fn take(&mut self, entry: Entry) -> Result<(), NoMemory>
        requires few { self.old.taken < 2 ^ 63 - 1 }
        requires entry { IsFormed entry }

        // The checker stands for the list that it took.
        ensures taken { (list : List Entry) → HasTaken self.old list
            → OnOk result (HasTaken self.new (list ++ entry ∷ [])) }

        ensures one_more { OnOk result (self.new.taken ≡ self.old.taken + 1) }
        ensures first_place { self.new.first_place ≡ self.old.first_place }
        ensures profile { self.new.known.profile ≡ self.old.known.profile }
        ensures err { OnErr result (self.new ≡ self.old) }
    {
        if let Judgement::Illegal { .. } = self.verdict {
            self.taken += 1;
            return Ok(());
        }
        let place = self.first_place + self.taken;
        self.verdict = self.standing.judge(self.alloc, entry, place, self.taken)?;
        self.taken += 1;
        Ok(())
    }

    /// As `take`, and tells the first entry that may not stand, if there is one by now. After
    /// `NoMemory` nothing has changed.
    pub fn take_telling(&mut self, entry: Entry) -> Result<Option<Objection>, NoMemory>
        requires few { self.old.taken < 2 ^ 63 - 1 }
        requires entry { IsFormed entry }
        ensures taken { (list : List Entry) → HasTaken self.old list
            → OnOk result (HasTaken self.new (list ++ entry ∷ [])) }
        ensures told { IfOk result (ObjectsTo self.new.verdict) }
        ensures one_more { OnOk result (self.new.taken ≡ self.old.taken + 1) }
        ensures first_place { self.new.first_place ≡ self.old.first_place }
        ensures profile { self.new.known.profile ≡ self.old.known.profile }
        ensures err { OnErr result (self.new ≡ self.old) }
    {
        if let Some(objection) = self.verdict.objection()? {
            self.taken += 1;
            return Ok(Some(objection));
        }
        let place = self.first_place + self.taken;
        let verdict = self.standing.judge(self.alloc, entry, place, self.taken)?;
        let told = verdict.objection()?;
        self.verdict = verdict;
        self.taken += 1;
        Ok(told)
    }

    /// The items behind the entries taken, up to the first that may not stand. It takes no memory.
    pub fn map(&self) -> &BTreeMap<Bytes, Item>
        ensures items { result.now.entries ≡ self.now.known.items }
        ensures fits { ItemsFit result.now.entries }
        ensures map { (list : List Entry) → HasTaken self.now list → (key : List ℕ)
            → item_among result.now.entries key ≡ item_before self.now.known.profile
            (legal_front self.now.first_place self.now.verdict list) key }
    {
        self.standing.items()
    }

    /// The profile whose rules are checked.
    pub fn profile(&self) -> Profile
        ensures { result ≡ self.now.known.profile }
    {
        self.standing.profile()
    }

    /// The judgement of the entries taken. It takes no memory.
    pub fn verdict(&self) -> &Judgement
        ensures verdict { result.now ≡ self.now.verdict }
        ensures judges { (list : List Entry) → HasTaken self.now list
            → Judges self.now.known.profile self.now.first_place list result.now }
    {
        &self.verdict
    }
}
