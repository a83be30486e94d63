//! A keeper with faults where it is told to have them.
ghost use Rattle.std.specs.Prelude.{◌≡◌, ◌↔◌, ℕ, ◌<◌, ◌^◌, Some, None, IfOk, IfSome, IsTrue, OnOk, OnErr, Contains, if◌then◌else◌};
ghost use Rattle.asp_base.specs.InMemory.{counted_once_more};
ghost use Rattle.asp_messages.specs.Ranges.{KeyFits};
ghost use Rattle.session_machine.specs.Liveness.{ItemFits};
ghost use Rattle.keeper.specs.Due.{TellsDue};
ghost use Rattle.keeper.specs.Faulty.{FailsListed, FloorStays, HasCauseInAll, faults_of, told_inside};
ghost use Rattle.keeper.specs.Items.{StillTells, TellsItem, TellsSets};

use crate::{KeepError, Keeper};
use asp_base::Bytes;
use session_machine::Item;
use std::marker::Model;

/// A keeper over another that answers the listed calls by faults. Its calls of `get`, `put`, `cut`
/// and `due`
/// are numbered together, from 0.
#[derive(Debug, Drop)]
pub struct FaultyKeeper<K> {
    inner: K,
    calls: u64,
    fails: Vec<u64>,
    faults: u64,
}

impl<K> Model for FaultyKeeper<K> {
    ghost use Rattle.keeper.specs.Faulty.{Wrapped};

    ghost Value = { Wrapped K };

    ghost view = { λ k. record {
      inner = k.inner;
      calls = k.calls;
      fails = k.fails.items;
      faults = k.faults;
    } };
}

impl<K> FaultyKeeper<K> {
    /// A keeper over `inner`. `fails` lists the numbers of the calls that are answered by a fault;
    /// such a fault is counted, its call does not reach `inner`, and every other call is that of
    /// `inner`.
    pub fn new(inner: K, fails: Vec<u64>) -> FaultyKeeper<K>
        ensures { result ≡ record { inner = inner; calls = 0; fails = fails.items; faults = 0 } }
    {
        FaultyKeeper {
            inner,
            calls: 0,
            fails,
            faults: 0,
        }
    }

    /// Counts the call, and its fault where it is listed; answers whether it is.
    fn fails_next(&mut self) -> bool
        ensures listed { IsTrue result ↔ Contains self.old.fails self.old.calls }
        ensures inner { self.new.inner ≡ self.old.inner }
        ensures calls { self.new.calls ≡ counted_once_more self.old.calls }
        ensures fails { self.new.fails ≡ self.old.fails }
        ensures faults { self.new.faults
            ≡ (if result then counted_once_more self.old.faults else self.old.faults) }
    {
        let call = self.calls;
        self.calls = call.saturating_add(1);
        let fails = self.fails.contains(&call);
        if fails {
            self.faults = self.faults.saturating_add(1);
        }
        fails
    }
}

impl<K: Keeper> Keeper for FaultyKeeper<K> {
    ghost told = { told_inside ⟦<K as Keeper>⟧ };

    ghost floor = { λ k. K.floor k.inner };

    ghost count = { faults_of ⟦<K as Keeper>⟧ };

    ghost can_count = { λ n. n < 2 ^ 64 };

    ghost use Rattle.std.proofs.Common.{arith};

    ghost counts = { λ k. omega arith };

    fn get(&mut self, key: &Bytes) -> Result<Option<Item>, KeepError>
        requires { KeyFits key.now }
        ensures item { IfOk result
            (TellsItem (told_inside ⟦<K as Keeper>⟧ self.new) key.now) }
        ensures fits { IfOk result (λ item. IfSome item ItemFits) }
        ensures same { StillTells (told_inside ⟦<K as Keeper>⟧ self.old)
            (told_inside ⟦<K as Keeper>⟧ self.new) }
        ensures floor { FloorStays ⟦<K as Keeper>⟧ self.old self.new }
        ensures cause { HasCauseInAll ⟦<K as Keeper>⟧ self.old self.new result }
        ensures failing { FailsListed ⟦<K as Keeper>⟧ self.old self.new result }
    {
        if self.fails_next() {
            return Err(KeepError::Fault);
        }
        self.inner.get(key)
    }

    fn put(&mut self, key: &Bytes, item: Item) -> Result<(), KeepError>
        requires key { KeyFits key.now }
        requires item { ItemFits item }
        ensures ok { OnOk result
            (TellsSets (told_inside ⟦<K as Keeper>⟧ self.old)
            (told_inside ⟦<K as Keeper>⟧ self.new) key.now (Some item)) }
        ensures err { OnErr result
            (StillTells (told_inside ⟦<K as Keeper>⟧ self.old)
            (told_inside ⟦<K as Keeper>⟧ self.new)) }
        ensures floor { FloorStays ⟦<K as Keeper>⟧ self.old self.new }
        ensures cause { HasCauseInAll ⟦<K as Keeper>⟧ self.old self.new result }
        ensures failing { FailsListed ⟦<K as Keeper>⟧ self.old self.new result }
    {
        if self.fails_next() {
            return Err(KeepError::Fault);
        }
        self.inner.put(key, item)
    }

    fn cut(&mut self, key: &Bytes) -> Result<(), KeepError>
        requires { KeyFits key.now }
        ensures ok { OnOk result
            (TellsSets (told_inside ⟦<K as Keeper>⟧ self.old)
            (told_inside ⟦<K as Keeper>⟧ self.new) key.now None) }
        ensures err { OnErr result
            (StillTells (told_inside ⟦<K as Keeper>⟧ self.old)
            (told_inside ⟦<K as Keeper>⟧ self.new)) }
        ensures floor { FloorStays ⟦<K as Keeper>⟧ self.old self.new }
        ensures cause { HasCauseInAll ⟦<K as Keeper>⟧ self.old self.new result }
        ensures failing { FailsListed ⟦<K as Keeper>⟧ self.old self.new result }
    {
        if self.fails_next() {
            return Err(KeepError::Fault);
        }
        self.inner.cut(key)
    }

    fn due(&mut self, t: u64) -> Result<Option<Bytes>, KeepError>
        ensures due { IfOk result (TellsDue (told_inside ⟦<K as Keeper>⟧ self.new) t) }
        ensures fits { IfOk result (λ key. IfSome key KeyFits) }
        ensures same { StillTells (told_inside ⟦<K as Keeper>⟧ self.old)
            (told_inside ⟦<K as Keeper>⟧ self.new) }
        ensures floor { FloorStays ⟦<K as Keeper>⟧ self.old self.new }
        ensures cause { HasCauseInAll ⟦<K as Keeper>⟧ self.old self.new result }
        ensures failing { FailsListed ⟦<K as Keeper>⟧ self.old self.new result }
    {
        if self.fails_next() {
            return Err(KeepError::Fault);
        }
        self.inner.due(t)
    }

    fn faults(&self) -> u64 {
        self.faults.saturating_add(self.inner.faults())
    }
}
