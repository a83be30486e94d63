//! An order a shard, to which the threads of a server hand what they noted.
ghost use Rattle.std.specs.Prelude.{◌≡◌, ◌+◌, ◌<◌, ◌≤◌, length, IfNone, IfOk, IfSome};
ghost use Rattle.session_machine.specs.History.{IsFormed};
ghost use Rattle.state_mirror.specs.Ordering.{place_end};

use asp_base::{NoMemory, Sink};
use session_machine::Entry;
use state_mirror::{Order, SpelledEntry};
use state_store::{Notes, Placed};
use std::alloc::Global;
use std::marker::Model;
use std::sync::{Mutex, Wait};

/// An order whose first place is 0: that is known of it whenever its lock is taken.
#[derive(Drop)]
struct ShardOrder<T> {
    order: Order<T>,
    ghost from_zero: { order.first ≡ 0 },
}

impl<T: Sink> ShardOrder<T> {
    /// Hands the entry to the order.
    fn hand(&mut self, place: u64, entry: Entry)
        requires place { place < place_end }
        requires entry { IsFormed entry }
    {
        self.order.hand(place, entry);
    }

    /// The same for an entry whose line is spelled.
    fn hand_spelled(&mut self, place: u64, entry: SpelledEntry)
        requires place { place < place_end }
    {
        self.order.hand_spelled(place, entry);
    }
}

/// An order for each shard, each behind a lock of its own, so that a caller waits only for those
/// who note in the same shard. Contracts see how many are left.
///
/// An order keeps what waits for an entry before it: all that other callers leave in the shard from
/// the turn of the missing entry on, until the caller that left that one hands it in.
#[derive(Drop)]
pub struct Shelf<T> {
    alloc: Global,
    orders: Vec<Mutex<ShardOrder<T>>>,
}

impl<T> Model for Shelf<T> {
    ghost use Rattle.std.specs.Prelude.{ℕ, length};

    ghost Value = { ℕ };

    ghost view = { λ s. length s.orders.items };
}

impl<T: Sink + Drop> Shelf<T> {
    /// An order from place 0 on for each sink, in the order of the shards. The sinks have taken
    /// nothing. After `NoMemory` they are dropped.
    pub fn new(alloc: Global, sinks: Vec<T>) -> Result<Shelf<T>, NoMemory>
        ensures orders { IfOk result (λ shelf. shelf ≡ length sinks.items) }
    {
        let mut orders = Vec::with_capacity(alloc, sinks.len())?;
        'sinks: for sink in sinks {
            orders.push(Mutex::new(ShardOrder {
                order: Order::new(alloc, sink, 0),
            }))?;
        }
        Ok(Shelf { alloc, orders })
    }

    /// The order of the last shard that is left; `None` exactly where none is. It takes no memory.
    pub fn pop(&mut self) -> Option<Order<T>>
        ensures none { IfNone result ((self.old ≡ 0) × (self.new ≡ 0)) }
        ensures one_less { IfSome result (λ _. self.old ≡ self.new + 1) }
        ensures from_zero { IfSome result (λ order. order.first ≡ 0) }
    {
        match self.orders.pop() {
            Some(order) => Some(order.into_inner().order),
            None => None,
        }
    }
}

impl<T: Sink> Notes for Shelf<T> {
    fn wants(&self) -> bool {
        true
    }

    /// Hands the entry to the order of its shard, and does nothing where there is none. The line is
    /// spelled before the order is waited for; where there is no memory for it the order stops.
    fn take<R: Wait>(&self, rt: &R, placed: Placed) {
        let Placed {
            shard,
            place,
            entry,
        } = placed;
        if let Some(order) = self.orders.get(shard as usize) {
            match SpelledEntry::new(self.alloc, entry) {
                Ok(entry) => order.lock(rt).hand_spelled(place, entry),
                Err(entry) => order.lock(rt).hand(place, entry),
            }
        }
    }
}
