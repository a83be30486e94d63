//! Random values in memory, which fail where they are told to.
ghost use Rattle.std.specs.Prelude.{◌≡◌, ◌↔◌, ◌+◌, ℕ, Some, IsErr, Contains};
ghost use Rattle.std.specs.Result.{result_ok};
ghost use Rattle.asp_base.specs.Causes.{HasCause};
ghost use Rattle.asp_base.specs.InMemory.{counted_once_more};
ghost use Rattle.id_gateway.specs.Draws.{GivesValue, values_to_come};

use crate::Random;
use asp_base::Failed;
use std::marker::Model;

/// Values that a list gives in order and then its last one again, zeros where it has none, and
/// fails the listed draws.
#[derive(Debug, Drop)]
pub struct ListRandom {
    values: Vec<[u8; 15]>,
    given: usize,
    calls: u64,
    fails: Vec<u64>,
    faults: u64,
}

impl Model for ListRandom {
    ghost use Rattle.std.specs.Prelude.{◌≤◌, length};
    ghost use Rattle.id_gateway.specs.Draws.{ListedValues};

    ghost Value = { ListedValues };

    ghost view = { λ r. record {
      values = r.values.items;
      given = r.given;
      calls = r.calls;
      fails = r.fails.items;
      faults = r.faults;
    } };

    ghost invariant = { λ r. r.given ≤ length r.values.items };
}

impl ListRandom {
    /// These values. `fails` lists the numbers of the draws that fail, from 0; a failed draw takes
    /// no value.
    pub fn new(values: Vec<[u8; 15]>, fails: Vec<u64>) -> ListRandom
        ensures { result ≡ record {
          values = values.items;
          given = 0;
          calls = 0;
          fails = fails.items;
          faults = 0;
        } }
    {
        ListRandom {
            values,
            given: 0,
            calls: 0,
            fails,
            faults: 0,
        }
    }

    /// The value that comes now.
    fn give(&mut self) -> [u8; 15]
        ensures value { result ≡ values_to_come self.old 0 }
        ensures rest { (k : ℕ) → values_to_come self.new k ≡ values_to_come self.old (k + 1) }
        ensures next { self.new ≡ record self.old { given = self.new.given } }
    {
        let Some(last) = self.values.len().checked_sub(1) else {
            return [0; 15];
        };
        let at = self.given.min(last);
        self.given = at + 1;
        self.values[at]
    }
}

impl Random for ListRandom {
    ghost told = { λ r. Some (values_to_come r) };

    ghost faults = { λ r. r.faults };

    fn draw(&mut self) -> Result<[u8; 15], Failed>
        ensures gives { GivesValue (Some (values_to_come self.old))
            (Some (values_to_come self.new)) (result_ok result) }
        ensures cause { HasCause self.old.faults self.new.faults result }

        // It fails at the listed draws and nowhere else.
        ensures fails { IsErr result ↔ Contains self.old.fails self.old.calls }
        ensures calls { self.new.calls ≡ counted_once_more self.old.calls }
    {
        let call = self.calls;
        self.calls = call.saturating_add(1);
        if self.fails.contains(&call) {
            self.faults = self.faults.saturating_add(1);
            return Err(Failed);
        }
        Ok(self.give())
    }
}
