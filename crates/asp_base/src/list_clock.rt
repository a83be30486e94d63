//! A clock that gives listed moments.
ghost use Rattle.std.specs.Prelude.{◌≡◌, ◌≤◌, ◌^◌, Some, All, length};
ghost use Rattle.asp_base.specs.Moments.{moments_to_come};

use crate::Clock;
use std::marker::Model;
use std::rt::Clock as HostTime;

/// A clock that gives listed moments in order and then its last one again, 0 where it has none.
#[derive(Debug, Drop)]
pub struct ListClock {
    moments: Vec<u64>,
    given: usize,
}

impl Model for ListClock {
    ghost use Rattle.std.specs.Prelude.{◌≤◌, ◌^◌, length, All};
    ghost use Rattle.asp_base.specs.Moments.{Listed};

    ghost Value = { Listed };

    ghost view = { λ c. record { moments = c.moments.items; given = c.given } };

    ghost invariant = { λ c. (c.given ≤ length c.moments.items)
        × All (λ m. m ≤ 2 ^ 62) c.moments.items };
}

impl ListClock {
    /// A clock of these moments, each at most 2^62.
    pub fn new(moments: Vec<u64>) -> ListClock
        requires in_range { All (λ m. m ≤ 2 ^ 62) moments.items }
        ensures { result ≡ record { moments = moments.items; given = 0 } }
    {
        ListClock { moments, given: 0 }
    }
}

impl Clock for ListClock {
    ghost told = { λ c. Some (moments_to_come c) };

    fn now<R: HostTime>(&mut self, _rt: &R) -> u64 {
        let Some(last) = self.moments.len().checked_sub(1) else {
            return 0;
        };
        let at = self.given.min(last);
        self.given = at + 1;
        self.moments[at]
    }
}
