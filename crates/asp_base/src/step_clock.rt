//! A clock that steps by a fixed time, for runs that must come out the same each time.
ghost use Rattle.std.specs.Prelude.{◌≡◌, ℕ, ◌+◌, ◌≤◌, ◌^◌};
ghost use Rattle.asp_base.specs.Moments.{step_moment, ticked};

use std::marker::Model;

/// The latest moment, in milliseconds.
pub const LAST_MOMENT: u64 = 1 << 62;

/// A clock whose moments are `start`, `start + step` and so on, in milliseconds, up to the latest
/// moment, where it stays.
#[derive(Clone, Copy, Debug)]
pub struct StepClock {
    next: u64,
    step: u64,
}

impl Model for StepClock {
    ghost use Rattle.std.specs.Prelude.{◌≤◌, ◌^◌};
    ghost use Rattle.asp_base.specs.Moments.{Ticking};

    ghost Value = { Ticking };

    ghost view = { λ c. record { next = c.next; step = c.step } };

    ghost invariant = { λ c. (c.next ≤ 2 ^ 62) × (c.step ≤ 2 ^ 62) };

    ghost inverse = { λ v. record { next = v.next; step = v.step } };
}

impl StepClock {
    /// A clock that begins at `start`. Both numbers are milliseconds.
    pub fn new(start: u64, step: u64) -> StepClock
        requires start { start ≤ 2 ^ 62 }
        requires step { step ≤ 2 ^ 62 }
        ensures { result ≡ record { next = start; step = step } }
    {
        StepClock { next: start, step }
    }

    /// The next moment: the k-th call, from 0, gives the lesser of `start + k * step` and the
    /// latest moment.
    pub fn tick(&mut self) -> u64
        ensures moment { result ≡ self.old.next }
        ensures in_range { result ≤ 2 ^ 62 }
        ensures next { self.new ≡ ticked self.old }

        // Where the next moment is the k-th of a clock that began at start, the one after it is the
        // k+1-st.
        ensures in_order { (start k : ℕ) → self.old.next ≡ step_moment start self.old.step k
            → self.new.next ≡ step_moment start self.old.step (k + 1) }
    {
        let now = self.next;
        self.next = (now + self.step).min(LAST_MOMENT);
        now
    }
}
