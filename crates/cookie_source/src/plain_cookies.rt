//! A cookie counter for one thread.
ghost use Rattle.std.specs.Prelude.{◌≡◌, ℕ, ◌+◌, ◌≤◌, ◌<◌, ◌^◌, ◌↔◌, IfSome, IsSome, IfNone, IsNone};
ghost use Rattle.cookie_source.specs.Counting.{no_cookies, nth_cookie, counter_after};

use std::marker::Model;

/// Draws the cookies from the first to the last, each one more than the last drawn.
///
/// Contracts see it as its next cookie, which is `last + 1` once all are drawn, and its last one.
#[derive(Drop)]
pub struct PlainCookies {
    next: u64,
    last: u64,
}

impl Model for PlainCookies {
    ghost use Rattle.std.specs.Prelude.{◌+◌, ◌≤◌, ◌<◌, ◌^◌};
    ghost use Rattle.cookie_source.specs.Counting.{Counter};

    ghost Value = { Counter };

    ghost view = { λ c. record { next = c.next; last = c.last } };

    ghost invariant = { λ c. (1 ≤ c.next) × (c.next ≤ c.last + 1) × (c.last < 2 ^ 63) };

    ghost inverse = { λ v. record { next = v.next; last = v.last } };
}

impl PlainCookies {
    /// Cookies from `first_cookie` to `last_cookie`, none of them drawn.
    pub fn new(first_cookie: u64, last_cookie: u64) -> PlainCookies
        requires positive { 1 ≤ first_cookie }
        requires some { first_cookie ≤ last_cookie }
        requires in_range { last_cookie < 2 ^ 63 }
        ensures { result ≡ record { next = first_cookie; last = last_cookie } }
    {
        PlainCookies {
            next: first_cookie,
            last: last_cookie,
        }
    }

    /// No cookie at all: each draw gives `None`.
    pub fn none() -> PlainCookies
        ensures { result ≡ no_cookies }
    {
        PlainCookies { next: 1, last: 0 }
    }

    /// The next cookie, or `None` where the last one was drawn.
    pub fn draw(&mut self) -> Option<u64>
        ensures some { IfSome result (λ n. n ≡ self.old.next) }
        ensures left { IsSome result ↔ (self.old.next ≤ self.old.last) }
        ensures none { IsNone result ↔ (self.old.last < self.old.next) }
        ensures in_range { IfSome result (λ n. (1 ≤ n) × (n ≤ self.new.last)) }
        ensures goes_on { IfSome result (λ n. self.new.next ≡ n + 1) }
        ensures ends { IfNone result (self.new.next ≡ self.old.next) }
        ensures last { self.new.last ≡ self.old.last }
        // The j-th draw gives the j-th cookie, and one draw more is counted.
        ensures nth { (first_cookie j : ℕ) → first_cookie ≤ self.old.last + 1
            → self.old.next ≡ counter_after first_cookie self.old.last j
            → (result ≡ nth_cookie first_cookie self.old.last j)
            × (self.new.next ≡ counter_after first_cookie self.old.last (j + 1)) }
    {
        if self.next > self.last {
            return None;
        }
        let drawn = self.next;
        self.next += 1;
        Some(drawn)
    }
}
