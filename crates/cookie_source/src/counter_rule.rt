//! The rule of the counter that threads share, and the kinds of step that keep it.
ghost use Rattle.cookie_source.specs.Counter.{IsCounted, new_drawer, nothing_drawn, Looks, Draws};

use atomic_table::{Play, Split, TableRule};
use std::collections::LinkedList;

/// What a drawer knows, for contracts alone: no value of it is made.
///
/// It is the counter's first cookie, the cookies that this drawer drew, in order, and the counter's
/// word that it last saw.
pub struct DrawerView {
    pub first_cookie: u64,
    pub drawn: LinkedList<u64>,
    pub seen: u64,
}

/// The counter never falls, and each cookie below it was drawn once.
pub struct CounterRule;

impl TableRule<(), DrawerView, u64> for CounterRule {
    ghost holds = { IsCounted };

    ghost first = { new_drawer };
}

/// A load of the counter.
pub struct CounterLook;

impl Play<(), DrawerView> for CounterLook {
    ghost then = { Looks };
}

/// A compare and exchange on the counter, from a cookie to the next one.
pub struct Draw;

impl Play<(), DrawerView> for Draw {
    ghost then = { Draws };
}

/// One more drawer, which drew nothing.
pub struct MakeDrawer;

impl Split<DrawerView> for MakeDrawer {
    ghost left = { λ v. v };

    ghost right = { nothing_drawn };
}
