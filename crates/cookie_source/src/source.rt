//! A cookie counter that threads share, without a lock.
ghost use Rattle.std.specs.Prelude.{◌≡◌, ◌<◌, ◌≤◌, ◌^◌, [], All, length, IfOk};
ghost use Rattle.cookie_source.specs.Counter.{new_drawer};

use crate::counter_rule::{CounterLook, CounterRule, Draw, DrawerView, MakeDrawer};
use asp_base::NoMemory;
use atomic_table::{Seat, Table};
use std::alloc::Global;

/// The counter's only word: the next cookie.
const COUNTER: usize = 0;

/// A counter from a first cookie to a last one, which only its drawers move.
#[derive(Drop)]
pub struct CookieSource {
    table: Table<(), DrawerView, u64, CounterRule, Global>,
    last: u64,
    ghost one_word: { table.shared.table_id.words ≡ 1 },
    ghost positive: { 1 ≤ table.shared.key },
    ghost some: { table.shared.key ≤ last },
    ghost in_range: { last < 2 ^ 63 },
}

/// The right to draw from one source. Each thread has its own.
#[derive(Drop)]
pub struct Drawer {
    seat: Seat<(), DrawerView>,
    ghost no_slot: { seat.me.1 ≡ [] },
}

/// A new source and all drawers that it will ever have.
#[derive(Drop)]
pub struct FreshCookies {
    pub source: CookieSource,
    pub drawers: Vec<Drawer>,
}

impl CookieSource {
    ghost use Rattle.std.specs.Prelude.{◌++◌, ◌∷◌, ◌↔◌, IfSome, IsNone, IfNone};
    ghost use Rattle.cookie_source.specs.Source.{source_id, first_of, last_of, drawer_home, drawn_by, word_seen, IsNewDrawer};

    /// A counter that stands at `first_cookie`, and 1 to 64 drawers, which have drawn nothing.
    pub fn new<R>(
        _rt: &R,
        alloc: Global,
        first_cookie: u64,
        last_cookie: u64,
        drawers: u64,
    ) -> Result<FreshCookies, NoMemory>
        requires positive { 1 ≤ first_cookie }
        requires some { first_cookie ≤ last_cookie }
        requires in_range { last_cookie < 2 ^ 63 }
        requires drawers { (1 ≤ drawers) × (drawers ≤ 64) }
        ensures first_cookie { IfOk result (λ f. first_of f.source ≡ first_cookie) }
        ensures last_cookie { IfOk result (λ f. last_of f.source ≡ last_cookie) }
        ensures drawers { IfOk result (λ f. length f.drawers.items ≡ drawers) }
        ensures new_drawers { IfOk result (λ f. All (IsNewDrawer f.source) f.drawers.items) }
    {
        let (table, seat) = Table::of_words(alloc, &[first_cookie], &first_cookie)?;
        let source = CookieSource {
            table,
            last: last_cookie,
        };
        let drawers = source.make_drawers(alloc, seat, drawers)?;
        Ok(FreshCookies { source, drawers })
    }

    fn make_drawers(
        &self,
        alloc: Global,
        mut seat: Seat<(), DrawerView>,
        count: u64,
    ) -> Result<Vec<Drawer>, NoMemory>
        requires seat { (seat.table_id ≡ self.now.table.shared.table_id)
            × (seat.me ≡ (new_drawer (first_of self.now), [])) }
        requires count { 1 ≤ count }
        ensures count { IfOk result (λ v. length v.items ≡ count) }
        ensures new { IfOk result (λ v. All (IsNewDrawer self.now) v.items) }
    {
        let mut drawers = Vec::new(alloc);
        for _ in 1..count {
            drawers.push(self.make_drawer(&mut seat))?;
        }
        drawers.push(Drawer { seat })?;
        Ok(drawers)
    }

    fn make_drawer(&self, seat: &mut Seat<(), DrawerView>) -> Drawer
        requires { (seat.old.table_id ≡ self.now.table.shared.table_id)
            × (seat.old.me ≡ (new_drawer (first_of self.now), [])) }
        ensures seat { (seat.new.table_id ≡ self.now.table.shared.table_id)
            × (seat.new.me ≡ (new_drawer (first_of self.now), [])) }
        ensures drawer { IsNewDrawer self.now result }
    {
        let seat = self.table.shared.split_seat::<MakeDrawer>(seat);
        Drawer { seat }
    }

    /// The counter's cookie, above each that this drawer drew, or `None` where the counter stood
    /// past the last one.
    ///
    /// It waits for nobody: where another drawer was faster it tries the counter's new cookie,
    /// which is greater, so it returns after at most one attempt for each cookie from the first to
    /// the last.
    pub fn draw<R>(&self, _rt: &R, drawer: &mut Drawer) -> Option<u64>
        requires home { drawer_home drawer.old ≡ source_id self.now }
        ensures home { drawer_home drawer.new ≡ drawer_home drawer.old }
        ensures in_range { IfSome result (λ n. (first_of self.now ≤ n) × (n ≤ last_of self.now)) }
        ensures rises { IfSome result (λ n. All (λ k. k < n) (drawn_by drawer.old)) }
        ensures drawn { IfSome result (λ n. drawn_by drawer.new ≡ drawn_by drawer.old ++ n ∷ []) }
        ensures none { IfNone result (drawn_by drawer.new ≡ drawn_by drawer.old) }
        ensures past_last { IsNone result ↔ (last_of self.now < word_seen drawer.new) }
        ensures never_falls { word_seen drawer.old ≤ word_seen drawer.new }
    {
        let shared = &self.table.shared;
        let mut found = shared.load::<CounterLook>(&mut drawer.seat, COUNTER);
        for _ in found..self.last + 1 {
            if found > self.last {
                return None;
            }
            let at = shared.compare_exchange::<Draw>(&mut drawer.seat, COUNTER, found, found + 1);
            if at == found {
                return Some(found);
            }
            found = at;
        }
        None
    }
}
