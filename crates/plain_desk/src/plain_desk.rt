//! A desk, and its calls.
ghost use Rattle.std.specs.Prelude.{◌≡◌, ◌≤◌, ◌<◌, ◌++◌, ◌∷◌, [], ◌^◌, ℕ, List, Option};
ghost use Rattle.asp_messages.specs.Ranges.{RequestFits, ReplyFits};
ghost use Rattle.session_machine.specs.declared.entry.Entry.{Entry};
ghost use Rattle.session_machine.specs.declared.item.Item.{Item};
ghost use Rattle.session_machine.specs.History.{DrawFits, HasPlace};
ghost use Rattle.cookie_source.specs.Counting.{Counter};
ghost use Rattle.shard_core.specs.Acting.{IsOutOfCookies};
ghost use Rattle.shard_core.specs.ShardStands.{CountsFault, NoFewerFaults, asked_entry};
ghost use Rattle.shard_core.specs.Sweeping.{HasDue, swept_entry};
ghost use Rattle.plain_desk.specs.Draws.{CookiesFit, DrawsNext, draw_of, draws_in};
ghost use Rattle.plain_desk.specs.DeskStands.{HasHistory};
ghost use Rattle.plain_desk.specs.Openings.{HasFreshCookies, HasHistoryFrom, NeverBegins, cookies_of, opening_over};

use asp_messages::{Ask, Reply, Request};
use cookie_source::PlainCookies;
use keeper::Keeper;
use shard_core::{Shard, Swept};
use std::alloc::Global;
use std::marker::Model;

/// What a request was answered, and the cookie that was drawn for it.
#[derive(Debug, PartialEq, Eq, Drop)]
pub struct Acted {
    /// The reply.
    pub reply: Reply,
    /// The cookie that an acquire drew, 0 where none was left and for every other ask.
    pub drawn: u64,
}

/// The items of a store and the cookies that are left. Contracts see the keeper and the counter.
#[derive(Drop)]
pub struct PlainDesk<K> {
    shard: Shard<K>,
    cookies: PlainCookies,
}

impl<K> Model for PlainDesk<K> {
    ghost use Rattle.plain_desk.specs.Draws.{CookiesFit};
    ghost use Rattle.plain_desk.specs.DeskStands.{DeskOf};

    ghost Value = { DeskOf K };

    ghost view = { λ d. record { keeper = d.shard; cookies = d.cookies } };

    ghost invariant = { λ d. CookiesFit d.cookies };
}

/// The cookie of an acquire, 0 where none is left or the request is no acquire.
fn draw_for(cookies: &mut PlainCookies, ask: &Ask) -> u64
    requires { CookiesFit cookies.old }
    ensures draws { DrawsNext cookies.old cookies.new ask.now result }
    ensures fits { DrawFits ask.now result }
{
    match ask {
        Ask::Acquire => cookies.draw().unwrap_or(0),
        Ask::Read | Ask::Release { .. } | Ask::Write { .. } | Ask::Remove { .. } | Ask::Reset => 0,
    }
}

impl<K: Keeper> PlainDesk<K> {
    /// A desk over the keeper, with these cookies; with `None` there are none at all. It takes no
    /// memory.
    ///
    /// Its history begins with the items and the count of faults that the keeper has.
    pub fn over(alloc: Global, keeper: K, cookies: Option<PlainCookies>) -> PlainDesk<K>
        ensures desk { result ≡ record { keeper = keeper; cookies = cookies_of cookies } }
        ensures begins { HasFreshCookies (opening_over ⟦<K as Keeper>⟧ keeper (cookies_of cookies))
            → HasHistoryFrom ⟦<K as Keeper>⟧
            (opening_over ⟦<K as Keeper>⟧ keeper (cookies_of cookies)) [] result }
    {
        PlainDesk {
            shard: Shard::new(alloc, keeper),
            cookies: cookies.unwrap_or(PlainCookies::none()),
        }
    }

    /// A desk over the keeper, with the cookies from `first_cookie` to `last_cookie`. It takes no
    /// memory.
    pub fn new(alloc: Global, keeper: K, first_cookie: u64, last_cookie: u64) -> PlainDesk<K>
        requires positive { 1 ≤ first_cookie }
        requires some { first_cookie ≤ last_cookie }
        requires in_range { last_cookie < 2 ^ 63 }
        ensures { result ≡ record {
          keeper = keeper;
          cookies =
              record { next = first_cookie; last = last_cookie };
        } }
    {
        PlainDesk {
            shard: Shard::new(alloc, keeper),
            cookies: PlainCookies::new(first_cookie, last_cookie),
        }
    }

    /// Answers a request at the moment `t`, in milliseconds. An acquire draws the next cookie. The
    /// request's content is moved into the keeper.
    pub fn act(&mut self, request: Request, t: u64) -> Acted
        requires moment { t ≤ 2 ^ 62 }
        requires request { RequestFits request }
        ensures fits { ReplyFits result.reply }
        ensures place { HasPlace result.reply }
        ensures drawn { DrawFits request.ask result.drawn }

        // Behind each history that the desk stands for, the request's entry makes a history that it
        // stands for, and its cookie is the next by counting.
        ensures stands { (first_cookie caller : ℕ) (opening : List ℕ → Option Item) (count : ℕ)
            (list : List Entry) → caller < 2 ^ 63
            → HasHistory ⟦<K as Keeper>⟧ first_cookie opening count list self.old
            → (result.drawn ≡ draw_of first_cookie self.old.cookies.last
            (draws_in list) request.ask)
            × HasHistory ⟦<K as Keeper>⟧ first_cookie opening count
            (list ++ asked_entry caller t request result.drawn result.reply
            (K.count self.new.keeper) ∷ []) self.new }

        ensures last { self.new.cookies.last ≡ self.old.cookies.last }
        ensures out { IsOutOfCookies request.ask result.drawn
            → (result.reply ≡ Reply.CookiesOut) × (self.new.keeper ≡ self.old.keeper) }
        ensures cookies_out { result.reply ≡ Reply.CookiesOut
            → IsOutOfCookies request.ask result.drawn }
        ensures fault { result.reply ≡ Reply.KeeperFault
            → CountsFault ⟦<K as Keeper>⟧ self.old.keeper self.new.keeper }
        ensures count { NoFewerFaults ⟦<K as Keeper>⟧ self.old.keeper self.new.keeper }
        ensures floor { K.floor self.new.keeper ≡ K.floor self.old.keeper }
        ensures tells { NeverBegins (K.told self.old.keeper) (K.told self.new.keeper) }
    {
        let drawn = draw_for(&mut self.cookies, &request.ask);
        let reply = self.shard.act(request, t, drawn);
        Acted { reply, drawn }
    }

    /// Looks for items that have expired at the moment `t`, in milliseconds, and removes the one
    /// that expired before all others.
    pub fn sweep_one(&mut self, t: u64) -> Swept
        requires { t ≤ 2 ^ 62 }

        // Behind each history that the desk stands for, the look's entry makes a history that it
        // stands for.
        ensures stands { (first_cookie caller : ℕ) (opening : List ℕ → Option Item) (count : ℕ)
            (list : List Entry) → caller < 2 ^ 63
            → HasHistory ⟦<K as Keeper>⟧ first_cookie opening count list self.old
            → HasHistory ⟦<K as Keeper>⟧ first_cookie opening count
            (list ++ swept_entry caller t result (K.count self.new.keeper) ∷ []) self.new }

        ensures nothing { result ≡ Swept.Nothing
            → HasDue ⟦<K as Keeper>⟧ self.new.keeper t Option.None }
        ensures cookies { self.new.cookies ≡ self.old.cookies }
        ensures fault { result ≡ Swept.KeeperFault
            → CountsFault ⟦<K as Keeper>⟧ self.old.keeper self.new.keeper }
        ensures count { NoFewerFaults ⟦<K as Keeper>⟧ self.old.keeper self.new.keeper }
        ensures floor { K.floor self.new.keeper ≡ K.floor self.old.keeper }
    {
        self.shard.sweep_one(t)
    }

    /// The count of faults of the keeper.
    pub fn faults(&self) -> u64
        ensures { result ≡ K.count self.now.keeper }
    {
        self.shard.faults()
    }

    /// The keeper.
    pub fn into_keeper(self) -> K
        ensures { result ≡ self.keeper }
    {
        self.shard.into_keeper()
    }
}
