//! A desk, which is a shard and its drawer, and the notes with which its turns are left.
ghost use Rattle.std.specs.Prelude.{◌≡◌, ◌≢◌, ◌≤◌, ◌<◌, ◌+◌, ◌++◌, ◌∷◌, [], ◌^◌, ℕ, List, length, IfOk};
ghost use Rattle.std.specs.Arc.{arc_value};
ghost use Rattle.asp_base.specs.Causes.{Rose};
ghost use Rattle.asp_messages.specs.Ranges.{KeyFits, RequestFits, ReplyFits};
ghost use Rattle.session_machine.specs.declared.entry.Entry.{Entry as AnEntry};
ghost use Rattle.session_machine.specs.History.{DrawFits, HasPlace};
ghost use Rattle.cookie_source.specs.Source.{source_id, drawer_home};
ghost use Rattle.shard_core.specs.ShardStands.{TellsSame, asked_entry};
ghost use Rattle.shard_core.specs.Sweeping.{swept_entry};
ghost use Rattle.turnstile.specs.TurnRule.{end_of_places};
ghost use Rattle.turnstile.specs.declared.stands.TurnTerms.{TurnTerms};

use asp_base::NoMemory;
use asp_messages::{Ask, Reply, Request};
use cookie_source::{CookieSource, Drawer};
use keeper::Keeper;
use shard_core::{Shard, Swept};
use std::alloc::Global;
use std::marker::Model;
use std::snapshot::Snapshot;
use std::sync::Arc;
use turnstile::Stands;

/// What a request was answered, the cookie that was drawn for it, and the keeper's count of faults.
#[derive(Drop)]
pub(crate) struct ActedInStore {
    pub reply: Reply,
    /// The cookie that an acquire drew, 0 where none was left and for every other ask.
    pub drawn: u64,
    pub faults: u64,
}

/// What a look for an expired item found, and the keeper's count of faults.
#[derive(Drop)]
pub(crate) struct Looked {
    pub found: Swept,
    pub faults: u64,
}

/// A shard and its drawer, which draws from the source that all desks of a store share.
///
/// It is what lies in a shard's turnstile: the callers have it in turn.
#[derive(Drop)]
pub struct StoreDesk<K> {
    shard: Shard<K>,
    source: Arc<CookieSource, Global>,
    drawer: Drawer,
    ghost home: { drawer_home drawer ≡ source_id (arc_value source) },
}

impl<K: Keeper> Stands for StoreDesk<K> {
    type Entry = Note;

    ghost use Rattle.state_store.specs.StoreDesks.{StoreDeskStands};
    ghost use Rattle.state_store.specs.Desks.{drawn_at};

    ghost stands = { λ d terms list.
        StoreDeskStands K.can_count terms list (K.told d.shard) (K.count d.shard) (drawn_at d) };

    ghost caller = { λ e. e.caller };
}

impl<K: Keeper> StoreDesk<K> {
    ghost use Rattle.std.specs.Prelude.{All, ◌↔◌, None};
    ghost use Rattle.cookie_source.specs.Source.{drawn_by, word_seen, last_of, first_of};
    ghost use Rattle.shard_core.specs.Sweeping.{HasDue, IfRemoved};
    ghost use Rattle.shard_core.specs.Acting.{IsOutOfCookies};
    ghost use Rattle.state_store.specs.Desks.{HasEntries, drawn_at};

    /// A desk over a keeper, with a drawer of the source. It takes no memory.
    pub(crate) fn new(
        alloc: Global,
        keeper: K,
        source: Arc<CookieSource, Global>,
        drawer: Drawer,
    ) -> StoreDesk<K>
        requires home { drawer_home drawer ≡ source_id (arc_value source) }
        ensures shard { result.shard ≡ keeper }
        ensures drawn { (drawn_at result).cookies ≡ drawn_by drawer }
        ensures first_cookie { (drawn_at result).first_cookie ≡ first_of (arc_value source) }
        ensures last_cookie { (drawn_at result).last_cookie ≡ last_of (arc_value source) }
    {
        StoreDesk {
            shard: Shard::new(alloc, keeper),
            source,
            drawer,
        }
    }

    /// The cookie of an acquire, 0 where none was left and for every other ask.
    fn draw_for<R>(&mut self, rt: &R, ask: &Ask) -> u64
        ensures fits { DrawFits ask.now result }
        ensures in_range { 0 < result → ((drawn_at self.old).first_cookie ≤ result)
            × (result ≤ (drawn_at self.old).last_cookie) }
        ensures above { 0 < result → All (λ n. n < result) (drawn_at self.old).cookies }
        ensures one { 0 < result
            → (drawn_at self.new).cookies ≡ (drawn_at self.old).cookies ++ result ∷ [] }
        ensures none { result ≡ 0 → (drawn_at self.new).cookies ≡ (drawn_at self.old).cookies }
        ensures past_last { IsOutOfCookies ask.now result
            → (drawn_at self.new).last_cookie < (drawn_at self.new).seen }
        ensures first_cookie { (drawn_at self.new).first_cookie ≡ (drawn_at self.old).first_cookie }
        ensures last_cookie { (drawn_at self.new).last_cookie ≡ (drawn_at self.old).last_cookie }
        ensures never_falls { (drawn_at self.old).seen ≤ (drawn_at self.new).seen }
        ensures shard { self.new.shard ≡ self.old.shard }
    {
        match ask {
            Ask::Acquire => match self.source.draw(rt, &mut self.drawer) {
                Some(cookie) => cookie,
                None => 0,
            },
            Ask::Read | Ask::Release { .. } | Ask::Write { .. } | Ask::Remove { .. } | Ask::Reset =>
                0,
        }
    }

    /// Answers a request, whose content is moved into the keeper. An acquire draws a cookie.
    pub(crate) fn act<R>(&mut self, rt: &R, request: Request, t: u64) -> ActedInStore
        requires request { RequestFits request }
        requires moment { t ≤ 2 ^ 62 }
        ensures fits { ReplyFits result.reply }
        ensures place { HasPlace result.reply }
        ensures drawn { DrawFits request.ask result.drawn }
        ensures out { result.reply ≡ Reply.CookiesOut ↔ IsOutOfCookies request.ask result.drawn }
        ensures fault { result.reply ≡ Reply.KeeperFault
            → Rose (K.count self.old.shard) result.faults }

        // Behind each history that the desk stands for, the request's entry makes a history that it
        // stands for.
        ensures stands { (terms : TurnTerms) (caller : ℕ) (list : List AnEntry)
            → caller < 2 ^ 63 → terms.first_place + length list < end_of_places
            → HasEntries ⟦<K as Keeper>⟧ terms list self.old
            → HasEntries ⟦<K as Keeper>⟧ terms
            (list ++ asked_entry caller t request result.drawn result.reply result.faults ∷ [])
            self.new }
    {
        let drawn = self.draw_for(rt, &request.ask);
        let reply = self.shard.act(request, t, drawn);
        let faults = self.shard.faults();
        ActedInStore {
            reply,
            drawn,
            faults,
        }
    }

    /// The turn of a request for which there was no memory before it: no item changes, and an
    /// acquire draws its cookie all the same.
    fn forgo<R>(&mut self, rt: &R, request: &Request, t: u64) -> ActedInStore
        requires request { RequestFits request.now }
        requires moment { t ≤ 2 ^ 62 }
        ensures fits { ReplyFits result.reply }
        ensures place { HasPlace result.reply }
        ensures drawn { DrawFits request.now.ask result.drawn }
        ensures out { result.reply ≡ Reply.CookiesOut
            ↔ IsOutOfCookies request.now.ask result.drawn }
        ensures no_memory { result.reply ≢ Reply.CookiesOut → result.reply ≡ Reply.NoMemory }

        // Behind each history that the desk stands for, the request's entry makes a history that it
        // stands for.
        ensures stands { (terms : TurnTerms) (caller : ℕ) (list : List AnEntry)
            → caller < 2 ^ 63 → terms.first_place + length list < end_of_places
            → HasEntries ⟦<K as Keeper>⟧ terms list self.old
            → HasEntries ⟦<K as Keeper>⟧ terms
            (list ++ asked_entry caller t request.now result.drawn result.reply result.faults ∷ [])
            self.new }
    {
        let drawn = self.draw_for(rt, &request.ask);
        let reply = self.shard.forgo(request, t, drawn);
        let faults = self.shard.faults();
        ActedInStore {
            reply,
            drawn,
            faults,
        }
    }

    /// Answers a request, of which another owner is moved into the keeper, where there was memory
    /// for it.
    pub(crate) fn act_on_shared<R>(
        &mut self,
        rt: &R,
        request: &Request,
        shared: Result<Request, NoMemory>,
        t: u64,
    ) -> ActedInStore
        requires request { RequestFits request.now }
        requires shared { IfOk shared (λ other. other ≡ request.now) }
        requires moment { t ≤ 2 ^ 62 }
        ensures fits { ReplyFits result.reply }
        ensures place { HasPlace result.reply }
        ensures drawn { DrawFits request.now.ask result.drawn }
        ensures out { result.reply ≡ Reply.CookiesOut
            ↔ IsOutOfCookies request.now.ask result.drawn }
        ensures fault { result.reply ≡ Reply.KeeperFault
            → Rose (K.count self.old.shard) result.faults }

        // Behind each history that the desk stands for, the request's entry makes a history that it
        // stands for.
        ensures stands { (terms : TurnTerms) (caller : ℕ) (list : List AnEntry)
            → caller < 2 ^ 63 → terms.first_place + length list < end_of_places
            → HasEntries ⟦<K as Keeper>⟧ terms list self.old
            → HasEntries ⟦<K as Keeper>⟧ terms
            (list ++ asked_entry caller t request.now result.drawn result.reply result.faults ∷ [])
            self.new }
    {
        match shared {
            Ok(other) => self.act(rt, other, t),
            Err(NoMemory) => self.forgo(rt, request, t),
        }
    }

    /// Looks for an item that has expired, and removes the one that expired first.
    pub(crate) fn sweep_one(&mut self, t: u64) -> Looked
        requires { t ≤ 2 ^ 62 }

        // Behind each history that the desk stands for, the look's entry makes a history that it
        // stands for.
        ensures stands { (terms : TurnTerms) (caller : ℕ) (list : List AnEntry)
            → caller < 2 ^ 63 → terms.first_place + length list < end_of_places
            → HasEntries ⟦<K as Keeper>⟧ terms list self.old
            → HasEntries ⟦<K as Keeper>⟧ terms
            (list ++ swept_entry caller t result.found result.faults ∷ []) self.new }
        ensures nothing { result.found ≡ Swept.Nothing
            → HasDue ⟦<K as Keeper>⟧ self.new.shard t None }
        ensures unchanged { result.found ≡ Swept.Nothing
            → TellsSame ⟦<K as Keeper>⟧ self.old.shard self.new.shard }
        ensures fault { result.found ≡ Swept.KeeperFault
            → Rose (K.count self.old.shard) result.faults }
        ensures key { IfRemoved result.found KeyFits }
    {
        let found = self.shard.sweep_one(t);
        let faults = self.shard.faults();
        Looked { found, faults }
    }
}

/// What a note is of.
#[derive(Drop)]
pub enum NoteSubject {
    /// A request and its reply.
    Asked(Snapshot<Request>, Snapshot<Reply>),
    /// A look for an expired item.
    Swept(Snapshot<Swept>),
}

/// An entry without its bytes: a turn is left with it, and contracts see the entry.
#[derive(Drop)]
pub struct Note {
    caller: u64,
    moment: u64,
    subject: NoteSubject,
    drawn: u64,
    faults: u64,
}

impl Model for Note {
    ghost use Rattle.session_machine.specs.declared.entry.Entry.{Entry};
    ghost use Rattle.state_store.specs.Noted.{entry_noted};

    ghost Value = { Entry };

    ghost view = { λ n. entry_noted n.caller n.moment n.subject n.drawn n.faults };
}

impl Note {
    /// The entry of a request.
    pub fn asked(
        caller: u64,
        moment: u64,
        request: Snapshot<Request>,
        drawn: u64,
        reply: &Reply,
        faults: u64,
    ) -> Note
        ensures { result ≡ asked_entry caller moment request.value drawn reply.now faults }
    {
        Note {
            caller,
            moment,
            subject: NoteSubject::Asked(request, Snapshot::of(reply)),
            drawn,
            faults,
        }
    }

    /// The entry of a look.
    pub fn swept(caller: u64, moment: u64, swept: &Swept, faults: u64) -> Note
        ensures { result ≡ swept_entry caller moment swept.now faults }
    {
        Note {
            caller,
            moment,
            subject: NoteSubject::Swept(Snapshot::of(swept)),
            drawn: 0,
            faults,
        }
    }
}
