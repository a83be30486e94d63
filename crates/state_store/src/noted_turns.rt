//! Turns whose entries are given to the caller.
ghost use Rattle.std.specs.Prelude.{◌≡◌, ◌≤◌, ◌^◌, ◌↔◌};
ghost use Rattle.asp_messages.specs.Ranges.{RequestFits};
ghost use Rattle.turnstile.specs.TurnRule.{end_of_places};
ghost use Rattle.turnstile.specs.Turns.{turnstile_terms, front, ticket_seen, caller_number};
ghost use Rattle.state_store.specs.NotedTurns.{IfPlaced, IsAskedWith, IsLookWith, IsPlacesOut};
ghost use Rattle.state_store.specs.ShardViews.{IsPart, view_of, call_with};
ghost use Rattle.state_store.specs.StoreTurns.{IsHistory, FindsNoPlace};

use crate::store_desk::StoreDesk;
use crate::sweep::look_turn;
use crate::{Note, Noted, Placed};
use asp_base::Gate;
use asp_messages::Request;
use keeper::Keeper;
use session_machine::{Deed, Entry};
use std::snapshot::Snapshot;
use std::sync::Wait;
use turnstile::{TurnPass, Turnstile};

/// Answers a request in one turn, and gives the entry. Its content is shared with the keeper; where
/// there is no memory for that the turn is taken all the same, and changes no item.
pub(crate) fn noted_turn<K: Keeper + Drop, R: Wait, G: Gate>(
    rt: &R,
    turns: &Turnstile<StoreDesk<K>>,
    pass: &mut TurnPass<StoreDesk<K>>,
    shard: u64,
    mut request: Request,
    t: u64,
    gate: &G,
) -> Noted
    requires pass { IsPart turns.now (caller_number pass.old) pass.old }
    requires history { IsHistory K.told K.can_count (turnstile_terms turns.now) (front pass.old) }
    requires request { RequestFits request }
    requires moment { t ≤ 2 ^ 62 }
    ensures pass { IsPart turns.now (caller_number pass.old) pass.new }
    ensures history { IsHistory K.told K.can_count (turnstile_terms turns.now) (front pass.new) }
    ensures asked { IfPlaced result (IsAskedWith (call_with turns.now pass.old t) shard request
        (view_of pass.old) (view_of pass.new)) }
    ensures no_place { IsPlacesOut result → FindsNoPlace (view_of pass.old) (view_of pass.new) }
    ensures spent { IsPlacesOut result ↔ (ticket_seen pass.new ≡ end_of_places) }
    ensures stays_spent { ticket_seen pass.old ≡ end_of_places → IsPlacesOut result }
    ensures never_falls { ticket_seen pass.old ≤ ticket_seen pass.new }
{
    let shared = request.share();
    let about = Snapshot::of(&request);
    let Ok(mut turn) = turns.enter(rt, pass) else {
        return Noted::PlacesOut;
    };
    gate.inside(rt, shard);
    let acted = turn.state().act_on_shared(rt, &request, shared, t);
    let caller = pass.caller();
    let note = Note::asked(caller, t, about, acted.drawn, &acted.reply, acted.faults);
    let place = turns.leave(rt, pass, turn, &note);
    gate.after(rt, shard);
    Noted::Placed(Placed {
        shard,
        place,
        entry: Entry {
            caller,
            moment: t,
            deed: Deed::Asked(request),
            drawn: acted.drawn,
            reply: acted.reply,
            faults: acted.faults,
        },
    })
}

/// One turn of a shard, in which an item that has expired is removed, and the entry is given.
pub(crate) fn noted_look<K: Keeper + Drop, R: Wait, G: Gate>(
    rt: &R,
    turns: &Turnstile<StoreDesk<K>>,
    pass: &mut TurnPass<StoreDesk<K>>,
    shard: u64,
    t: u64,
    gate: &G,
) -> Noted
    requires pass { IsPart turns.now (caller_number pass.old) pass.old }
    requires history { IsHistory K.told K.can_count (turnstile_terms turns.now) (front pass.old) }
    requires moment { t ≤ 2 ^ 62 }
    ensures pass { IsPart turns.now (caller_number pass.old) pass.new }
    ensures history { IsHistory K.told K.can_count (turnstile_terms turns.now) (front pass.new) }
    ensures looked { IfPlaced result (IsLookWith K.told (call_with turns.now pass.old t) shard
        (view_of pass.old) (view_of pass.new)) }
    ensures no_place { IsPlacesOut result → FindsNoPlace (view_of pass.old) (view_of pass.new) }
    ensures spent { IsPlacesOut result ↔ (ticket_seen pass.new ≡ end_of_places) }
    ensures stays_spent { ticket_seen pass.old ≡ end_of_places → IsPlacesOut result }
    ensures never_falls { ticket_seen pass.old ≤ ticket_seen pass.new }
{
    let Some(look) = look_turn(rt, turns, pass, shard, t, gate) else {
        return Noted::PlacesOut;
    };
    Noted::Placed(look.into_placed(pass.caller(), t, shard))
}
