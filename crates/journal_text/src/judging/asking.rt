//! One request on the items of a history.
ghost use Rattle.std.specs.Prelude.{◌≡◌, ◌≤◌, ◌^◌, Some, None, IfOk, IfSome, MatchOption, OnOk, OnErr};
ghost use Rattle.asp_messages.specs.Ranges.{RequestFits};
ghost use Rattle.session_machine.specs.declared.entry.Deed.TheVariants.{Asked};
ghost use Rattle.session_machine.specs.History.{DrawFits};
ghost use Rattle.session_machine.specs.Liveness.{ItemFits};
ghost use Rattle.session_machine.specs.Machine.{Circumstances};
ghost use Rattle.session_machine.specs.Verdicts.{changed};
ghost use Rattle.journal_text.specs.JudgingChecker.{item_among};
ghost use Rattle.journal_text.specs.JudgingDeeds.{IsBarred, IsDone, IsLeft, ItemsFit, LeavesOf, ReplacesItem, StaysWhereWrong};

use super::Why;
use super::replies::{is_refusal, wrong_reply};
use asp_base::{Bytes, NoMemory};
use asp_messages::{Ask, Reply, Request};
use session_machine::{Change, Item, Profile, body_asked, body_changed, decide};
use std::alloc::Global;
use std::collections::BTreeMap;

/// What a request leaves of the item that is there.
#[derive(Debug, Drop)]
pub enum Left {
    /// It may not have been answered so.
    Wrong(Why),
    /// The item, as it is now.
    Item,
    /// Nothing: the item of this key is to be removed.
    Nothing(Bytes),
}

/// Makes the change to an item that is there.
fn change_there(alloc: Global, item: &mut Item, request: Request, change: Change) -> Left
    ensures { IsLeft (changed change (Some item.old) request.ask) request.key item.old item.new
        result }
{
    let Request { key, ask } = request;
    match change {
        Change::Nothing => Left::Item,
        Change::Cut => Left::Nothing(key),
        Change::Store {
            body_of_request,
            minutes,
            fresh,
            holder,
            touched,
            ends,
        } => {
            if body_of_request {
                item.body = body_asked(alloc, ask);
            }
            item.minutes = minutes;
            item.fresh = fresh;
            item.holder = holder;
            item.touched = touched;
            item.ends = ends;
            Left::Item
        }
    }
}

/// A request where the session has an item.
fn ask_there(
    alloc: Global,
    profile: Profile,
    item: &mut Item,
    request: Request,
    t: u64,
    drawn: u64,
    rose: bool,
    reply: Reply,
) -> Result<Left, NoMemory>
    requires moment { t ≤ 2 ^ 62 }
    requires request { RequestFits request }
    requires drawn { DrawFits request.ask drawn }
    requires item { ItemFits item.old }
    ensures left { IfOk result (LeavesOf profile item.old item.new request
        (record { moment = t; drawn = drawn; rose = rose }) reply) }
    ensures stays { IfOk result (StaysWhereWrong item.old item.new) }
    ensures fits { ItemFits item.new }
    ensures err { OnErr result (item.new ≡ item.old) }
{
    let verdict = decide(Some(item), t, &request, drawn, profile);
    let refused = is_refusal(&reply);
    if let Some(why) = wrong_reply(reply, verdict.kind, Some(item), rose)? {
        return Ok(Left::Wrong(why));
    }
    if refused {
        return Ok(Left::Item);
    }
    Ok(change_there(alloc, item, request, verdict.change))
}

/// Makes the change where the session has no item.
fn change_absent(
    alloc: Global,
    items: &mut BTreeMap<Bytes, Item>,
    request: Request,
    change: Change,
) -> Result<(), NoMemory>
    requires { item_among items.old.entries request.key ≡ None }
    ensures ok { OnOk result (ReplacesItem items.old.entries items.new.entries request.key
        (changed change None request.ask)) }
    ensures err { OnErr result (items.new.entries ≡ items.old.entries) }
{
    if let Change::Store {
        body_of_request,
        minutes,
        fresh,
        holder,
        touched,
        ends,
    } = change
    {
        let Request { key, ask } = request;
        let item = Item {
            body: body_changed(alloc, body_of_request, ask, None),
            minutes,
            fresh,
            holder,
            touched,
            ends,
        };
        items.insert(key, item)?;
    }
    Ok(())
}

/// A request where the session has no item.
fn ask_absent(
    alloc: Global,
    profile: Profile,
    items: &mut BTreeMap<Bytes, Item>,
    request: Request,
    t: u64,
    drawn: u64,
    rose: bool,
    reply: Reply,
) -> Result<Option<Why>, NoMemory>
    requires moment { t ≤ 2 ^ 62 }
    requires request { RequestFits request }
    requires drawn { DrawFits request.ask drawn }
    requires absent { item_among items.old.entries request.key ≡ None }
    requires fits { ItemsFit items.old.entries }
    ensures asked { let at : Circumstances = record { moment = t; drawn = drawn; rose = rose } in
        IfOk result (λ why. MatchOption why
        (IsDone profile items.old.entries items.new.entries (Asked request) at reply)
        (IsBarred profile items.old.entries (Asked request) at reply)) }
    ensures stays { IfOk result (λ why. IfSome why
        (λ _. items.new.entries ≡ items.old.entries)) }
    ensures fits { ItemsFit items.new.entries }
    ensures err { OnErr result (items.new.entries ≡ items.old.entries) }
{
    let verdict = decide(None, t, &request, drawn, profile);
    let refused = is_refusal(&reply);
    let wrong = wrong_reply(reply, verdict.kind, None, rose)?;
    if wrong.is_none() && !refused {
        change_absent(alloc, items, request, verdict.change)?;
    }
    Ok(wrong)
}

/// A request, by one look-up of its item.
pub fn take_request(
    alloc: Global,
    profile: Profile,
    items: &mut BTreeMap<Bytes, Item>,
    request: Request,
    t: u64,
    drawn: u64,
    rose: bool,
    reply: Reply,
) -> Result<Option<Why>, NoMemory>
    requires moment { t ≤ 2 ^ 62 }
    requires request { RequestFits request }
    requires drawn { DrawFits request.ask drawn }
    requires fits { ItemsFit items.old.entries }
    ensures asked { let at : Circumstances = record { moment = t; drawn = drawn; rose = rose } in
        IfOk result (λ why. MatchOption why
        (IsDone profile items.old.entries items.new.entries (Asked request) at reply)
        (IsBarred profile items.old.entries (Asked request) at reply)) }
    ensures stays { IfOk result (λ why. IfSome why
        (λ _. items.new.entries ≡ items.old.entries)) }
    ensures fits { ItemsFit items.new.entries }
    ensures err { OnErr result (items.new.entries ≡ items.old.entries) }
{
    let Some(item) = items.get_mut(&request.key) else {
        return ask_absent(alloc, profile, items, request, t, drawn, rose, reply);
    };
    match ask_there(alloc, profile, item, request, t, drawn, rose, reply)? {
        Left::Wrong(why) => Ok(Some(why)),
        Left::Item => Ok(None),
        Left::Nothing(key) => {
            items.remove(&key);
            Ok(None)
        }
    }
}
