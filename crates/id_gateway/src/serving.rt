//! One page request, served.
ghost use Rattle.std.specs.Prelude.{◌≡◌, ◌≤◌, ◌^◌, length, IfOk, OnErr};
ghost use Rattle.asp_messages.specs.Fields.{most_body};
ghost use Rattle.plain_desk.specs.DeskStands.{desk_state};
ghost use Rattle.page_requests.specs.Identities.{identity_of};
ghost use Rattle.id_gateway.specs.Serving as serving;
ghost use Rattle.id_gateway.specs.Keeping.{CutsAt, ServesAt, ServesPage, CutsPage, random_of, page_seen};

use crate::Random;
use crate::answer::{Answer, Status, location};
use asp_base::{Bytes, Failed, NoMemory};
use keeper::Keeper;
use page_requests::{Mode, Page, PageRequest, identity_of, page_of};
use page_visit::{Shown, run_page};
use plain_desk::PlainDesk;
use session_id::Id;
use std::alloc::Global;
use visit_core::{Outcome, outcome_text};

/// An answer without a body.
fn plain_answer(alloc: Global, status: Status, new_id: Option<Id>) -> Answer
    ensures { result ≡ serving.plain_answer status new_id }
{
    Answer {
        status,
        location: None,
        new_id,
        body: Bytes::adopt(Vec::new(alloc)),
    }
}

/// What a page shows of the content.
fn shown_by(alloc: Global, page: Page, content: Option<Bytes>) -> Bytes
    ensures { result ≡ serving.shown_by page content }
{
    match (page, content) {
        (Page::Get, Some(content)) => content,
        _ => Bytes::adopt(Vec::new(alloc)),
    }
}

/// The answer of a page whose visit came out so. The only error is want of memory.
fn outcome_answer(
    alloc: Global,
    page: Page,
    new_id: Option<Id>,
    shown: Shown,
) -> Result<Answer, NoMemory>
    ensures { IfOk result (λ answer. answer
        ≡ serving.outcome_answer page new_id shown.content shown.outcome) }
{
    match shown.outcome {
        Outcome::Done => Ok(Answer {
            status: Status::Ok,
            location: None,
            new_id,
            body: shown_by(alloc, page, shown.content),
        }),
        outcome => Ok(Answer {
            status: Status::Unavailable,
            location: None,
            new_id,
            body: Bytes::copy(alloc, outcome_text(&outcome).as_slice())?,
        }),
    }
}

/// The key of an identifier's item, 30 bytes. It takes no memory.
fn session_key(alloc: Global, id: Id) -> Bytes
    ensures key { result ≡ serving.session_key id }
    ensures len { length result ≡ 30 }
{
    let mut key = [0; 30];
    key[..6].copy_from_slice(b"/gate/");
    key[6..].copy_from_slice(&id.text());
    match Bytes::short(&key) {
        Some(key) => key,
        None => Bytes::adopt(Vec::new(alloc)),
    }
}

/// Answers a request with this identifier: its page runs, where its path names one.
fn serve_at<K: Keeper>(
    alloc: Global,
    desk: &mut PlainDesk<K>,
    page: Option<Page>,
    new_id: Option<Id>,
    id: Id,
    t: u64,
    body: Bytes,
) -> Result<Answer, NoMemory>
    requires moment { t ≤ 2 ^ 61 }
    requires body { length body ≤ most_body }
    ensures served { IfOk result (ServesAt K.can_count
        (serving.serve_at page new_id id t body)
        (desk_state ⟦<K as Keeper>⟧ desk.old) (desk_state ⟦<K as Keeper>⟧ desk.new)) }
    ensures cut { OnErr result (CutsAt K.can_count
        (serving.serve_at page new_id id t body)
        (desk_state ⟦<K as Keeper>⟧ desk.old) (desk_state ⟦<K as Keeper>⟧ desk.new)) }
    ensures floor { K.floor desk.new.keeper ≡ K.floor desk.old.keeper }
{
    match page {
        None => Ok(plain_answer(alloc, Status::NotFound, new_id)),
        Some(page) => {
            let shown = run_page(
                alloc,
                desk,
                session_key(alloc, id),
                page.need(),
                page.ending(body),
                t,
            )?;
            outcome_answer(alloc, page, new_id, shown)
        }
    }
}

/// Answers a request with a new identifier.
fn serve_new<K: Keeper>(
    alloc: Global,
    desk: &mut PlainDesk<K>,
    mode: Mode,
    id: Id,
    t: u64,
    request: PageRequest,
) -> Result<Answer, NoMemory>
    requires moment { t ≤ 2 ^ 61 }
    requires body { length request.body ≤ most_body }
    ensures served { IfOk result (ServesAt K.can_count
        (serving.serve_new mode id t request)
        (desk_state ⟦<K as Keeper>⟧ desk.old) (desk_state ⟦<K as Keeper>⟧ desk.new)) }
    ensures cut { OnErr result (CutsAt K.can_count
        (serving.serve_new mode id t request)
        (desk_state ⟦<K as Keeper>⟧ desk.old) (desk_state ⟦<K as Keeper>⟧ desk.new)) }
    ensures floor { K.floor desk.new.keeper ≡ K.floor desk.old.keeper }
{
    match mode {
        Mode::Cookie => {
            let page = page_of(request.verb, request.target.as_slice());
            serve_at(alloc, desk, page, Some(id), id, t, request.body)
        }
        Mode::Url => Ok(Answer {
            status: Status::Found,
            location: Some(location(alloc, id, request.target.as_slice())?),
            new_id: None,
            body: Bytes::adopt(Vec::new(alloc)),
        }),
    }
}

/// The identifier of a request, where it has one that reads, and the page of its path.
fn page_with_id(mode: Mode, request: &PageRequest) -> Option<(Id, Option<Page>)>
    ensures { result ≡ page_seen request.now.verb (identity_of mode request.now) }
{
    match identity_of(mode, request) {
        Some(identity) => Some((identity.id, page_of(request.verb, identity.path))),
        None => None,
    }
}

/// Answers a request at the moment `t`, in milliseconds. The only error is want of memory; the
/// page's visit may be cut off then.
pub fn serve<K: Keeper, R: Random>(
    alloc: Global,
    desk: &mut PlainDesk<K>,
    random: &mut R,
    mode: Mode,
    t: u64,
    request: PageRequest,
) -> Result<Answer, NoMemory>
    requires moment { t ≤ 2 ^ 61 }
    requires body { length request.body ≤ most_body }
    ensures served { IfOk result (ServesPage K.can_count mode t request
        (desk_state ⟦<K as Keeper>⟧ desk.old) (desk_state ⟦<K as Keeper>⟧ desk.new)
        (random_of ⟦<R as Random>⟧ random.old) (random_of ⟦<R as Random>⟧ random.new)) }
    ensures cut { OnErr result (CutsPage K.can_count mode t request
        (desk_state ⟦<K as Keeper>⟧ desk.old) (desk_state ⟦<K as Keeper>⟧ desk.new)
        (random_of ⟦<R as Random>⟧ random.old) (random_of ⟦<R as Random>⟧ random.new)) }
    ensures floor { K.floor desk.new.keeper ≡ K.floor desk.old.keeper }
{
    if let Some(found) = page_with_id(mode, &request) {
        return serve_at(alloc, desk, found.1, None, found.0, t, request.body);
    }
    match random.draw() {
        Ok(value) => serve_new(alloc, desk, mode, Id::from_random(value), t, request),
        Err(Failed) => Ok(plain_answer(alloc, Status::NoIdentifier, None)),
    }
}
