//! A page's whole visit.
ghost use Rattle.std.specs.Prelude.{◌≡◌, ◌≤◌, ◌^◌, IfOk, OnErr};
ghost use Rattle.asp_messages.specs.Ranges.{KeyFits};
ghost use Rattle.plain_desk.specs.DeskStands.{desk_state};
ghost use Rattle.visit_core.specs.Terms.{EndingFits};
ghost use Rattle.page_visit.specs.Runs.{page_terms};
ghost use Rattle.page_visit.specs.Underway.{PageComesTo, PageIsCut};

use crate::open_page::OpenPage;
use asp_base::{Bytes, NoMemory};
use keeper::Keeper;
use plain_desk::PlainDesk;
use std::alloc::Global;
use visit_core::{Ending, Limits, Need, Outcome, Visit};

/// How a page's visit came out.
#[derive(Debug, Drop)]
pub struct Shown {
    /// Its outcome.
    pub outcome: Outcome,
    /// The content on which the page ran; `None` where it did not run, or its session has no item.
    pub content: Option<Bytes>,
}

/// Makes a page's visit to the desk, with the usual limits, from the moment `moment` on, in
/// milliseconds, at most 2^61. `key` has 1 to 1,024 bytes, and the ending is in its ranges. The
/// only error is want of memory; the visit is cut off then, and keeps a lock that it acquired.
pub fn run_page<K: Keeper>(
    alloc: Global,
    desk: &mut PlainDesk<K>,
    key: Bytes,
    need: Need,
    ending: Ending,
    moment: u64,
) -> Result<Shown, NoMemory>
    requires key { KeyFits key }
    requires ending { EndingFits ending }
    requires moment { moment ≤ 2 ^ 61 }
    ensures comes { IfOk result (λ shown. PageComesTo K.can_count (record {
      terms = page_terms key need;
      ending = ending;
      moment = moment;
      desk = desk_state ⟦<K as Keeper>⟧ desk.old;
    }) (desk_state ⟦<K as Keeper>⟧ desk.new) shown.outcome shown.content) }
    ensures cut { OnErr result (PageIsCut K.can_count (record {
      terms = page_terms key need;
      ending = ending;
      moment = moment;
      desk = desk_state ⟦<K as Keeper>⟧ desk.old;
    }) (desk_state ⟦<K as Keeper>⟧ desk.new)) }
    ensures floor { K.floor desk.new.keeper ≡ K.floor desk.old.keeper }
{
    let mut page = OpenPage {
        visit: Visit::new(key, need, Limits::default()),
        ending: Some(ending),
        content: None,
        moment,
    };
    'acts: loop {
        if let Some(outcome) = page.act(alloc, desk)? {
            return Ok(Shown {
                outcome,
                content: page.content,
            });
        }
    }
}
