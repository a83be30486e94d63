//! The top call of a run.
ghost use Rattle.std.specs.Prelude.{◌≡◌, ◌⊎◌, ◌≤◌};
ghost use Rattle.asp_base.specs.Causes.{Rose};
ghost use Rattle.asp_base.specs.Limits.{most_input};
ghost use Rattle.asp_messages.specs.Fields.{most_cookie};
ghost use Rattle.keeper.specs.Items.{IsEmptyTold};
ghost use Rattle.plain_desk.specs.Openings.{HasFreshCookies, NeverBegins, cookies_of, opening_over, opening_with};
ghost use Rattle.script_runner.specs.Drive.{ScriptEnd, IsDrive, TellsScript, TellsFewer, status_of_script};
ghost use Rattle.command_loop.specs.Flow.{flow};

use crate::driver::Driver;
use asp_base::{Sink, Source};
use asp_messages::MOST_COOKIE;
use command_loop::run;
use cookie_source::PlainCookies;
use held_lines::HeldLines;
use keeper::{Keeper, Ran};
use page_script::Script;
use std::alloc::Global;

/// Runs the page script on the source over the keeper, whose acquires draw these cookies, writes the
/// line of each step before the next line is run, and hands the keeper back. With no cookies each
/// acquire finds none. At most `most` bytes are taken, at most 2^40.
///
/// The history of the items begins with those that the keeper has. The status is 0 where the input
/// was a script, all of whose lines were run and printed; 3 where a line is none, or none that may
/// follow, or is longer than a line may be, or the input ended inside one; 4 and 5 where the source
/// or the sink failed; 6 where memory was wanting; 7 where the most bytes were taken and their whole
/// lines were run. The first of these in time decides, and what was written before stays.
pub fn run_drive_over<S: Source, T: Sink, K: Keeper>(
    alloc: Global,
    most: u64,
    source: &mut S,
    sink: &mut T,
    keeper: K,
    cookies: Option<PlainCookies>,
) -> Ran<K>
    requires most { most ≤ most_input }
    requires fresh { HasFreshCookies (opening_over ⟦<K as Keeper>⟧ keeper (cookies_of cookies)) }

    // There is one ending, whose number is the status, and one run that ended so.
    ensures ran { (end : ScriptEnd) × (result.status ≡ status_of_script end)
        × IsDrive K.can_count
        (record { most = most; opening = opening_over ⟦<K as Keeper>⟧ keeper (cookies_of cookies) })
        (flow (S.told source.old) (S.told source.new) (T.taken sink.old) (T.taken sink.new))
        (K.told result.keeper) (K.count result.keeper) end }
    ensures read { result.status ≡ 4 → Rose (S.faults source.old) (S.faults source.new) }
    ensures write { result.status ≡ 5 → Rose (T.faults sink.old) (T.faults sink.new) }
    ensures source_count { S.faults source.old ≤ S.faults source.new }
    ensures sink_count { T.faults sink.old ≤ T.faults sink.new }

    // Where the input is a script and neither source nor sink fails, all of it is run, if memory is
    // there.
    ensures broken { result.status ≡ 3 → TellsScript (S.told source.old) → ⊥ }
    ensures complete { TellsScript (S.told source.old) → TellsFewer (S.told source.old) most
        → (Rose (S.faults source.old) (S.faults source.new) → ⊥)
        → (Rose (T.faults sink.old) (T.faults sink.new) → ⊥) → (result.status ≡ 0)
        ⊎ (result.status ≡ 6) }
    ensures floor { K.floor result.keeper ≡ K.floor keeper }
    ensures tells { NeverBegins (K.told keeper) (K.told result.keeper) }
{
    let mut driver = Driver {
        held: HeldLines::new(alloc),
        script: Script::over(alloc, keeper, cookies),
        print: Vec::new(alloc),
    };
    let end = run(most, &mut driver, source, sink);
    Ran {
        status: end.status(),
        keeper: driver.script.into_keeper(),
    }
}

/// Runs the page script on the source over a keeper with no items, as `run_drive_over` does, with
/// the cookies from 1 on.
pub fn run_drive<S: Source, T: Sink, K: Keeper>(
    alloc: Global,
    most: u64,
    source: &mut S,
    sink: &mut T,
    keeper: K,
) -> Ran<K>
    requires most { most ≤ most_input }
    requires no_faults { K.count keeper ≡ 0 }
    requires empty { IsEmptyTold (K.told keeper) }

    // There is one ending, whose number is the status, and one run that ended so.
    ensures ran { (end : ScriptEnd) × (result.status ≡ status_of_script end)
        × IsDrive K.can_count (record { most = most; opening = opening_with 1 most_cookie })
        (flow (S.told source.old) (S.told source.new) (T.taken sink.old) (T.taken sink.new))
        (K.told result.keeper) (K.count result.keeper) end }
    ensures read { result.status ≡ 4 → Rose (S.faults source.old) (S.faults source.new) }
    ensures write { result.status ≡ 5 → Rose (T.faults sink.old) (T.faults sink.new) }
    ensures source_count { S.faults source.old ≤ S.faults source.new }
    ensures sink_count { T.faults sink.old ≤ T.faults sink.new }

    // Where the input is a script and neither source nor sink fails, all of it is run, if memory is
    // there.
    ensures broken { result.status ≡ 3 → TellsScript (S.told source.old) → ⊥ }
    ensures complete { TellsScript (S.told source.old) → TellsFewer (S.told source.old) most
        → (Rose (S.faults source.old) (S.faults source.new) → ⊥)
        → (Rose (T.faults sink.old) (T.faults sink.new) → ⊥) → (result.status ≡ 0)
        ⊎ (result.status ≡ 6) }
    ensures floor { K.floor result.keeper ≡ K.floor keeper }
    ensures tells { NeverBegins (K.told keeper) (K.told result.keeper) }
{
    let cookies = PlainCookies::new(1, MOST_COOKIE);
    run_drive_over(alloc, most, source, sink, keeper, Some(cookies))
}
