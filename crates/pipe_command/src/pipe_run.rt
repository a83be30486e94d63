//! The top call of a run.
ghost use Rattle.std.specs.Prelude.{◌≡◌, ◌⊎◌, ◌≤◌};
ghost use Rattle.asp_base.specs.Causes.{Rose};
ghost use Rattle.keeper.specs.Items.{IsEmptyTold};
ghost use Rattle.stream_core.specs.Whole.{IsWholeInput};
ghost use Rattle.command_loop.specs.Flow.{flow};
ghost use Rattle.plain_desk.specs.Openings.{HasFreshCookies, NeverBegins, cookies_of, opening_over};
ghost use Rattle.pipe_command.specs.PlainRun.{from_nothing};
ghost use Rattle.pipe_command.specs.PipeRun.{PipeEnd, PipeFits, IsRun, status_of_pipe};

use crate::pipe::Pipe;
use crate::responder::Responder;
use asp_base::{Sink, Source};
use asp_messages::MOST_COOKIE;
use command_loop::run;
use cookie_source::PlainCookies;
use keeper::{Keeper, Ran};
use std::alloc::Global;

/// Answers the requests on the source over the keeper, one after the other, writes the replies or the
/// journal of what was done, and hands the keeper back. Acquires draw these cookies; with `None` each
/// of them finds none. It waits for nobody, and returns.
///
/// The history of the items begins with those that the keeper has. The status is 0 where the input
/// was whole messages and each was answered; 3 where it was not; 4 and 5 where the source or the sink
/// failed; 6 where memory was wanting; 7 where the most bytes were taken. The first of these in time
/// decides.
pub fn run_pipe_over<S: Source, T: Sink, K: Keeper>(
    alloc: Global,
    pipe: Pipe,
    source: &mut S,
    sink: &mut T,
    keeper: K,
    cookies: Option<PlainCookies>,
) -> Ran<K>
    requires pipe { PipeFits pipe }
    requires fresh { HasFreshCookies (opening_over ⟦<K as Keeper>⟧ keeper (cookies_of cookies)) }

    // There is one ending, whose number is the status, and one run that ended so.
    ensures ran { (end : PipeEnd) × (result.status ≡ status_of_pipe end)
        × IsRun K.can_count
        (record { pipe = pipe; opening = opening_over ⟦<K as Keeper>⟧ keeper (cookies_of cookies) })
        (flow (S.told source.old) (S.told source.new) (T.taken sink.old) (T.taken sink.new))
        (K.told result.keeper) (K.count result.keeper) end }
    ensures read { result.status ≡ 4 → Rose (S.faults source.old) (S.faults source.new) }
    ensures write { result.status ≡ 5 → Rose (T.faults sink.old) (T.faults sink.new) }
    ensures source_count { S.faults source.old ≤ S.faults source.new }
    ensures sink_count { T.faults sink.old ≤ T.faults sink.new }

    // Where the input is whole messages and neither source nor sink fails, all are answered, if
    // memory is there.
    ensures complete { IsWholeInput (S.told source.old) pipe.most
        → (Rose (S.faults source.old) (S.faults source.new) → ⊥)
        → (Rose (T.faults sink.old) (T.faults sink.new) → ⊥)
        → (result.status ≡ 0) ⊎ (result.status ≡ 6) }
    ensures floor { K.floor result.keeper ≡ K.floor keeper }
    ensures tells { NeverBegins (K.told keeper) (K.told result.keeper) }
{
    let mut responder = Responder::new(alloc, pipe, keeper, cookies);
    let end = run(pipe.most, &mut responder, source, sink);
    Ran {
        status: end.status(),
        keeper: responder.desk.into_keeper(),
    }
}

/// Answers the requests on the source over a keeper with no items, as `run_pipe_over` does, with the
/// cookies from the first on that the run is told.
pub fn run_pipe<S: Source, T: Sink, K: Keeper>(
    alloc: Global,
    pipe: Pipe,
    source: &mut S,
    sink: &mut T,
    keeper: K,
) -> Ran<K>
    requires pipe { PipeFits pipe }
    requires no_faults { K.count keeper ≡ 0 }
    requires empty { IsEmptyTold (K.told keeper) }

    // There is one ending, whose number is the status, and one run that ended so.
    ensures ran { (end : PipeEnd) × (result.status ≡ status_of_pipe end)
        × IsRun K.can_count (from_nothing pipe)
        (flow (S.told source.old) (S.told source.new) (T.taken sink.old) (T.taken sink.new))
        (K.told result.keeper) (K.count result.keeper) end }
    ensures read { result.status ≡ 4 → Rose (S.faults source.old) (S.faults source.new) }
    ensures write { result.status ≡ 5 → Rose (T.faults sink.old) (T.faults sink.new) }
    ensures source_count { S.faults source.old ≤ S.faults source.new }
    ensures sink_count { T.faults sink.old ≤ T.faults sink.new }

    // Where the input is whole messages and neither source nor sink fails, all are answered, if
    // memory is there.
    ensures complete { IsWholeInput (S.told source.old) pipe.most
        → (Rose (S.faults source.old) (S.faults source.new) → ⊥)
        → (Rose (T.faults sink.old) (T.faults sink.new) → ⊥)
        → (result.status ≡ 0) ⊎ (result.status ≡ 6) }
    ensures floor { K.floor result.keeper ≡ K.floor keeper }
    ensures tells { NeverBegins (K.told keeper) (K.told result.keeper) }
{
    let cookies = PlainCookies::new(pipe.first, MOST_COOKIE);
    run_pipe_over(alloc, pipe, source, sink, keeper, Some(cookies))
}
