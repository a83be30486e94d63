//! A load, from its first request to its text.
ghost use Rattle.std.specs.Prelude.{◌≡◌, ◌⊎◌, ◌<◌, ◌≤◌, ◌^◌, ℕ, List, [], length, IfOk, OnErr, MatchResult};
ghost use Rattle.asp_base.specs.Causes.{Rose};
ghost use Rattle.asp_base.specs.Outside.{Takes, TakesFront};
ghost use Rattle.asp_messages.specs.Fields.{most_cookie};
ghost use Rattle.keeper.specs.Items.{IsEmptyTold};
ghost use Rattle.session_machine.specs.declared.entry.Entry.{Entry};
ghost use Rattle.session_machine.specs.History.{nothing};
ghost use Rattle.load_generator.specs.StatusCounting.{CountsAre, counts_text};
ghost use Rattle.load_generator.specs.LoadSteps.{DeskHasAsked};
ghost use Rattle.load_generator.specs.LoadRun.{RanLoad};
ghost use Rattle.load_generator.specs.LoadRunning.{LoadFits, WritesCounts};

use crate::generator::Generator;
use crate::load_sweep::sweep;
use crate::status_counts::Counts;
use asp_base::{Failed, NoMemory, Sink, status, write_whole};
use asp_messages::MOST_COOKIE;
use keeper::{Keeper, Ran};
use plain_desk::PlainDesk;
use std::alloc::Global;

/// What a load is told.
#[derive(Clone, Copy, Debug, PartialEq, Eq)]
pub struct Load {
    /// How many requests are made, at most 1,000,000.
    pub requests: u64,
    /// Where the numbers of the generator start, below 2^31.
    pub seed: u64,
}

/// Makes each request of the load and counts its reply.
fn ask_all<K: Keeper>(
    alloc: Global,
    load: Load,
    desk: &mut PlainDesk<K>,
) -> Result<Counts, NoMemory>
    requires load { LoadFits load }
    requires desk { DeskHasAsked ⟦<K as Keeper>⟧ load.seed [] desk.old }
    requires last { desk.old.cookies.last ≡ most_cookie }
    ensures asked { (list : List Entry)
        × DeskHasAsked ⟦<K as Keeper>⟧ load.seed list desk.new
        × IfOk result (λ counts. (length list ≡ load.requests) × CountsAre counts list) }
    ensures floor { K.floor desk.new.keeper ≡ K.floor desk.old.keeper }
{
    let mut generator = Generator::new(load.seed);
    let mut counts = Counts::new();
    for _ in 0..load.requests {
        let request = generator.request(alloc)?;
        let acted = desk.act(request, generator.moment());
        counts.count(&acted.reply);
        generator.heard(&acted.reply);
    }
    Ok(counts)
}

/// Writes what was counted, and answers a status: 0, 5 where the sink failed, or 6 where there was
/// no memory for the text and nothing was written.
fn write_counts<T: Sink>(
    alloc: Global,
    requests: u64,
    counts: Counts,
    removed: u64,
    sink: &mut T,
) -> u8
    ensures writes { WritesCounts result (T.taken sink.old) (T.taken sink.new)
        (counts_text requests counts removed) }
    ensures fault { result ≡ 5 → Rose (T.faults sink.old) (T.faults sink.new) }
    ensures sink_count { T.faults sink.old ≤ T.faults sink.new }
{
    let Ok(text) = counts.text(alloc, requests, removed) else {
        return status::NO_MEMORY;
    };
    match write_whole(sink, text.as_slice()) {
        Ok(()) => status::DONE,
        Err(Failed) => status::WRITE_FAULT,
    }
}

/// Makes the requests of a load over the keeper, sweeps at the latest moment, writes the counts,
/// and hands the keeper back. It reads nothing, waits for nobody, and returns.
///
/// The status is 0; 5 where the sink failed; 6 where there was no memory, and then nothing was
/// written.
pub fn run_load<T: Sink, K: Keeper>(alloc: Global, load: Load, sink: &mut T, keeper: K) -> Ran<K>
    requires load { LoadFits load }
    requires no_faults { K.count keeper ≡ 0 }
    requires empty { IsEmptyTold (K.told keeper) }
    ensures load { RanLoad ⟦<K as Keeper>⟧ load (T.taken sink.old) (T.taken sink.new) result }
    ensures write { result.status ≡ 5 → Rose (T.faults sink.old) (T.faults sink.new) }
    ensures sink_count { T.faults sink.old ≤ T.faults sink.new }
    ensures floor { K.floor result.keeper ≡ K.floor keeper }
{
    let mut desk = PlainDesk::new(alloc, keeper, 1, MOST_COOKIE);
    let Ok(counts) = ask_all(alloc, load, &mut desk) else {
        return Ran {
            status: status::NO_MEMORY,
            keeper: desk.into_keeper(),
        };
    };
    let removed = sweep(&mut desk, load.requests + 1);
    Ran {
        status: write_counts(alloc, load.requests, counts, removed, sink),
        keeper: desk.into_keeper(),
    }
}
