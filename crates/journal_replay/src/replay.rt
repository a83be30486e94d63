//! The top call of a replay.
ghost use Rattle.std.specs.Prelude.{◌≡◌, ◌⊎◌, ◌≤◌, ℕ, List, Option, IsTrue};
ghost use Rattle.asp_base.specs.Causes.{Rose};
ghost use Rattle.asp_base.specs.Limits.{most_input};
ghost use Rattle.session_machine.specs.declared.item.Profile.{Profile};
ghost use Rattle.session_machine.specs.declared.entry.Entry.{Entry};
ghost use Rattle.journal_replay.specs.Replay.{ReplayEnd, IsReplay, IsStatusOf, TellsJournal, TellsNoJournal, status_of_replay};

use crate::ReplayReport;
use crate::replayer::Replayer;
use asp_base::{Sink, Source};
use command_loop::run;
use std::alloc::Global;

/// Reads the journal on the source, judges its entries, and writes what is asked for.
fn run_report<S: Source, T: Sink>(
    alloc: Global,
    most: u64,
    report: ReplayReport,
    source: &mut S,
    sink: &mut T,
) -> u8
    requires most { most ≤ most_input }

    // There is one ending, whose number is the status, and one replay that ended so.
    ensures replay { (end : ReplayEnd) × (result ≡ status_of_replay end)
        × IsReplay report most (S.told source.old) (S.told source.new)
        (T.taken sink.old) (T.taken sink.new) end }
    ensures read { result ≡ 4 → Rose (S.faults source.old) (S.faults source.new) }
    ensures write { result ≡ 5 → Rose (T.faults sink.old) (T.faults sink.new) }
    ensures source_count { S.faults source.old ≤ S.faults source.new }
    ensures sink_count { T.faults sink.old ≤ T.faults sink.new }

    // Where the input is a journal and neither source nor sink fails, it is judged, if memory is
    // there.
    ensures judged { (profile : Profile) (place : ℕ) (list : List Entry)
        → TellsJournal (S.told source.old) most profile place list
        → (Rose (S.faults source.old) (S.faults source.new) → ⊥)
        → (Rose (T.faults sink.old) (T.faults sink.new) → ⊥)
        → IsStatusOf result profile place list }

    // Where the input is none and neither fails, that is told, if memory is there.
    ensures refused { TellsNoJournal (S.told source.old) most
        → (Rose (S.faults source.old) (S.faults source.new) → ⊥)
        → (Rose (T.faults sink.old) (T.faults sink.new) → ⊥)
        → (result ≡ 3) ⊎ (result ≡ 6) }
{
    let mut replayer = Replayer::new(alloc, report);
    run(most, &mut replayer, source, sink).status()
}

/// Reads the journal on the source, judges its entries, and writes one line that tells the
/// judgement, or at which offset the input is no journal. It holds a line of the journal at a time,
/// and the items that there are. It waits for nobody, and returns.
///
/// The status is 0 where the input is a journal whose entries are a legal history from no items and
/// no fault; 8 where it is a journal and they are not; 3 where it is no journal, told as soon as a
/// line is none of its place; 4 and 5 where the source or the sink failed; 6 where it ran out of
/// memory; 7 where the most bytes were taken and the lines among them are those of a journal. The
/// first of these in time decides.
pub fn run_replay<S: Source, T: Sink>(alloc: Global, most: u64, source: &mut S, sink: &mut T) -> u8
    requires most { most ≤ most_input }

    // There is one ending, whose number is the status, and one replay that ended so.
    ensures replay { (end : ReplayEnd) × (result ≡ status_of_replay end)
        × IsReplay ReplayReport.Judgement most (S.told source.old) (S.told source.new)
        (T.taken sink.old) (T.taken sink.new) end }
    ensures read { result ≡ 4 → Rose (S.faults source.old) (S.faults source.new) }
    ensures write { result ≡ 5 → Rose (T.faults sink.old) (T.faults sink.new) }
    ensures source_count { S.faults source.old ≤ S.faults source.new }
    ensures sink_count { T.faults sink.old ≤ T.faults sink.new }

    // Where the input is a journal and neither source nor sink fails, it is judged, if memory is
    // there.
    ensures judged { (profile : Profile) (place : ℕ) (list : List Entry)
        → TellsJournal (S.told source.old) most profile place list
        → (Rose (S.faults source.old) (S.faults source.new) → ⊥)
        → (Rose (T.faults sink.old) (T.faults sink.new) → ⊥)
        → IsStatusOf result profile place list }

    // Where the input is none and neither fails, that is told, if memory is there.
    ensures refused { TellsNoJournal (S.told source.old) most
        → (Rose (S.faults source.old) (S.faults source.new) → ⊥)
        → (Rose (T.faults sink.old) (T.faults sink.new) → ⊥)
        → (result ≡ 3) ⊎ (result ≡ 6) }
{
    run_report(alloc, most, ReplayReport::Judgement, source, sink)
}

/// As `run_replay`, but of a legal history it writes the sessions that live behind it at the
/// moment, in milliseconds: the line `KEY COOKIE SINCE MINUTES FRESH TOUCHED ENDS BODY` of each, in
/// the order of the keys, and then `sessions` and how many they are.
pub fn run_mirror<S: Source, T: Sink>(
    alloc: Global,
    most: u64,
    moment: u64,
    source: &mut S,
    sink: &mut T,
) -> u8
    requires most { most ≤ most_input }

    // There is one ending, whose number is the status, and one replay that ended so.
    ensures replay { (end : ReplayEnd) × (result ≡ status_of_replay end)
        × IsReplay (ReplayReport.Sessions moment) most (S.told source.old) (S.told source.new)
        (T.taken sink.old) (T.taken sink.new) end }
    ensures read { result ≡ 4 → Rose (S.faults source.old) (S.faults source.new) }
    ensures write { result ≡ 5 → Rose (T.faults sink.old) (T.faults sink.new) }
    ensures source_count { S.faults source.old ≤ S.faults source.new }
    ensures sink_count { T.faults sink.old ≤ T.faults sink.new }

    // Where the input is a journal and neither source nor sink fails, it is judged, if memory is
    // there.
    ensures judged { (profile : Profile) (place : ℕ) (list : List Entry)
        → TellsJournal (S.told source.old) most profile place list
        → (Rose (S.faults source.old) (S.faults source.new) → ⊥)
        → (Rose (T.faults sink.old) (T.faults sink.new) → ⊥)
        → IsStatusOf result profile place list }

    // Where the input is none and neither fails, that is told, if memory is there.
    ensures refused { TellsNoJournal (S.told source.old) most
        → (Rose (S.faults source.old) (S.faults source.new) → ⊥)
        → (Rose (T.faults sink.old) (T.faults sink.new) → ⊥)
        → (result ≡ 3) ⊎ (result ≡ 6) }
{
    let report = ReplayReport::Sessions { moment };
    run_report(alloc, most, report, source, sink)
}
