//! The top call of a run over a farm.
ghost use Rattle.std.specs.Prelude.{◌≡◌, ◌↔◌, ◌⊎◌, ◌≤◌, Some, map, string_bytes};
ghost use Rattle.asp_base.specs.Causes.{Rose};
ghost use Rattle.asp_base.specs.Limits.{most_input};
ghost use Rattle.command_loop.specs.Flow.{flow};
ghost use Rattle.script_runner.specs.Drive.{ScriptEnd, TellsFewer, status_of_script};
ghost use Rattle.partition.specs.Farm.{empty_run};
ghost use Rattle.partition.specs.FarmStands.{FarmStands, FarmIsOver, servers_of};
ghost use Rattle.farm_command.specs.FarmDrive.{IsFarm, TellsFarmScript};
ghost use Rattle.farm_command.specs.FarmWords.{farm_of};

use crate::driver::FarmDriver;
use crate::farm_words::farm_of;
use asp_base::{MOST_INPUT, Sink, Source, status};
use command_loop::run;
use held_lines::HeldLines;
use keeper::Keeper;
use partition::FarmScript;
use std::alloc::Global;

/// What a run over a farm hands back: its exit status, and the servers' pages and keepers.
#[derive(Drop)]
pub struct FarmRan<K> {
    /// The exit status.
    pub status: u8,
    /// The pages of the script, and the items of each server.
    pub scripts: FarmScript<K>,
}

/// Runs the page script on the source over the servers of a farm that has no pages yet, writes the
/// line of each step, with its server's number and a space in front, before the next line is run,
/// and hands the farm back. At most `most` bytes are taken, at most 2^40. The statuses are those of
/// `run_drive`.
pub fn run_farm<S: Source, T: Sink, K: Keeper>(
    alloc: Global,
    most: u64,
    source: &mut S,
    sink: &mut T,
    scripts: FarmScript<K>,
) -> FarmRan<K>
    requires most { most ≤ most_input }
    requires stands { FarmStands ⟦<K as Keeper>⟧ scripts empty_run }
    requires begun { FarmIsOver scripts → ⊥ }

    // There is one ending, whose number is the status, and one run that ended so.
    ensures ran { (end : ScriptEnd) × (result.status ≡ status_of_script end)
        × IsFarm ⟦<K as Keeper>⟧ result.scripts most
        (flow (S.told source.old) (S.told source.new) (T.taken sink.old) (T.taken sink.new)) end }
    ensures servers { servers_of result.scripts ≡ servers_of scripts }
    ensures read { result.status ≡ 4 → Rose (S.faults source.old) (S.faults source.new) }
    ensures write { result.status ≡ 5 → Rose (T.faults sink.old) (T.faults sink.new) }
    ensures source_count { S.faults source.old ≤ S.faults source.new }
    ensures sink_count { T.faults sink.old ≤ T.faults sink.new }

    // Where the input is a script and neither source nor sink fails, all of it is run, if memory is
    // there.
    ensures broken { result.status ≡ 3
        → TellsFarmScript (servers_of scripts) (S.told source.old) → ⊥ }
    ensures complete { TellsFarmScript (servers_of scripts) (S.told source.old)
        → TellsFewer (S.told source.old) most
        → (Rose (S.faults source.old) (S.faults source.new) → ⊥)
        → (Rose (T.faults sink.old) (T.faults sink.new) → ⊥) → (result.status ≡ 0)
        ⊎ (result.status ≡ 6) }
{
    let mut driver = FarmDriver {
        held: HeldLines::new(alloc),
        scripts,
        print: Vec::new(alloc),
    };
    let end = run(most, &mut driver, source, sink);
    FarmRan {
        status: end.status(),
        scripts: driver.scripts,
    }
}

/// Does what the words `farm N` say, over a farm of N servers that has no pages yet: runs the page
/// script on the source, as `run_farm` does, and hands the farm back. It waits for nobody, and
/// returns.
///
/// The status is 2 exactly where the words are others, or N is not the number of the farm's
/// servers; nothing was read or written then. The others are those of `run_farm`.
pub fn farm<S: Source, T: Sink, K: Keeper>(
    alloc: Global,
    words: &[String],
    source: &mut S,
    sink: &mut T,
    scripts: FarmScript<K>,
) -> FarmRan<K>
    requires stands { FarmStands ⟦<K as Keeper>⟧ scripts empty_run }
    requires begun { FarmIsOver scripts → ⊥ }
    ensures words { (result.status ≡ 2)
        ↔ (farm_of (map string_bytes words.now) ≡ Some (servers_of scripts) → ⊥) }
    ensures untouched { result.status ≡ 2
        → (source.new ≡ source.old) × (sink.new ≡ sink.old) × (result.scripts ≡ scripts) }
    ensures ran { farm_of (map string_bytes words.now) ≡ Some (servers_of scripts)
        → (end : ScriptEnd) × (result.status ≡ status_of_script end)
        × IsFarm ⟦<K as Keeper>⟧ result.scripts most_input
        (flow (S.told source.old) (S.told source.new) (T.taken sink.old) (T.taken sink.new)) end }
    ensures servers { servers_of result.scripts ≡ servers_of scripts }
    ensures read { result.status ≡ 4 → Rose (S.faults source.old) (S.faults source.new) }
    ensures write { result.status ≡ 5 → Rose (T.faults sink.old) (T.faults sink.new) }
    ensures source_count { S.faults source.old ≤ S.faults source.new }
    ensures sink_count { T.faults sink.old ≤ T.faults sink.new }

    // Where the input is a script and neither source nor sink fails, all of it is run, if memory is
    // there.
    ensures broken { result.status ≡ 3
        → TellsFarmScript (servers_of scripts) (S.told source.old) → ⊥ }
    ensures complete { farm_of (map string_bytes words.now) ≡ Some (servers_of scripts)
        → TellsFarmScript (servers_of scripts) (S.told source.old)
        → TellsFewer (S.told source.old) most_input
        → (Rose (S.faults source.old) (S.faults source.new) → ⊥)
        → (Rose (T.faults sink.old) (T.faults sink.new) → ⊥) → (result.status ≡ 0)
        ⊎ (result.status ≡ 6) }
{
    if farm_of(words) != Some(scripts.servers()) {
        return FarmRan {
            status: status::NO_COMMAND,
            scripts,
        };
    }
    run_farm(alloc, MOST_INPUT, source, sink, scripts)
}
