//! The top call of a command line.
ghost use Rattle.std.specs.Prelude.{◌≡◌, ◌↔◌, ◌≤◌, None, IfSome, map, string_bytes};
ghost use Rattle.asp_base.specs.Causes.{Rose};
ghost use Rattle.keeper.specs.Items.{IsEmptyTold};
ghost use Rattle.command_loop.specs.Flow.{flow};
ghost use Rattle.pipe_command.specs.Commands.{Completes, Does};
ghost use Rattle.pipe_command.specs.CommandWords.{command_of};

use crate::command_words::{Command, command_of};
use crate::identifiers::write_id;
use crate::pipe_run::run_pipe;
use asp_base::{MOST_INPUT, Sink, Source, status};
use journal_replay::{run_mirror, run_replay};
use keeper::{Keeper, Ran};
use load_generator::run_load;
use script_runner::run_drive;
use std::alloc::Global;

/// Does what the words of the command line say, and answers the exit status and the keeper. It
/// takes no bound to wait, and returns.
///
/// The status is 2 exactly where the words are none of the table of commands; the words are judged
/// first and without memory, and nothing is read or written then. The other statuses of `pipe` and
/// `trace` are those of `run_pipe`, those of `load`, `replay`, `mirror` and `drive` those of
/// `run_load`, `run_replay`, `run_mirror` and `run_drive`. `id` reads nothing and takes no memory; its status is 5 where the
/// sink failed, else 0. A word PATH names the file that the keeper stands on, which is the
/// caller's to open.
pub fn command<S: Source, T: Sink, K: Keeper>(
    alloc: Global,
    words: &[String],
    source: &mut S,
    sink: &mut T,
    keeper: K,
) -> Ran<K>
    requires no_faults { K.count keeper ≡ 0 }
    requires empty { IsEmptyTold (K.told keeper) }
    ensures words { (result.status ≡ 2) ↔ (command_of (map string_bytes words.now) ≡ None) }
    ensures untouched { result.status ≡ 2
        → (source.new ≡ source.old) × (sink.new ≡ sink.old) × (result.keeper ≡ keeper) }
    ensures read { result.status ≡ 4 → Rose (S.faults source.old) (S.faults source.new) }
    ensures write { result.status ≡ 5 → Rose (T.faults sink.old) (T.faults sink.new) }
    ensures source_count { S.faults source.old ≤ S.faults source.new }
    ensures sink_count { T.faults sink.old ≤ T.faults sink.new }

    // What the command that the words say does: to the source, the sink and the keeper.
    ensures does { IfSome (command_of (map string_bytes words.now)) (Does ⟦<K as Keeper>⟧ (record {
      source = source.old;
      source' = source.new;
      flow = flow (S.told source.old) (S.told source.new) (T.taken sink.old) (T.taken sink.new);
      keeper = keeper;
      result = result;
    })) }

    // Where neither source nor sink fails, it does all of that, if memory is there.
    ensures complete { (Rose (S.faults source.old) (S.faults source.new) → ⊥)
        → (Rose (T.faults sink.old) (T.faults sink.new) → ⊥)
        → IfSome (command_of (map string_bytes words.now))
        (Completes (S.told source.old) result.status) }
    ensures floor { K.floor result.keeper ≡ K.floor keeper }
{
    match command_of(words) {
        Some(Command::Pipe(pipe)) => run_pipe(alloc, pipe, source, sink, keeper),
        Some(Command::Load(load)) => run_load(alloc, load, sink, keeper),
        Some(Command::Id(random)) => Ran {
            status: write_id(random, sink),
            keeper,
        },
        Some(Command::Replay) => Ran {
            status: run_replay(alloc, MOST_INPUT, source, sink),
            keeper,
        },
        Some(Command::Mirror { moment }) => Ran {
            status: run_mirror(alloc, MOST_INPUT, moment, source, sink),
            keeper,
        },
        Some(Command::Drive) => run_drive(alloc, MOST_INPUT, source, sink, keeper),
        None => Ran {
            status: status::NO_COMMAND,
            keeper,
        },
    }
}
