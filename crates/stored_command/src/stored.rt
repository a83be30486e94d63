//! The top call of a command line with a PATH.
ghost use Rattle.std.specs.Prelude.{◌≡◌, ◌⊎◌, ◌↔◌, ◌≤◌, ◌<◌, ◌^◌, None, IfSome, map, string_bytes};
ghost use Rattle.asp_base.specs.Causes.{Rose};
ghost use Rattle.command_loop.specs.Flow.{flow};
ghost use Rattle.plain_desk.specs.Openings.{HasFreshCookies, NeverBegins, cookies_of, opening_over};
ghost use Rattle.pipe_command.specs.Commands.{Completes, DoesFrom, IfPipe, TakesPath};
ghost use Rattle.pipe_command.specs.CommandWords.{stored_of};
ghost use Rattle.pipe_command.specs.PipeRun.{PipeFits};
ghost use Rattle.shard_core.specs.ShardStands.{CountsFault};
ghost use Rattle.stored_command.specs.StoredRun.{DoesStored, least_of};

use asp_base::{MOST_INPUT, Sink, Source, status};
use block_keeper::BlockKeeper;
use cookie_source::PlainCookies;
use keeper::{KeepError, Keeper, Ran};
use pipe_command::{Command, run_pipe_over, stored_of};
use script_runner::run_drive_over;
use std::alloc::Global;

/// No cookies could be set aside: the keeper counted a fault.
pub const NO_BLOCK: u8 = 16;

/// The lowest cookie that a command asks for.
fn least_of(command: &Command) -> u64
    requires { IfPipe command.now PipeFits }
    ensures value { result ≡ least_of command.now }
    ensures some { 0 < result }
    ensures in_range { result < 2 ^ 63 }
{
    match command {
        Command::Pipe(pipe) => pipe.first,
        Command::Load(_)
        | Command::Id(_)
        | Command::Replay
        | Command::Mirror { .. }
        | Command::Drive => 1,
    }
}

/// Does what the command says over the keeper, with these cookies.
fn run_stored<S: Source, T: Sink, K: Keeper>(
    alloc: Global,
    command: Command,
    source: &mut S,
    sink: &mut T,
    keeper: K,
    cookies: Option<PlainCookies>,
) -> Ran<K>
    requires pipe { IfPipe command PipeFits }
    requires path { TakesPath command }
    requires fresh { HasFreshCookies (opening_over ⟦<K as Keeper>⟧ keeper (cookies_of cookies)) }
    ensures does { DoesFrom ⟦<K as Keeper>⟧ (record {
      source = source.old;
      source' = source.new;
      flow = flow (S.told source.old) (S.told source.new) (T.taken sink.old) (T.taken sink.new);
      keeper = keeper;
      result = result;
    }) (opening_over ⟦<K as Keeper>⟧ keeper (cookies_of cookies)) command }
    ensures status { (result.status ≡ 2) ⊎ (result.status ≡ 16) → ⊥ }
    ensures read { result.status ≡ 4 → Rose (S.faults source.old) (S.faults source.new) }
    ensures write { result.status ≡ 5 → Rose (T.faults sink.old) (T.faults sink.new) }
    ensures source_count { S.faults source.old ≤ S.faults source.new }
    ensures sink_count { T.faults sink.old ≤ T.faults sink.new }
    ensures complete { (Rose (S.faults source.old) (S.faults source.new) → ⊥)
        → (Rose (T.faults sink.old) (T.faults sink.new) → ⊥)
        → Completes (S.told source.old) result.status command }
    ensures floor { K.floor result.keeper ≡ K.floor keeper }
    ensures tells { NeverBegins (K.told keeper) (K.told result.keeper) }
{
    match command {
        Command::Pipe(pipe) => run_pipe_over(alloc, pipe, source, sink, keeper, cookies),
        Command::Drive => run_drive_over(alloc, MOST_INPUT, source, sink, keeper, cookies),
        Command::Load(_) | Command::Id(_) | Command::Replay | Command::Mirror { .. } => Ran {
            status: status::NO_COMMAND,
            keeper,
        },
    }
}

/// Does what the words of a command line with a PATH say over the keeper, and answers the exit
/// status and the keeper. It waits for nobody, and returns.
///
/// The status is 2 exactly where the words are those of no command with a PATH; the words are judged
/// first and without memory, and nothing is read or written then, nor any cookie set aside. The
/// keeper then sets cookies aside, at least FIRST, or 1 for `drive`: the status is 16 where it
/// counted a fault in that, and 6 where there was no memory; nothing was read or written then.
/// Otherwise it is that of the run, whose history begins with the items that the keeper holds.
pub fn command_stored<S: Source, T: Sink, K: BlockKeeper>(
    alloc: Global,
    words: &[String],
    source: &mut S,
    sink: &mut T,
    mut keeper: K,
) -> Ran<K>
    ensures words { (result.status ≡ 2) ↔ (stored_of (map string_bytes words.now) ≡ None) }
    ensures untouched { result.status ≡ 2
        → (source.new ≡ source.old) × (sink.new ≡ sink.old) × (result.keeper ≡ keeper) }
    ensures refused { result.status ≡ 16 → (source.new ≡ source.old) × (sink.new ≡ sink.old)
        × CountsFault ⟦<K as Keeper>⟧ keeper result.keeper }
    ensures read { result.status ≡ 4 → Rose (S.faults source.old) (S.faults source.new) }
    ensures write { result.status ≡ 5 → Rose (T.faults sink.old) (T.faults sink.new) }
    ensures source_count { S.faults source.old ≤ S.faults source.new }
    ensures sink_count { T.faults sink.old ≤ T.faults sink.new }

    // What the command that the words say does: to the source, the sink and the keeper.
    ensures does { IfSome (stored_of (map string_bytes words.now))
        (DoesStored ⟦<K as Keeper>⟧ (record {
          source = source.old;
          source' = source.new;
          flow = flow (S.told source.old) (S.told source.new) (T.taken sink.old) (T.taken sink.new);
          keeper = keeper;
          result = result;
        })) }

    // Where neither source nor sink fails, nor the keeper for the block, it does all of that, if
    // memory is there.
    ensures complete { (Rose (S.faults source.old) (S.faults source.new) → ⊥)
        → (Rose (T.faults sink.old) (T.faults sink.new) → ⊥)
        → (result.status ≡ 6) ⊎ ((result.status ≡ 16)
        ⊎ IfSome (stored_of (map string_bytes words.now))
        (Completes (S.told source.old) result.status)) }
{
    let Some(command) = stored_of(words) else {
        return Ran {
            status: status::NO_COMMAND,
            keeper,
        };
    };
    match keeper.set_aside(least_of(&command)) {
        Ok(cookies) => run_stored(alloc, command, source, sink, keeper, cookies),
        Err(KeepError::Fault) => Ran {
            status: NO_BLOCK,
            keeper,
        },
        Err(KeepError::NoMemory) => Ran {
            status: status::NO_MEMORY,
            keeper,
        },
    }
}
