//! The words of a command.
ghost use Rattle.std.specs.Prelude.{◌≡◌, ◌∷◌, [], map, string_bytes, IfSome};
ghost use Rattle.load_generator.specs.LoadRunning.{LoadFits};
ghost use Rattle.pipe_command.specs.Commands.{IfLoad, IfPipe, TakesPath};
ghost use Rattle.pipe_command.specs.PipeRun.{PipeFits};
ghost use Rattle.pipe_command.specs.CommandWords.{command_of, id_of, load_of, mirror_of, pipe_of, run_of, single_of};

use crate::path::stored_of;
use crate::pipe::Pipe;
use asp_base::{LAST_MOMENT, MOST_INPUT, read_number};
use asp_messages::MOST_COOKIE;
use load_generator::Load;
use session_id::read_hex;

/// The most requests of a load.
const MOST_REQUESTS: u64 = 1_000_000;

/// The greatest seed of a load.
const LAST_SEED: u64 = (1 << 31) - 1;

/// What the words of the command line say.
#[derive(Clone, Copy, Debug, PartialEq, Eq)]
pub enum Command {
    /// Answer the requests on the source, or write the journal of that.
    Pipe(Pipe),
    /// Make the requests of a load, and count their replies.
    Load(Load),
    /// Write the identifier of these bytes.
    Id([u8; 15]),
    /// Judge the journal on the source.
    Replay,
    /// List the sessions that live behind the journal on the source.
    Mirror {
        /// The moment at which they live, in milliseconds, at most 2^62.
        moment: u64,
    },
    /// Run the page script on the source.
    Drive,
}

/// A run with these numbers, where each is in its range.
fn run_of(journal: bool, start: &str, step: &str, first: &str) -> Option<Command>
    ensures fits { IfSome result (λ command. IfPipe command PipeFits) }
    ensures load { IfSome result (λ command. IfLoad command (λ load. ⊥)) }
    ensures only { IfSome result TakesPath }
    ensures value { result ≡ run_of journal start.now step.now first.now }
{
    let start = read_number(start.as_bytes(), LAST_MOMENT)?;
    let step = read_number(step.as_bytes(), LAST_MOMENT)?;
    let first = read_number(first.as_bytes(), MOST_COOKIE)?;
    if first == 0 {
        return None;
    }
    Some(Command::Pipe(Pipe {
        start,
        step,
        first,
        journal,
        most: MOST_INPUT,
    }))
}

/// The numbers of `pipe START STEP FIRST` or `trace START STEP FIRST`, where each is in its range.
#[tactic(auto, unfolding(crate::specs::CommandWords::pipe_of))]
pub fn pipe_named(name: &str, start: &str, step: &str, first: &str) -> Option<Command>
    ensures fits { IfSome result (λ command. IfPipe command PipeFits) }
    ensures load { IfSome result (λ command. IfLoad command (λ load. ⊥)) }
    ensures only { IfSome result TakesPath }
    ensures value { result ≡ pipe_of (name.now ∷ start.now ∷ step.now ∷ first.now ∷ []) }
{
    if name == "pipe" {
        return run_of(false, start, step, first);
    }
    if name == "trace" {
        return run_of(true, start, step, first);
    }
    None
}

/// The run of four words, where they are one.
#[tactic(auto, unfolding(crate::specs::CommandWords::pipe_of))]
fn pipe_of(words: &[String]) -> Option<Command>
    ensures fits { IfSome result (λ command. IfPipe command PipeFits) }
    ensures load { IfSome result (λ command. IfLoad command (λ load. ⊥)) }
    ensures value { result ≡ pipe_of (map string_bytes words.now) }
{
    let [name, start, step, first] = words else {
        return None;
    };
    pipe_named(name, start, step, first)
}

/// The numbers of `load N SEED`, where each is in its range.
#[tactic(auto, unfolding(crate::specs::CommandWords::load_of))]
fn load_of(words: &[String]) -> Option<Command>
    ensures fits { IfSome result (λ command. IfLoad command LoadFits) }
    ensures pipe { IfSome result (λ command. IfPipe command (λ pipe. ⊥)) }
    ensures value { result ≡ load_of (map string_bytes words.now) }
{
    let [name, requests, seed] = words else {
        return None;
    };
    if name.as_str() != "load" {
        return None;
    }
    let requests = read_number(requests.as_bytes(), MOST_REQUESTS)?;
    let seed = read_number(seed.as_bytes(), LAST_SEED)?;
    Some(Command::Load(Load { requests, seed }))
}

/// The bytes of `id HEX`, where HEX is 30 hexadecimal digits.
#[tactic(auto, unfolding(crate::specs::CommandWords::id_of))]
fn id_of(words: &[String]) -> Option<Command>
    ensures pipe { IfSome result (λ command. IfPipe command (λ pipe. ⊥)) }
    ensures load { IfSome result (λ command. IfLoad command (λ load. ⊥)) }
    ensures value { result ≡ id_of (map string_bytes words.now) }
{
    let [name, digits] = words else {
        return None;
    };
    if name.as_str() != "id" {
        return None;
    }
    let bytes = read_hex(digits.as_bytes())?;
    Some(Command::Id(bytes))
}

/// The moment of `mirror MOMENT`, where it is in its range.
#[tactic(auto, unfolding(crate::specs::CommandWords::mirror_of))]
fn mirror_of(words: &[String]) -> Option<Command>
    ensures pipe { IfSome result (λ command. IfPipe command (λ pipe. ⊥)) }
    ensures load { IfSome result (λ command. IfLoad command (λ load. ⊥)) }
    ensures value { result ≡ mirror_of (map string_bytes words.now) }
{
    let [name, moment] = words else {
        return None;
    };
    if name.as_str() != "mirror" {
        return None;
    }
    let moment = read_number(moment.as_bytes(), LAST_MOMENT)?;
    Some(Command::Mirror { moment })
}

/// The commands of a single word.
#[tactic(auto, unfolding(crate::specs::CommandWords::single_of))]
fn single_of(words: &[String]) -> Option<Command>
    ensures pipe { IfSome result (λ command. IfPipe command (λ pipe. ⊥)) }
    ensures load { IfSome result (λ command. IfLoad command (λ load. ⊥)) }
    ensures value { result ≡ single_of (map string_bytes words.now) }
{
    let [name] = words else {
        return None;
    };
    if name.as_str() == "replay" {
        return Some(Command::Replay);
    }
    if name.as_str() == "drive" {
        return Some(Command::Drive);
    }
    None
}

/// What the words say, `None` where they are none of the table of commands. It takes no memory.
#[tactic(auto, unfolding(crate::specs::CommandWords::command_of))]
pub fn command_of(words: &[String]) -> Option<Command>
    ensures pipe { IfSome result (λ command. IfPipe command PipeFits) }
    ensures load { IfSome result (λ command. IfLoad command LoadFits) }
    ensures value { result ≡ command_of (map string_bytes words.now) }
{
    if let Some(command) = pipe_of(words) {
        return Some(command);
    }
    if let Some(command) = load_of(words) {
        return Some(command);
    }
    if let Some(command) = id_of(words) {
        return Some(command);
    }
    if let Some(command) = mirror_of(words) {
        return Some(command);
    }
    if let Some(command) = single_of(words) {
        return Some(command);
    }
    stored_of(words)
}
