//! The word PATH: the database file of a command that keeps its items in one.
ghost use Rattle.std.specs.Prelude.{◌≡◌, map, option_map, string_bytes, IfSome};
ghost use Rattle.pipe_command.specs.Commands.{IfLoad, IfPipe, TakesPath};
ghost use Rattle.pipe_command.specs.Path.{path_of};
ghost use Rattle.pipe_command.specs.PipeRun.{PipeFits};
ghost use Rattle.pipe_command.specs.CommandWords.{stored_at, stored_of};

use crate::command_words::{Command, pipe_named};

/// The command, where PATH is not empty.
fn stored_at(path: &str, command: Option<Command>) -> Option<Command>
    ensures only { IfSome command TakesPath → IfSome result TakesPath }
    ensures value { result ≡ stored_at path.now command }
{
    if path.is_empty() { None } else { command }
}

/// The command of `drive PATH`, `pipe START STEP FIRST PATH` or `trace START STEP FIRST PATH`. It
/// takes no memory.
#[tactic(auto, unfolding(crate::specs::CommandWords::stored_of, crate::specs::CommandWords::pipe_of))]
pub fn stored_of(words: &[String]) -> Option<Command>
    ensures fits { IfSome result (λ command. IfPipe command PipeFits) }
    ensures load { IfSome result (λ command. IfLoad command (λ load. ⊥)) }
    ensures only { IfSome result TakesPath }
    ensures value { result ≡ stored_of (map string_bytes words.now) }
{
    match words {
        [name, path] if name.as_str() == "drive" => stored_at(path, Some(Command::Drive)),
        [name, start, step, first, path] => stored_at(path, pipe_named(name, start, step, first)),
        _ => None,
    }
}

/// The word PATH, `None` exactly where the words are those of no command with one. It takes no
/// memory.
#[tactic(auto, unfolding(crate::specs::Path::path_of))]
pub fn path_of(words: &[String]) -> Option<&str>
    ensures { option_map (λ path. path.now) result ≡ path_of (map string_bytes words.now) }
{
    stored_of(words)?;
    match words {
        [_, path] => Some(path.as_str()),
        [_, _, _, _, path] => Some(path.as_str()),
        _ => None,
    }
}
