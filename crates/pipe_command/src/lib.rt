//! The command line of a run that needs neither a network nor a database: `pipe`, `trace`,
//! `replay`, `drive`, `load` and `id`, over a keeper that is handed in.
#![tactic(auto)]

mod command_words;
mod commands;
mod identifiers;
mod path;
mod pipe;
mod pipe_run;
mod responder;

pub use command_words::{Command, command_of};
pub use commands::command;
pub use path::{path_of, stored_of};
pub use pipe::{Pipe, PipeEnd, PipeVerdict};
pub use pipe_run::{run_pipe, run_pipe_over};
