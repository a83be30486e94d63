//! The loop of every command that reads a source and writes a sink: pieces of the source are fed to
//! a consumer, and what the consumer gives is written before it goes on.
#![tactic(auto)]

mod consumer;
mod ending;
mod main_loop;
mod steps;

pub use consumer::{Consumer, Stepped};
pub use ending::{RunEnd, Status};
pub use main_loop::run;
