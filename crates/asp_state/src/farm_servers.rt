//! A page script over the servers of a farm, each with its items in memory.
ghost use Rattle.std.specs.Prelude.{◌≤◌};

use crate::memory_keepers::keepers_of;
use asp_base::status::NO_MEMORY;
use asp_base::{NoMemory, Sink, Source};
use farm_command::farm;
use partition::FarmScript;
use std::alloc::Global;

/// Does what the words `farm N` say over so many servers, and answers the exit status.
pub fn run_farming<S: Source, T: Sink>(
    alloc: Global,
    servers: u64,
    words: &[String],
    source: &mut S,
    sink: &mut T,
) -> u8
    requires { (1 ≤ servers) × (servers ≤ 64) }
{
    let Some(keepers) = keepers_of(alloc, servers) else {
        return NO_MEMORY;
    };
    match FarmScript::new(alloc, keepers) {
        Ok(scripts) => farm(alloc, words, source, sink, scripts).status,
        Err(NoMemory) => NO_MEMORY,
    }
}
