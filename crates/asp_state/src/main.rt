//! The program `asp_state`: the out-of-process session state of ASP.NET.
#![tactic(auto)]

mod database_file;
mod farm_servers;
mod memory_keepers;
mod serve_journals;
mod serve_sockets;
mod visit_socket;

use asp_base::status::{NO_COMMAND, NO_MEMORY};
use asp_base::{HostSink, HostSource};
use database_file::run_stored;
use farm_command::farm_of;
use farm_servers::run_farming;
use id_gateway::{HostRandom, gateway, is_gate};
use keeper::MapKeeper;
use pipe_command::{command, path_of};
use serve_command::{serve_words, serve_words_with_folder};
use serve_journals::run_serving_noted;
use serve_sockets::run_serving;
use std::process::ExitCode;
use std::{env, io};
use visit_command::visit_port;
use visit_socket::run_visiting;

/// The words of the command line behind the program's name, or a status: a word that is no UTF-8 is
/// none of the table of commands.
fn words_given(rt: &HostRuntime) -> Result<Vec<String>, u8> {
    let given = match env::args(rt) {
        Ok(given) => given,
        Err(error) if error.kind() == io::ErrorKind::OutOfMemory => return Err(NO_MEMORY),
        Err(_) => return Err(NO_COMMAND),
    };
    let mut words = Vec::new(rt.alloc());
    for word in given.skip(1) {
        if words.push(word).is_err() {
            return Err(NO_MEMORY);
        }
    }
    Ok(words)
}

fn main(rt: HostRuntime) -> ExitCode {
    let alloc = rt.alloc();
    let words = match words_given(&rt) {
        Ok(words) => words,
        Err(status) => return ExitCode::from(status),
    };
    if let Some(said) = serve_words(&words) {
        return ExitCode::from(run_serving(&rt, alloc, &words, said));
    }
    if let (Some(said), Some(folder)) = (serve_words_with_folder(&words), words.get(4)) {
        let status = run_serving_noted(&rt, alloc, &words, said, folder.as_str());
        return ExitCode::from(status);
    }
    let mut sink = HostSink::new(rt.stdout());
    if let Some(port) = visit_port(&words) {
        return ExitCode::from(run_visiting(&rt, alloc, port, &words, &mut sink));
    }
    let mut source = HostSource::new(rt.stdin());
    if is_gate(&words) {
        let keeper = MapKeeper::new(alloc);
        let random = HostRandom::new(&rt);
        let gated = gateway(alloc, &words, &mut source, &mut sink, keeper, random);
        return ExitCode::from(gated.status);
    }
    if let Some(servers) = farm_of(&words) {
        let status = run_farming(alloc, servers, &words, &mut source, &mut sink);
        return ExitCode::from(status);
    }
    let status = match path_of(&words) {
        Some(path) => run_stored(&rt, path, &words, &mut source, &mut sink),
        None => {
            let keeper = MapKeeper::new(alloc);
            command(alloc, &words, &mut source, &mut sink, keeper).status
        }
    };
    ExitCode::from(status)
}
