//! The command that visits a server: the connection to it, and the page's visit.
use asp_base::status::{NO_COMMAND, NOT_CONNECTED};
use asp_base::{Failed, HostClock, Sink};
use page_link::TcpLink;
use std::alloc::Global;
use std::net::{Net, TcpStream};
use std::rt::Clock as HostTime;
use std::sync::Wait;
use visit_command::visit;

/// Makes the visit that the words say to the server on this port of the machine itself, and answers
/// the exit status.
pub fn run_visiting<R: Wait + HostTime + Net<Stream = TcpStream>, T: Sink>(
    rt: &R,
    alloc: Global,
    port: u64,
    words: &[String],
    sink: &mut T,
) -> u8 {
    let Ok(port) = u16::try_from(port) else {
        return NO_COMMAND;
    };
    match TcpLink::connect(rt, port) {
        Ok(mut link) => visit(rt, alloc, words, &mut link, sink, &mut HostClock),
        Err(Failed) => NOT_CONNECTED,
    }
}
