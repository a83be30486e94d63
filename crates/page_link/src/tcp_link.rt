//! The link over a connection: the trusted edge.
ghost use Rattle.std.specs.Prelude.{◌≡◌, None, IfOk};

use crate::Link;
use asp_base::{Clock, Failed, HostClock, HostSink, HostSource, Source, write_whole};
use std::io::{Read, Write};
use std::marker::Model;
use std::net::{Ipv4Addr, Net, OpenStream, SocketAddr, TcpStream};
use std::rt::Clock as HostTime;
use std::thread;
use std::time::Duration;

/// A link over a connection. It tells no bytes and no pauses, tries again after an interruption,
/// and counts each other error. Contracts see that count.
#[derive(Drop)]
pub struct TcpLink<S> {
    stream: S,
    faults: u64,
}

impl<S> Model for TcpLink<S> {
    ghost use Rattle.std.specs.Prelude.{ℕ};

    ghost Value = { ℕ };

    ghost view = { λ l. l.faults };
}

impl<S: OpenStream + Drop> TcpLink<S> {
    /// A link to the server on this port of the machine itself, which sends each piece without
    /// delay. `Failed` where the connection is refused.
    pub fn connect<R: Net<Stream = S>>(rt: &R, port: u16) -> Result<TcpLink<S>, Failed>
        ensures { IfOk result (λ l. l ≡ 0) }
    {
        let Ok(stream) = TcpStream::connect(rt, SocketAddr::from((Ipv4Addr::LOCALHOST, port)))
        else {
            return Err(Failed);
        };
        match stream.set_nodelay(true) {
            Ok(()) => Ok(TcpLink { stream, faults: 0 }),
            Err(_) => Err(Failed),
        }
    }
}

impl<S: Read + Write> Link for TcpLink<S> {
    ghost told = { λ _. None };

    ghost pauses = { λ _. None };

    ghost faults = { λ count. count };

    fn send<R>(&mut self, _rt: &R, piece: &[u8]) -> Result<(), Failed> {
        let mut sink = HostSink::new(&mut self.stream);
        match write_whole(&mut sink, piece) {
            Ok(()) => Ok(()),
            Err(Failed) => {
                self.faults = self.faults.saturating_add(1);
                Err(Failed)
            }
        }
    }

    fn receive<R>(&mut self, _rt: &R, buf: &mut [u8]) -> Result<usize, Failed> {
        let mut source = HostSource::new(&mut self.stream);
        match source.read(buf) {
            Ok(count) => Ok(count),
            Err(Failed) => {
                self.faults = self.faults.saturating_add(1);
                Err(Failed)
            }
        }
    }

    fn pause<R: HostTime>(&mut self, rt: &R, until: u64) {
        let now = HostClock.now(rt);
        thread::sleep(rt, Duration::from_millis(until.saturating_sub(now)));
    }
}
