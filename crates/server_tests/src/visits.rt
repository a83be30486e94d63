//! Visits by the words of a command line, over sockets.
ghost use Rattle.std.specs.Prelude.{None};

use crate::memory::{DONE, clock};
use crate::serve_runs::{Found, Kept, find_all, serve_new};
use crate::sockets::{listen, serve_some};
use asp_base::{Clock, Failed, HostClock, ListClock, MemorySink, OpenGate};
use page_link::{Link, TcpLink};
use std::alloc::Global;
use std::io::{Read, Write};
use std::net::{Ipv4Addr, Net, SocketAddr, TcpListener, TcpStream};
use std::process::Abort;
use std::rt::Clock as HostTime;
use std::str;
use std::sync::Wait;
use std::test::Fail;
use std::thread::{Threads, join};
use stream_server::{TcpDoor, Worker};
use visit_command::visit;

const PUT: &str = "PUT %2Fs HTTP/1.1\r\nHost: state\r\nContent-Length: 1\r\n\r\nx";

const ACQUIRE: &str = "GET %2Fs HTTP/1.1\r\nHost: state\r\nExclusive: acquire\r\n\r\n";

const FOUND_1: &str =
    "HTTP/1.1 200 OK\r\nTimeout: 20\r\nLockCookie: 1\r\nContent-Length: 1\r\n\r\nx";

const RELEASE_1: &str =
    "GET %2Fs HTTP/1.1\r\nHost: state\r\nExclusive: release\r\nLockCookie: 1\r\n\r\n";

/// Two workers serve a connection of the listener each, and the store is found so. `None` is want
/// of memory.
fn serve_two<R: Abort + Threads + Wait + HostTime + Sync>(
    rt: &R,
    alloc: Global,
    listener: &TcpListener,
    found: &[Found],
) -> Option<()> {
    let first = Worker::new(TcpDoor::new(listener, 1), HostClock);
    let second = Worker::new(TcpDoor::new(listener, 1), HostClock);
    let mut workers = vec![in alloc; first, second].ok()?;
    let kept = serve_new(rt, alloc, 8, workers.as_mut_slice(), &OpenGate)?;
    let Kept { store, passes } = kept;
    find_all(rt, alloc, &store, passes, found)
}

/// An exclusive page of `/s` by words, which leaves its item as it is: it prints `done`, and the
/// status is 0. `None` is want of memory.
fn visit_done<R: Abort + Wait + HostTime, L: Link, C: Clock>(
    rt: &R,
    alloc: Global,
    link: &mut L,
    clock: &mut C,
) -> Option<()> {
    let mut words = Vec::new(alloc);
    for word in ["visit", "42424", "x2f73", "exclusive", "keep"] {
        words.push(String::from_str(alloc, word).ok()?).ok()?;
    }
    let mut sink = MemorySink::new(alloc, 64, 64, Vec::new(alloc)).ok()?;
    let status = visit(rt, alloc, &words, link, &mut sink, clock);
    assert_eq!(rt; str::from_utf8(sink.taken()), Ok("done\n"));
    assert_eq!(rt; status, 0);
    Some(())
}

/// The page visits a store without its item. `None` where the connection fails, or memory does.
fn visit_none<R: Net<Stream = TcpStream> + Abort + Wait + HostTime>(
    rt: &R,
    alloc: Global,
    port: u16,
) -> Option<()> {
    let mut link = TcpLink::connect(rt, port).ok()?;
    visit_done(rt, alloc, &mut link, &mut HostClock)
}

#[test]
fn a_page_without_an_item_sends_its_one_acquire(rt: HostRuntime) -> Result<(), Fail> {
    let alloc = rt.alloc();
    let (listener, port) = listen(&rt)?;
    // The acquire, and a look of the worker after the connection.
    let found = [(b's', None, 2)];
    let (served, visited) = join(
        &rt,
        || serve_some(&rt, alloc, &listener, 1, &found),
        || visit_none(&rt, alloc, port),
    );
    served.ok_or("no memory")?;
    visited.ok_or("no connection")?;
    Ok(())
}

/// A link over a socket, and a connection that holds the lock of `/s` until the first pause.
#[derive(Drop)]
struct WaitingLink {
    link: TcpLink<TcpStream>,
    holder: TcpStream,
    pauses: u64,
    faults: u64,
}

/// Sends the text, and hears this answer. `None` where that fails.
fn talk(stream: &mut TcpStream, text: &str, answer: &str) -> Option<()> {
    stream.write_all(text.as_bytes()).ok()?;
    let mut buf = [0u8; 256];
    let heard = buf.get_mut(..answer.len())?;
    stream.read_exact(heard).ok()?;
    if *heard == *answer.as_bytes() {
        Some(())
    } else {
        None
    }
}

impl Link for WaitingLink {
    ghost told = { λ _. None };

    ghost pauses = { λ _. None };

    ghost faults = { λ l. l.faults };

    fn send<R>(&mut self, rt: &R, piece: &[u8]) -> Result<(), Failed> {
        match self.link.send(rt, piece) {
            Ok(()) => Ok(()),
            Err(Failed) => {
                self.faults = self.faults.saturating_add(1);
                Err(Failed)
            }
        }
    }

    fn receive<R>(&mut self, rt: &R, buf: &mut [u8]) -> Result<usize, Failed> {
        match self.link.receive(rt, buf) {
            Ok(count) => Ok(count),
            Err(Failed) => {
                self.faults = self.faults.saturating_add(1);
                Err(Failed)
            }
        }
    }

    fn pause<R: HostTime>(&mut self, rt: &R, until: u64) {
        self.link.pause(rt, until);
        let is_first = self.pauses == 0;
        self.pauses = self.pauses.saturating_add(1);
        if is_first && talk(&mut self.holder, RELEASE_1, DONE).is_none() {
            self.faults = self.faults.saturating_add(1);
        }
    }
}

/// The page meets the lock of another client, which releases it while the page waits. `None` where
/// a connection fails, or memory does.
fn visit_locked<R: Net<Stream = TcpStream> + Abort + Wait + HostTime>(
    rt: &R,
    alloc: Global,
    port: u16,
    clock: &mut ListClock,
) -> Option<()> {
    let address = SocketAddr::from((Ipv4Addr::LOCALHOST, port));
    let mut holder = TcpStream::connect(rt, address).ok()?;
    talk(&mut holder, PUT, DONE)?;
    talk(&mut holder, ACQUIRE, FOUND_1)?;
    let mut link = WaitingLink {
        link: TcpLink::connect(rt, port).ok()?,
        holder,
        pauses: 0,
        faults: 0,
    };
    visit_done(rt, alloc, &mut link, clock)?;
    assert_eq!(rt; (link.pauses, link.faults), (1, 0));
    Some(())
}

#[test]
fn a_page_waits_for_the_lock_of_another_client(rt: HostRuntime) -> Result<(), Fail> {
    let alloc = rt.alloc();
    let (listener, port) = listen(&rt)?;
    // The client's write, acquire and release, the page's two acquires and its release, and a look
    // of each worker after its connection.
    let found = [(b's', Some(b"x".as_slice()), 8)];
    let mut clock = clock(alloc, &[0, 0, 500])?;
    let (served, visited) = join(
        &rt,
        || serve_two(&rt, alloc, &listener, &found),
        || visit_locked(&rt, alloc, port, &mut clock),
    );
    served.ok_or("no memory")?;
    visited.ok_or("no connection")?;
    Ok(())
}

#[test]
fn a_pause_over_a_socket_ends_at_its_moment(rt: HostRuntime) -> Result<(), Fail> {
    let (_listener, port) = listen(&rt)?;
    let Ok(mut link) = TcpLink::connect(&rt, port) else {
        return Err("no connection".into());
    };
    let until = HostClock.now(&rt).saturating_add(30);
    link.pause(&rt, until);
    assert!(rt; HostClock.now(&rt) >= until);
    // A moment that has passed is not waited for.
    link.pause(&rt, 0);
    Ok(())
}
