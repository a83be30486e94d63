//! The server over sockets, with one worker.
ghost use Rattle.visit_core.specs.Terms.{EndingFits};

use crate::memory::{BAD, DONE, joined};
use crate::serve_runs::{Found, Kept, find_all, serve_new};
use asp_base::{Bytes, Clock, HostClock, OpenGate};
use page_link::{TcpLink, VisitEnd, run_visit};
use std::alloc::Global;
use std::io::{Read, Write};
use std::net::{Ipv4Addr, Net, SocketAddr, TcpListener, TcpStream};
use std::process::Abort;
use std::rt::Clock as HostTime;
use std::sync::Wait;
use std::test::Fail;
use std::thread::{Threads, join, sleep};
use std::time::{Duration, SystemTime};
use stream_server::{TcpDoor, Worker};
use visit_core::{Ending, Limits, Need, Outcome, Visit};

/// A listener on a port of the machine itself that was free, and the port.
pub fn listen<R: Net<Listener = TcpListener, Stream = TcpStream>>(
    rt: &R,
) -> Result<(TcpListener, u16), Fail> {
    let listener = TcpListener::bind(rt, SocketAddr::from((Ipv4Addr::LOCALHOST, 0)))?;
    let port = listener.local_addr()?.port();
    Ok((listener, port))
}

/// One worker serves so many connections of the listener, and the store is found so. `None` is want
/// of memory.
pub fn serve_some<R: Abort + Threads + Wait + HostTime + Sync>(
    rt: &R,
    alloc: Global,
    listener: &TcpListener,
    connections: u64,
    found: &[Found],
) -> Option<()> {
    let worker = Worker::new(TcpDoor::new(listener, connections), HostClock);
    let mut workers = vec![in alloc; worker].ok()?;
    let kept = serve_new(rt, alloc, 8, workers.as_mut_slice(), &OpenGate)?;
    let Kept { store, passes } = kept;
    find_all(rt, alloc, &store, passes, found)
}

/// Sends the bytes and reads until the peer has ended its side; the connection stays open. `None`
/// where anything fails.
fn talk<R: Net<Stream = TcpStream>>(
    rt: &R,
    alloc: Global,
    port: u16,
    sent: &[u8],
) -> Option<(Vec<u8>, TcpStream)> {
    let mut stream = TcpStream::connect(rt, SocketAddr::from((Ipv4Addr::LOCALHOST, port))).ok()?;
    stream.write_all(sent).ok()?;
    let mut got = Vec::new(alloc);
    let mut buf = [0u8; 4_096];
    for _ in 0..1_000 {
        let count = stream.read(&mut buf).ok()?;
        if count == 0 {
            return Some((got, stream));
        }
        got.extend_from_slice(&buf[..count]).ok()?;
    }
    None
}

/// How long the content is that is too long, in bytes.
const CONTENT: usize = 5_000_000;

#[test]
fn the_last_reply_reaches_a_peer_that_sends_more_and_stays(rt: HostRuntime) -> Result<(), Fail> {
    let alloc = rt.alloc();
    let (listener, port) = listen(&rt)?;
    let good = "PUT /a HTTP/1.1\r\nContent-Length: 1\r\n\r\nx";
    let broken = "PUT /a HTTP/1.1\r\nContent-Length: 5000000\r\n\r\n";
    let mut sent = joined(alloc, &[good, broken])?;
    sent.resize(sent.len().min(100) + CONTENT, b'y')?;
    let found = [(b'a', Some(b"x".as_slice()), 2)];
    let (served, got) = join(
        &rt,
        || serve_some(&rt, alloc, &listener, 1, &found),
        || talk(&rt, alloc, port, &sent),
    );
    served.ok_or("no memory")?;
    let (got, _open) = got.ok_or("a reset")?;
    assert!(rt; got.as_slice() == joined(alloc, &[DONE, BAD])?.as_slice());
    Ok(())
}

/// An exclusive page of `/s`. `None` is want of memory, or a refused connection.
fn visit_of<R: Net<Stream = TcpStream> + Wait + HostTime>(
    rt: &R,
    alloc: Global,
    port: u16,
    ending: Ending,
) -> Option<VisitEnd>
    requires { EndingFits ending }
{
    let key = Bytes::copy(alloc, b"/s").ok()?;
    let mut link = TcpLink::connect(rt, port).ok()?;
    let mut visit = Visit::new(key, Need::Exclusive, Limits::default());
    Some(run_visit(rt, alloc, &mut visit, ending, &mut link, &mut HostClock))
}

/// A page that makes its item, and then one that leaves it as it is.
fn two_visits<R: Net<Stream = TcpStream> + Wait + HostTime>(
    rt: &R,
    alloc: Global,
    port: u16,
) -> Option<(VisitEnd, VisitEnd)> {
    let body = Bytes::copy(alloc, b"page").ok()?;
    let save = Ending::Save { body, minutes: 20 };
    let first = visit_of(rt, alloc, port, save)?;
    let second = visit_of(rt, alloc, port, Ending::Keep)?;
    Some((first, second))
}

#[test]
fn pages_visit_the_server(rt: HostRuntime) -> Result<(), Fail> {
    let alloc = rt.alloc();
    let (listener, port) = listen(&rt)?;
    // Two requests of each page, and a look of the worker after each.
    let found = [(b's', Some(b"page".as_slice()), 6)];
    let (served, ends) = join(
        &rt,
        || serve_some(&rt, alloc, &listener, 2, &found),
        || two_visits(&rt, alloc, port),
    );
    served.ok_or("no memory")?;
    let done = VisitEnd::Over(Outcome::Done);
    assert_eq!(rt; ends, Some((done, done)));
    Ok(())
}

#[test]
fn the_clock_of_the_host_is_that_of_the_machine(rt: HostRuntime) -> Result<(), Fail> {
    let before = SystemTime::now(&rt)?
        .duration_since(SystemTime::UNIX_EPOCH)?
        .as_millis();
    let first = HostClock.now(&rt);
    sleep(&rt, Duration::from_millis(20));
    let second = HostClock.now(&rt);
    let after = SystemTime::now(&rt)?
        .duration_since(SystemTime::UNIX_EPOCH)?
        .as_millis();
    assert!(rt; before <= u128::from(first));
    assert!(rt; first < second);
    assert!(rt; u128::from(second) <= after);
    Ok(())
}
