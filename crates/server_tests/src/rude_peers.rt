//! The door over a listener: peers that read nothing, a lack of descriptors, and what it counts.

use crate::memory::{DONE, MISSING, joined};
use crate::serve_runs::serve_new;
use crate::sockets::listen;
use asp_base::{Failed, HostClock, OpenGate};
use std::alloc::Global;
use std::io;
use std::io::{Read, Write};
use std::net::{Ipv4Addr, Net, Shutdown, SocketAddr, TcpListener, TcpStream};
use std::process::Abort;
use std::rt::Clock as HostTime;
use std::sync::Wait;
use std::test::Fail;
use std::thread::{Threads, join, sleep};
use std::time::Duration;
use stream_server::{Door, StreamEnd, TcpDoor, Worker};

/// A connection to a port of the machine itself.
fn connect<R: Net<Stream = TcpStream>>(rt: &R, port: u16) -> io::Result<TcpStream> {
    TcpStream::connect(rt, SocketAddr::from((Ipv4Addr::LOCALHOST, port)))
}

/// One worker serves the connections of the door, which counts no failure. `None` is want of
/// memory.
fn serve_door<R: Abort + Threads + Wait + HostTime + Sync>(
    rt: &R,
    alloc: Global,
    door: TcpDoor<'_>,
) -> Option<()> {
    let worker = Worker::new(door, HostClock);
    let mut workers = vec![in alloc; worker].ok()?;
    serve_new(rt, alloc, 8, workers.as_mut_slice(), &OpenGate)?;
    Some(())
}

/// What the peer sends until its end, or nothing where that fails.
fn hear(alloc: Global, peer: TcpStream) -> Option<Vec<u8>> {
    let mut peer = peer;
    let mut got = Vec::new(alloc);
    let mut buf = [0u8; 4_096];
    for _ in 0..1_000 {
        let count = peer.read(&mut buf).ok()?;
        if count == 0 {
            return Some(got);
        }
        got.extend_from_slice(&buf[..count]).ok()?;
    }
    None
}

/// Sends the bytes, and then that no more come.
fn say(peer: &TcpStream, sent: &[u8]) -> Option<()> {
    let mut writer = peer;
    writer.write_all(sent).ok()?;
    peer.shutdown(Shutdown::Write).ok()
}

/// How long the longest content is, in bytes.
const LONGEST: usize = 4_194_304;

/// A write of the longest content, and eight reads of it: more than the system keeps for a peer
/// that reads nothing.
fn many_asks(alloc: Global) -> Result<Vec<u8>, Fail> {
    let head = "PUT /large HTTP/1.1\r\nContent-Length: 4194304\r\n\r\n";
    let mut sent = joined(alloc, &[head])?;
    sent.resize(sent.len().min(100) + LONGEST, b'y')?;
    for _ in 0..8 {
        sent.extend_from_slice(b"GET /large HTTP/1.1\r\n\r\n")?;
    }
    Ok(sent)
}

/// A peer sends the bytes, and reads nothing. Another peer asks behind it, and hears its answer.
fn ask_behind<R: Net<Stream = TcpStream>>(
    rt: &R,
    alloc: Global,
    port: u16,
    sent: &[u8],
) -> Option<Vec<u8>> {
    let mut rude = connect(rt, port).ok()?;
    rude.write_all(sent).ok()?;
    let good = connect(rt, port).ok()?;
    say(&good, b"GET /a HTTP/1.1\r\n\r\n")?;
    let heard = hear(alloc, good);
    rude.shutdown(Shutdown::Both).ok()?;
    heard
}

#[test]
fn a_peer_that_never_reads_holds_its_worker_for_a_while(rt: HostRuntime) -> Result<(), Fail> {
    let alloc = rt.alloc();
    let (listener, port) = listen(&rt)?;
    let sent = many_asks(alloc)?;
    let door = TcpDoor::with_write_timeout(&listener, 2, Duration::from_millis(200));
    let (served, heard) = join(
        &rt,
        || serve_door(&rt, alloc, door),
        || ask_behind(&rt, alloc, port, &sent),
    );
    served.ok_or("no memory")?;
    assert!(rt; heard.ok_or("no answer")?.as_slice() == MISSING.as_bytes());
    Ok(())
}

/// More copies of a descriptor than any process may have.
const MOST_COPIES: u32 = 4_000_000;

/// Copies of the listener's descriptor, until the process may have no more.
fn take_descriptors(alloc: Global, listener: &TcpListener) -> Result<Vec<TcpListener>, Fail> {
    let mut taken = Vec::new(alloc);
    for _ in 0..MOST_COPIES {
        match listener.try_clone() {
            Ok(copy) => taken.push(copy)?,
            Err(_) => return Ok(taken),
        }
    }
    Err("there is no limit of descriptors")?
}

/// Gives the descriptors back after a while, and hears what the peer sends then.
fn hear_later<R: HostTime>(
    rt: &R,
    alloc: Global,
    taken: Vec<TcpListener>,
    peer: TcpStream,
) -> Option<Vec<u8>> {
    sleep(rt, Duration::from_millis(350));
    drop(taken);
    hear(alloc, peer)
}

#[test]
fn a_lack_of_descriptors_is_waited_out(rt: HostRuntime) -> Result<(), Fail> {
    let alloc = rt.alloc();
    let (listener, port) = listen(&rt)?;
    // A connection takes three: its own, and one for each of its ends.
    for left in 0..3 {
        let peer = connect(&rt, port)?;
        say(&peer, b"PUT /a HTTP/1.1\r\nContent-Length: 1\r\n\r\nx").ok_or("not sent")?;
        let mut taken = take_descriptors(alloc, &listener)?;
        taken.truncate(taken.len().saturating_sub(left));
        let door = TcpDoor::new(&listener, 1);
        let (served, heard) = join(
            &rt,
            || serve_door(&rt, alloc, door),
            || hear_later(&rt, alloc, taken, peer),
        );
        served.ok_or("no memory")?;
        assert!(rt;
            heard.ok_or("no answer")?.as_slice() == DONE.as_bytes(),
            "{left}"
        );
    }
    Ok(())
}

#[test]
fn what_does_not_pass_is_a_failure_of_the_door(rt: HostRuntime) -> Result<(), Fail> {
    let (listener, port) = listen(&rt)?;
    let mut door = TcpDoor::new(&listener, 1);
    // To accept from a listener that doesn't wait, where nobody asks, fails.
    listener.set_nonblocking(true)?;
    for _ in 0..2 {
        assert_eq!(rt; door.next(&rt).err(), Some(Failed));
    }
    // The door is as good as before, and never fails behind its last connection.
    let peer = connect(&rt, port)?;
    let conn = door.next(&rt).ok().flatten().ok_or("no connection")?;
    peer.shutdown(Shutdown::Both)?;
    door.done(conn, StreamEnd::Closed);
    assert!(rt; door.next(&rt).is_ok_and(|conn| conn.is_none()));
    Ok(())
}
