//! The words of the command line, and the host's source and sink.
use crate::running::{DONE, FOUND, WRITE_AND_READ, command_status, joined, sink, source};
use asp_base::{Failed, HostSink, HostSource, Sink, Source};
use keeper::ListKeeper;
use pipe_command::path_of;
use std::alloc::Global;
use std::io::{self, Cursor, Read, Write};
use std::test::Fail;

/// The words as the command line gives them.
pub fn words_of(alloc: Global, words: &[&str]) -> Result<Vec<String>, Fail> {
    let mut given = Vec::new(alloc);
    for word in words {
        given.push(String::from_str(alloc, word)?)?;
    }
    Ok(given)
}

/// Whether the status of these words is 2, with nothing read or written.
fn are_no_command(alloc: Global, words: &[&str]) -> Result<bool, Fail> {
    let given = words_of(alloc, words)?;
    let mut input = source(alloc, WRITE_AND_READ, 16_384, &[])?;
    let mut output = sink(alloc, &[])?;
    let status = command_status(
        alloc,
        &given,
        &mut input,
        &mut output,
        ListKeeper::new(alloc),
    );
    let mut unread = [0; 4];
    let len = input.read(&mut unread);
    Ok(
        status == 2
            && output.taken().is_empty()
            && len == Ok(4)
            && unread.as_slice() == b"PUT ".as_slice(),
    )
}

#[test]
fn numbers_out_of_range_are_no_command(rt: HostRuntime) -> Result<(), Fail> {
    for (start, first) in [
        ("0", "0"),
        ("0", "9223372036854775808"),
        ("4611686018427387905", "1"),
        ("x", "1"),
    ] {
        let refused = are_no_command(rt.alloc(), &["pipe", start, "1000", first])?;
        assert!(rt; refused, "pipe {start} 1000 {first}");
    }
    Ok(())
}

#[test]
fn words_and_digits_that_are_missing_are_no_command(rt: HostRuntime) -> Result<(), Fail> {
    assert!(rt; are_no_command(rt.alloc(), &["pipe"])?);
    assert!(rt; are_no_command(rt.alloc(), &["id", "00"])?);
    assert!(rt; are_no_command(rt.alloc(), &["mirror"])?);
    assert!(rt; are_no_command(rt.alloc(), &["mirror", "4611686018427387905"])?);
    Ok(())
}

#[test]
fn pipe_and_id_write_what_they_say(rt: HostRuntime) -> Result<(), Fail> {
    let alloc = rt.alloc();
    let given = words_of(alloc, &["pipe", "0", "001000", "1"])?;
    let mut input = source(alloc, WRITE_AND_READ, 16_384, &[])?;
    let mut output = sink(alloc, &[])?;
    let status = command_status(
        alloc,
        &given,
        &mut input,
        &mut output,
        ListKeeper::new(alloc),
    );
    assert_eq!(rt; status, 0);
    assert_eq!(rt; output.taken(), joined(alloc, DONE, FOUND)?.as_slice());
    for (digits, text) in [
        (
            "010000000000000000000000000000",
            "baaaaaaaaaaaaaaaaaaaaaaa\n",
        ),
        (
            "ffffffffffffffffffffffffffffff",
            "555555555555555555555555\n",
        ),
        (
            "FFFFFFFFFFFFFFFffffffffffffffF",
            "555555555555555555555555\n",
        ),
    ] {
        let given = words_of(alloc, &["id", digits])?;
        let mut input = source(alloc, WRITE_AND_READ, 16_384, &[])?;
        let mut output = sink(alloc, &[])?;
        let status = command_status(
            alloc,
            &given,
            &mut input,
            &mut output,
            ListKeeper::new(alloc),
        );
        assert_eq!(rt; status, 0);
        assert_eq!(rt; output.taken(), text.as_bytes());
    }
    Ok(())
}

#[test]
fn path_is_the_last_word_of_three_commands(rt: HostRuntime) -> Result<(), Fail> {
    let alloc = rt.alloc();
    for (line, path) in [
        ("pipe 0 1000 1 a.db", Some("a.db")),
        ("trace 0 1000 1 a.db", Some("a.db")),
        ("drive a.db", Some("a.db")),
        ("pipe 0 1000 1", None),
        ("pipe 0 1000 1 ", None),
        ("pipe 0 1000 0 a.db", None),
        ("pipe 0 1000 1 a.db b.db", None),
        ("drive ", None),
        ("drive", None),
        ("replay a.db", None),
        ("load 1 1 a.db", None),
        ("", None),
    ] {
        let mut words = Vec::new(alloc);
        for word in line.split(' ') {
            words.push(String::from_str(alloc, word)?)?;
        }
        assert_eq!(rt; path_of(&words), path, "at {line}");
    }
    Ok(())
}

/// A reader and a writer that fail.
#[derive(Drop)]
struct Broken;

impl Read for Broken {
    fn read(&mut self, _buf: &mut [u8]) -> io::Result<usize> {
        Err(io::Error::from(io::ErrorKind::Other))
    }
}

impl Write for Broken {
    fn write(&mut self, _buf: &[u8]) -> io::Result<usize> {
        Err(io::Error::from(io::ErrorKind::Other))
    }

    fn flush(&mut self) -> io::Result<()> {
        Ok(())
    }
}

#[test]
fn the_source_of_the_host_gives_the_bytes_of_its_reader(rt: HostRuntime) -> Result<(), Fail> {
    let mut buf = [0; 4];
    let mut input = HostSource::new(b"abcde".as_slice());
    assert_eq!(rt; input.read(&mut buf), Ok(4));
    assert_eq!(rt; buf.as_slice(), b"abcd".as_slice());
    assert_eq!(rt; input.read(&mut buf), Ok(1));
    assert_eq!(rt; input.read(&mut buf), Ok(0));
    assert_eq!(rt; HostSource::new(Broken).read(&mut buf), Err(Failed));
    Ok(())
}

#[test]
fn the_sink_of_the_host_hands_its_bytes_to_its_writer(rt: HostRuntime) -> Result<(), Fail> {
    let mut room = [0; 4];
    let mut output = HostSink::new(Cursor::new(room.as_mut_slice()));
    assert_eq!(rt; output.write(b"abcde"), Ok(4));
    assert_eq!(rt; output.write(b"e"), Err(Failed));
    assert_eq!(rt; output.write(b""), Ok(0));
    assert_eq!(rt; HostSink::new(Broken).write(b"a"), Err(Failed));
    Ok(())
}
