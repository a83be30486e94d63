//! How often a reader looks at the bytes of a head.
ghost use Rattle.std.specs.Prelude.{◌≡◌, ◌+◌, ◌-◌, ◌*◌, ◌<◌, ◌≤◌, length, IfOk, IfNone, IsTrue, MatchOption, OnOk};
ghost use Rattle.wire_tests.specs.Counts.{LooksTwice, content};

use asp_base::{NoMemory, StepCount};
use asp_messages::{Ask, Message, Request};
use request_reader::{Next, RequestReader};
use std::alloc::Global;
use std::marker::Brand;
use std::sync::ledger::{Blank, Ledger};
use std::test::Fail;

/// Two requests in 58 bytes, with heads of 38 and of 19 bytes.
const TWO: &[u8] = b"PUT /a HTTP/1.1\r\nContent-Length: 1\r\n\r\nxGET /a HTTP/1.1\r\n\r\n";

/// Counts the messages that the reader has, and answers whether it may be fed.
fn count_messages(reader: &mut RequestReader, messages: &mut usize) -> Result<bool, NoMemory>
    ensures { IfOk result (λ b. IsTrue b → IsTrue reader.new.bytes.may_feed) }
{
    for _ in 0..3 {
        match reader.next() {
            Next::Message(_) => *messages = messages.saturating_add(1),
            Next::More | Next::Broken => return Ok(true),
            Next::NoMemory => return Err(NoMemory),
        }
    }
    Ok(false)
}

/// The messages of a text that is fed byte by byte, and the most that the reader told of its looks.
fn course_of(alloc: Global, text: &[u8]) -> Result<(usize, u64), NoMemory> {
    let mut reader = RequestReader::new(alloc);
    let mut messages = 0;
    let mut most = 0;
    for piece in text.chunks(1) {
        reader.feed(piece)?;
        if !count_messages(&mut reader, &mut messages)? {
            return Ok((messages, most));
        }
        most = most.max(reader.spent());
    }
    Ok((messages, most))
}

#[test]
fn each_byte_of_a_head_is_looked_at_twice_at_most(rt: HostRuntime) -> Result<(), Fail> {
    let alloc = rt.alloc();
    assert_eq!(rt; course_of(alloc, TWO)?, (2, 76));
    assert_eq!(rt; course_of(alloc, &[b'a'; 8192])?, (0, 8192));
    Ok(())
}

/// What a reader gave of a text: how many messages, and how many bytes of content.
#[derive(Debug, PartialEq, Eq, Drop)]
struct Given {
    messages: u64,
    content: u64,
}

/// How many bytes of content the message brings.
fn content_len(message: &Message) -> u64
    ensures { result ≡ length (content message.now) }
{
    match message {
        Message::Fit(
            Request {
                ask: Ask::Write { body, .. },
                ..
            },
        ) => body.as_slice().len() as u64,
        _ => 0,
    }
}

/// Takes the first message of the reader, and answers how many bytes of content it brings. `None`
/// where no message is whole.
fn take<L: Ledger>(
    reader: &mut RequestReader,
    steps: &mut StepCount<L>,
) -> Result<Option<u64>, NoMemory>
    ensures may_feed { IfOk result (λ o. IfNone o (IsTrue reader.new.bytes.may_feed)) }
    ensures looks { IfOk result (λ o. MatchOption o
        (LooksTwice reader.old reader.new (steps.new - steps.old) 0)
        (LooksTwice reader.old reader.new (steps.new - steps.old))) }
    ensures rises { steps.old ≤ steps.new }
{
    match reader.next_counted(steps) {
        Next::Message(message) => Ok(Some(content_len(&message))),
        Next::More | Next::Broken => Ok(None),
        Next::NoMemory => Err(NoMemory),
    }
}

/// Takes the one message that may be whole, and hears that no other is.
fn hear<L: Ledger>(
    reader: &mut RequestReader,
    steps: &mut StepCount<L>,
    given: &mut Given,
) -> Result<(), NoMemory>
    ensures may_feed { OnOk result (IsTrue reader.new.bytes.may_feed) }
    ensures looks { OnOk result (steps.new + reader.old.looks + 2 * given.new.content
        + 2 * length reader.new.bytes.held ≤ steps.old + reader.new.looks + 2 * given.old.content
        + 2 * length reader.old.bytes.held) }
{
    let Some(len) = take(reader, steps)? else {
        return Ok(());
    };
    given.messages = given.messages.saturating_add(1);
    given.content = given.content.saturating_add(len);
    match take(reader, steps)? {
        Some(_) => Err(NoMemory),
        None => Ok(()),
    }
}

/// Feeds the text byte by byte. No byte of content is looked at, and each other at most twice.
fn counted_of<L: Ledger>(
    alloc: Global,
    text: &[u8],
    steps: &mut StepCount<L>,
) -> Result<Given, NoMemory>
    requires { steps.old ≡ 0 }
    ensures { IfOk result (λ given. steps.new + 2 * given.content ≤ 2 * length text.now) }
{
    let mut reader = RequestReader::new(alloc);
    let mut given = Given {
        messages: 0,
        content: 0,
    };
    for at in 0..text.len() {
        reader.feed(&text[at..at + 1])?;
        hear(&mut reader, steps, &mut given)?;
    }
    if reader.spent() > 0 {
        return Err(NoMemory);
    }
    Ok(given)
}

/// What is given of the text, by a reader whose looks are counted in this ledger.
fn given_of<L: Ledger>(alloc: Global, text: &[u8], blank: Blank) -> Result<Given, NoMemory>
    requires name { blank.name ≡ L.name }
    requires parts { blank.parts ≡ L.parts }
    requires has_parts { 0 < L.parts }
{
    let mut steps = StepCount::<L>::new(blank);
    counted_of(alloc, text, &mut steps)
}

// With one byte of content among 58, at most 114 looks are counted.
#[test]
fn each_byte_of_two_heads_is_counted_twice_at_most(rt: HostRuntime) -> Result<(), Fail> {
    let given = given_of::<Brand>(rt.alloc(), TWO, Blank::new(1))?;
    assert_eq!(rt; TWO.len(), 58);
    assert_eq!(rt;
        given,
        Given {
            messages: 2,
            content: 1,
        }
    );
    Ok(())
}
